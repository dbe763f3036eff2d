//! The laws of the trace language. Each has an empty body: its contract is the law.
ghost use Rattle.bw_text.specs.ReadBack.{KeysAreReadBack, ValuesAreReadBack, NumbersAreReadBack, NumberValuesAreReadBack};

/// A printed key is read back as itself.
pub fn keys_are_read_back()
    ensures { KeysAreReadBack }
{}

/// A printed value is read back as itself in version 2.
pub fn values_are_read_back()
    ensures { ValuesAreReadBack }
{}

/// A printed number is read back as itself.
pub fn numbers_are_read_back()
    ensures { NumbersAreReadBack }
{}

/// A value of version 1 is the text of a number. It is printed as that text, and read back as itself.
pub fn number_values_are_read_back()
    ensures { NumberValuesAreReadBack }
{}
