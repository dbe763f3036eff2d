// Ends of ranges of keys.
ghost use Rattle.std.specs.Prelude.{◌≡◌};
ghost use Rattle.std.specs.Option.{option_copied};
ghost use Rattle.bw_model.specs.Contents.{is_below_end};

use bw_key::Key;

/// Whether a key is below the upper end of a range, if it has one.
pub fn is_below(key: &Key, end: Option<&Key>) -> bool
    ensures { result ≡ is_below_end (option_copied end.entry) key.now }
{
    end.is_none_or(|end| *key < *end)
}
