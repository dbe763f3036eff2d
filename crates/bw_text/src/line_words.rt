// What a word of a line spells.
ghost use Rattle.std.specs.Prelude.{◌≡◌, ◌<◌, ◌^◌, SomeIff};
ghost use Rattle.std.specs.List.{list_all};
ghost use Rattle.std.specs.Char.{is_ascii_digit};
ghost use Rattle.bw_text.specs.Grammar.{key_of, value_of, end_of, number_of, no_more_than, number_behind, without_leading_zeros};
ghost use Rattle.bw_text.specs.Misreads.{Says};

use crate::faults::Cause;
use crate::places::Version;
use crate::spelling::{bytes_of_digits, is_spelled_plain};
use bw_key::{Key, KeyFault, Memory};
use bw_memory::Alloc;
use bw_model::{Value, ValueFault};

/// Why words have no meaning: they are faulty, or memory ran out.
#[derive(Clone, Copy)]
pub(crate) enum Misread {
    Faulty(Cause),
    Memory,
}

impl From<Cause> for Misread {
    ghost use Rattle.std.specs.Prelude.{◌≡◌};
    ghost use Rattle.bw_text.specs.declared.line_words.Misread.TheVariants.{Faulty};

    ghost from_gives = { λ cause e. e ≡ Faulty cause };

    fn from(cause: Cause) -> Misread {
        Misread::Faulty(cause)
    }
}

impl From<Memory> for Misread {
    ghost use Rattle.std.specs.Prelude.{◌≡◌};
    ghost use Rattle.bw_text.specs.declared.line_words.Misread.TheVariants.{Memory};

    ghost from_gives = { λ _ e. e ≡ Memory };

    fn from(_error: Memory) -> Misread {
        Misread::Memory
    }
}

/// The key that a word spells.
pub(crate) fn key_in(alloc: Alloc, word: &[u8]) -> Result<Key, Misread>
    ensures { Says result (key_of word.now) }
{
    if let [b'%', digits @ ..] = word {
        match bytes_of_digits(alloc, digits)? {
            Some(bytes) => key_from(alloc, &bytes),
            None => Err(Misread::Faulty(Cause::KeyText)),
        }
    } else if is_spelled_plain(word) {
        key_from(alloc, word)
    } else {
        Err(Misread::Faulty(Cause::KeyText))
    }
}

fn key_from(alloc: Alloc, bytes: &[u8]) -> Result<Key, Misread>
    ensures { Says result (no_more_than 64 Cause.KeyText Cause.KeyLength (Some bytes.now)) }
{
    match Key::new(alloc, bytes) {
        Ok(key) => Ok(key),
        Err(KeyFault::TooLong(_)) => Err(Misread::Faulty(Cause::KeyLength)),
        Err(KeyFault::Memory) => Err(Misread::Memory),
    }
}

/// The upper end of a range that a word spells: a key, or none for `*`.
pub(crate) fn end_in(alloc: Alloc, word: &[u8]) -> Result<Option<Key>, Misread>
    ensures { Says result (end_of word.now) }
{
    if word == b"*".as_slice() {
        return Ok(None);
    }
    let key = key_in(alloc, word)?;
    Ok(Some(key))
}

/// The value that a word spells.
pub(crate) fn value_in(alloc: Alloc, version: Version, word: &[u8]) -> Result<Value, Misread>
    ensures { Says result (value_of version word.now) }
{
    match version {
        Version::First => number_value_in(alloc, word),
        Version::Second => spelled_value_in(alloc, word),
    }
}

// A number, kept as its decimal text.
fn number_value_in(alloc: Alloc, word: &[u8]) -> Result<Value, Misread>
    ensures { Says result (value_of Version.First word.now) }
{
    number_in(word)?;
    match Value::new(alloc, trimmed(word)) {
        Ok(value) => Ok(value),
        Err(_) => Err(Misread::Memory),
    }
}

// Bytes, spelled like those of a key.
fn spelled_value_in(alloc: Alloc, word: &[u8]) -> Result<Value, Misread>
    ensures { Says result (value_of Version.Second word.now) }
{
    if let [b'%', digits @ ..] = word {
        match bytes_of_digits(alloc, digits)? {
            Some(bytes) => value_from(alloc, &bytes),
            None => Err(Misread::Faulty(Cause::ValueText)),
        }
    } else if is_spelled_plain(word) {
        value_from(alloc, word)
    } else {
        Err(Misread::Faulty(Cause::ValueText))
    }
}

fn value_from(alloc: Alloc, bytes: &[u8]) -> Result<Value, Misread>
    ensures { Says result (no_more_than 1024 Cause.ValueText Cause.ValueLength (Some bytes.now)) }
{
    match Value::new(alloc, bytes) {
        Ok(value) => Ok(value),
        Err(ValueFault::TooLong(_)) => Err(Misread::Faulty(Cause::ValueLength)),
        Err(ValueFault::Memory) => Err(Misread::Memory),
    }
}

/// The number that 1 to 20 digits spell, where it fits in 64 bits.
pub(crate) fn number_in(word: &[u8]) -> Result<u64, Misread>
    ensures { Says result (number_of word.now) }
{
    if word.is_empty() || word.len() > 20 || !has_digits_alone(word) {
        return Err(Misread::Faulty(Cause::Number));
    }
    match number_of_digits(word) {
        Some(number) => Ok(number),
        None => Err(Misread::Faulty(Cause::Number)),
    }
}

fn has_digits_alone(word: &[u8]) -> bool
    ensures { result ≡ list_all is_ascii_digit word.now }
{
    word.iter().all(|b| b.is_ascii_digit())
}

// The number of digits, where it is a `u64`.
fn number_of_digits(word: &[u8]) -> Option<u64>
    ensures { SomeIff result (number_behind 0 word.now < 2 ^ 64) (number_behind 0 word.now) }
{
    let mut number: u64 = 0;
    for b in word {
        number = number
            .checked_mul(10)?
            .checked_add(u64::from(b.saturating_sub(b'0')))?;
    }
    Some(number)
}

// Digits without the zeros in front.
fn trimmed(digits: &[u8]) -> &[u8]
    ensures { result.now ≡ without_leading_zeros digits.now }
{
    match digits {
        [b'0', rest @ ..] if !rest.is_empty() => trimmed(rest),
        _ => digits,
    }
}
