// How many letters keys have as they are spelled.
ghost use Rattle.std.specs.Prelude.{◌≡◌, ◌≤◌, length};
ghost use Rattle.std.specs.Option.{option_copied};
ghost use Rattle.bw_text.specs.Spelling.{high_text, spelled};

use bw_key::Key;
use bw_text::is_spelled_plain;

/// How many letters a key has.
pub(crate) fn key_letters(key: &Key) -> u64
    ensures value { result ≡ length (spelled key.now) }
    ensures limit { result ≤ 129 }
{
    let bytes = key.bytes().len() as u64;
    if is_spelled_plain(key.bytes()) {
        bytes
    } else {
        1 + 2 * bytes
    }
}

/// How many the end of a range has.
pub(crate) fn end_letters(end: Option<&Key>) -> u64
    ensures value { result ≡ length (high_text (option_copied end.entry)) }
    ensures limit { result ≤ 129 }
{
    match end {
        Some(key) => key_letters(key),
        None => 1,
    }
}
