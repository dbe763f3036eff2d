// How keys and values are spelled.
ghost use Rattle.std.specs.Prelude.{◌≡◌, ◌++◌, OnOk, IfOk};
ghost use Rattle.std.specs.List.{list_all};
ghost use Rattle.std.specs.Option.{option_copied, option_map};
ghost use Rattle.std.specs.Result.{result_ok};
ghost use Rattle.bw_text.specs.Spelling.{high_text, is_plain, is_plain_word, spelled};
ghost use Rattle.hex.specs.Hex.{decode_of};

use bw_key::{Key, Memory};
use bw_memory::Alloc;
use hex::FromHexError;

fn is_plain_byte(b: u8) -> bool
    ensures { result ≡ is_plain b }
{
    b.is_ascii_alphanumeric() || b == b'_' || b == b'.' || b == b'-'
}

/// Whether a word has bytes, and all are letters, digits, `_`, `.` or `-`.
pub fn is_spelled_plain(word: &[u8]) -> bool
    ensures { result ≡ is_plain_word word.now }
{
    !word.is_empty() && has_plain_bytes_alone(word)
}

fn has_plain_bytes_alone(word: &[u8]) -> bool
    ensures { result ≡ list_all is_plain word.now }
{
    word.iter().all(|b| is_plain_byte(*b))
}

/// Puts the spelling of a key or value behind a text. `Memory` is answered where the text or the digits find none.
pub fn push_spelled(text: &mut Vec<u8, Alloc>, bytes: &[u8]) -> Result<(), Memory>
    ensures { OnOk result (text.new.items ≡ text.old.items ++ spelled bytes.now) }
{
    if is_spelled_plain(bytes) {
        text.extend_from_slice(bytes)?;
    } else {
        let digits = hex::encode(*text.allocator(), bytes)?;
        text.push(b'%')?;
        text.extend_from_slice(digits.as_bytes())?;
    }
    Ok(())
}

/// Puts where a range of keys ends behind a text: its key, or `*` where the range has none.
pub fn push_high(text: &mut Vec<u8, Alloc>, high: Option<&Key>) -> Result<(), Memory>
    ensures { OnOk result (text.new.items ≡ text.old.items ++ high_text (option_copied high.entry)) }
{
    match high {
        Some(key) => push_spelled(text, key.bytes()),
        None => Ok(text.push(b'*')?),
    }
}

/// The bytes that pairs of hexadecimal digits stand for. None where a byte is no digit, or a digit is left over.
pub(crate) fn bytes_of_digits(alloc: Alloc, digits: &[u8]) -> Result<Option<Vec<u8, Alloc>>, Memory>
    ensures { IfOk result (λ bytes. option_map (λ v. v.items) bytes ≡ result_ok (decode_of digits.now)) }
{
    match hex::decode(alloc, digits) {
        Ok(bytes) => Ok(Some(bytes)),
        Err(FromHexError::OutOfMemory) => Err(Memory),
        Err(_) => Ok(None),
    }
}
