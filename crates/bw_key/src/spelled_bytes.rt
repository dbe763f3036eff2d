// How keys and values are shown.
use std::fmt;
use std::fmt::Write;

/// Bytes as they are spelled for people, and in traces: letters, digits, `_`, `.` and `-` as they are, and a list with
/// any other byte, or with none, as `%` and two lower-case hexadecimal digits for each of its bytes.
#[derive(Clone, Copy, Debug)]
pub struct Spelled<'a>(pub &'a [u8]);

impl fmt::Display for Spelled<'_> {
    fn fmt<W: Write>(&self, f: &mut fmt::Formatter<W>) -> fmt::Result {
        let bytes = self.0;
        let plain = !bytes.is_empty() && bytes.iter().all(|byte| is_plain(*byte));
        if plain {
            write_plain(f, bytes)
        } else {
            write_digits(f, bytes)
        }
    }
}

fn is_plain(byte: u8) -> bool {
    byte.is_ascii_alphanumeric() || byte == b'_' || byte == b'.' || byte == b'-'
}

fn write_plain<W: Write>(f: &mut fmt::Formatter<W>, bytes: &[u8]) -> fmt::Result {
    for byte in bytes {
        f.write_char(char::from(*byte))?;
    }
    Ok(())
}

fn write_digits<W: Write>(f: &mut fmt::Formatter<W>, bytes: &[u8]) -> fmt::Result {
    f.write_char('%')?;
    for byte in bytes {
        write!(f, "{byte:02x}")?;
    }
    Ok(())
}
