// The readers and writers of std as sources and takers of bytes.
ghost use Rattle.std.specs.Prelude.{◌≡◌, false};

use crate::ports::{Failed, Inlet, Outlet};
use std::io::{Read, Write};

/// A reader of std. A read that fails as interrupted is a failure too.
#[derive(Drop)]
pub struct FromRead<R: Read + Drop> {
    reader: R,
    calls: u64,
    failures: u64,
    ended: bool,
}

impl<R: Read + Drop> FromRead<R> {
    /// A source that reads from `reader`.
    pub fn new(reader: R) -> FromRead<R>
        ensures reader { result.reader ≡ reader }
        ensures calls { result.calls ≡ 0 }
        ensures failures { result.failures ≡ 0 }
        ensures ended { result.ended ≡ false }
    {
        FromRead {
            reader,
            calls: 0,
            failures: 0,
            ended: false,
        }
    }
}

impl<R: Read + Drop> Inlet for FromRead<R> {
    ghost remaining = { λ s. R.remaining s.reader };

    ghost calls = { λ s. s.calls };

    ghost failures = { λ s. s.failures };

    ghost has_ended = { λ s. s.ended };

    fn read(&mut self, buffer: &mut [u8]) -> Result<usize, Failed> {
        self.calls = self.calls.saturating_add(1);
        match self.reader.read(buffer) {
            Ok(n) => {
                if n == 0 && !buffer.is_empty() {
                    self.ended = true;
                }
                Ok(n)
            }
            Err(_) => {
                self.failures = self.failures.saturating_add(1);
                Err(Failed)
            }
        }
    }
}

/// A writer of std, flushed after each text.
#[derive(Drop)]
pub struct FromWrite<W: Write + Drop> {
    writer: W,
    failures: u64,
}

impl<W: Write + Drop> FromWrite<W> {
    /// A taker that writes to `writer`.
    pub fn new(writer: W) -> FromWrite<W>
        ensures writer { result.writer ≡ writer }
        ensures failures { result.failures ≡ 0 }
    {
        FromWrite {
            writer,
            failures: 0,
        }
    }
}

impl<W: Write + Drop> Outlet for FromWrite<W> {
    ghost contents = { λ s. W.contents s.writer };

    ghost failures = { λ s. s.failures };

    fn put(&mut self, bytes: &[u8]) -> Result<(), Failed> {
        let taken = match self.writer.write_all(bytes) {
            Ok(()) => self.writer.flush(),
            Err(e) => Err(e),
        };
        match taken {
            Ok(()) => Ok(()),
            Err(_) => {
                self.failures = self.failures.saturating_add(1);
                Err(Failed)
            }
        }
    }
}
