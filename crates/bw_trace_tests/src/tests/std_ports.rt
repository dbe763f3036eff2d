// Readers and writers of std as sources and takers.
use super::ports::Maker;
use crate::tests::assertions::{assert_equal, assert_that};
use bw_trace::{Failed, FromRead, FromWrite, Outlet, Source};
use std::collections::VecDeque;
use std::io;
use std::io::{ErrorKind, Write};

#[test]
fn a_reader_of_std_is_a_source(rt: HostRuntime) {
    let make = Maker::new(&rt, rt.alloc());
    let mut queue: VecDeque<u8> = VecDeque::new(rt.alloc());
    for b in b"upsert a 1\ngo\nget b" {
        queue.push_back(*b).expect(&rt, "memory");
    }
    let mut source = Source::new(make.alloc, FromRead::new(queue), 1000).expect(&rt, "memory");
    make.expect_batch(&mut source, &[make.upsert("a", "1")]);
    make.expect_batch(&mut source, &[make.get("b")]);
    make.expect_end(&mut source);
}

#[test]
fn a_writer_of_std_takes_texts(rt: HostRuntime) {
    let mut queue: VecDeque<u8> = VecDeque::new(rt.alloc());
    let mut out = FromWrite::new(&mut queue);
    assert_that(&rt, out.put(b"is 1\n").is_ok());
    assert_that(&rt, out.put(b"").is_ok());
    assert_that(&rt, out.put(b"none\n").is_ok());
    drop(out);
    let (front, back) = queue.as_slices();
    let mut taken = front.to_vec(rt.alloc()).expect(&rt, "memory");
    taken.extend_from_slice(back).expect(&rt, "memory");
    assert_equal(&rt, taken.as_slice(), b"is 1\nnone\n".as_slice());
}

// Holds bytes back until it is flushed.
#[derive(Drop)]
struct Holding {
    held: u64,
    taken: u64,
    flushes: u64,
    // the flush that fails, counted from 1
    fails_at: u64,
}

impl Write for Holding {
    fn write(&mut self, bytes: &[u8]) -> io::Result<usize> {
        self.held = self.held.saturating_add(bytes.len() as u64);
        Ok(bytes.len())
    }

    fn flush(&mut self) -> io::Result<()> {
        self.flushes = self.flushes.saturating_add(1);
        if self.flushes == self.fails_at {
            return Err(io::Error::from(ErrorKind::Other));
        }
        self.taken = self.taken.saturating_add(self.held);
        self.held = 0;
        Ok(())
    }
}

#[test]
fn a_failure_has_its_text(rt: HostRuntime) {
    let failed = Failed;
    let found = format!(in rt.alloc(); "{failed}").expect(&rt, "memory");
    assert_equal(&rt, found.as_str(), "a read or a write failed");
}

#[test]
fn each_text_is_flushed(rt: HostRuntime) {
    let mut writer = Holding {
        held: 0,
        taken: 0,
        flushes: 0,
        fails_at: 3,
    };
    for (flushes, taken) in [(1, 5), (2, 10)] {
        assert_that(&rt, FromWrite::new(&mut writer).put(b"none\n").is_ok());
        assert_equal(
            &rt,
            (writer.flushes, writer.taken, writer.held),
            (flushes, taken, 0),
        );
    }
    assert_equal(&rt, FromWrite::new(&mut writer).put(b"none\n"), Err(Failed));
}
