// A source, batch by batch, and the texts of its faults.
use super::ports::{Maker, Pieces};
use crate::tests::assertions::{assert_equal, assert_that};
use bw_batch::{Key, Memory, Op, Value};
use bw_memory::Alloc;
use bw_trace::{Cause, Inlet, Source, TraceFault, read_batch};
use std::process::Abort;

impl<R: Abort> Maker<'_, R> {
    fn source(&self, text: &str) -> Source<Pieces> {
        Source::new(self.alloc, self.pieces(text, 3), 1000).expect(self.rt, "memory")
    }

    pub fn get(&self, key: &str) -> Op {
        Op::Get(Key::new(self.alloc, key.as_bytes()).expect(self.rt, "a key"))
    }

    pub fn upsert(&self, key: &str, value: &str) -> Op {
        Op::Upsert(
            Key::new(self.alloc, key.as_bytes()).expect(self.rt, "a key"),
            Value::new(self.alloc, value.as_bytes()).expect(self.rt, "a value"),
        )
    }

    pub fn expect_batch<I: Inlet>(&self, source: &mut Source<I>, ops: &[Op]) {
        match read_batch(source) {
            Ok(Some(found)) => {
                assert_equal(self.rt, found.len(), ops.len());
                for (found, op) in found.iter().zip(ops) {
                    assert_equal(self.rt, found, op);
                }
            }
            Ok(None) => panic!(self.rt; "no batch"),
            Err(fault) => panic!(self.rt; "{fault}"),
        }
    }

    pub fn expect_end<I: Inlet>(&self, source: &mut Source<I>) {
        for _ in 0..3 {
            assert_that(self.rt, matches!(read_batch(source), Ok(None)));
        }
    }

    // The same fault again and again.
    fn expect_fault<I: Inlet>(&self, source: &mut Source<I>, fault: TraceFault) {
        for _ in 0..3 {
            assert_equal(self.rt, read_batch(source).err(), Some(fault));
        }
    }
}

#[test]
fn batches_are_read_one_by_one(rt: HostRuntime) {
    let make = Maker::new(&rt, rt.alloc());
    let mut source = make.source("upsert a 007\nget a\ngo\n# b\ngo\n\nget b\n");
    make.expect_batch(&mut source, &[make.upsert("a", "7"), make.get("a")]);
    make.expect_batch(&mut source, &[]);
    make.expect_batch(&mut source, &[make.get("b")]);
    make.expect_end(&mut source);
}

#[test]
fn a_source_keeps_its_faulty_line(rt: HostRuntime) {
    let make = Maker::new(&rt, rt.alloc());
    let mut source = make.source("get a\ngo\n\nget b\nget b c\nget d\ngo\n");
    make.expect_batch(&mut source, &[make.get("a")]);
    let fault = TraceFault::Line {
        number: 5,
        cause: Cause::Words,
    };
    make.expect_fault(&mut source, fault);
}

#[test]
fn a_source_keeps_a_failed_read(rt: HostRuntime) {
    let make = Maker::new(&rt, rt.alloc());
    let input = make.pieces_failing_at("get a\ngo\nget b\ngo\n", 9, 2);
    let mut source = Source::new(make.alloc, input, 1000).expect(&rt, "memory");
    make.expect_batch(&mut source, &[make.get("a")]);
    make.expect_fault(&mut source, TraceFault::Read);
}

#[test]
fn a_source_keeps_that_its_turns_are_over(rt: HostRuntime) {
    let make = Maker::new(&rt, rt.alloc());
    let input = make.pieces("get a\ngo\nget b\ngo\n", 9);
    let mut source = Source::new(make.alloc, input, 1).expect(&rt, "memory");
    make.expect_batch(&mut source, &[make.get("a")]);
    make.expect_fault(&mut source, TraceFault::Endless);
}

#[test]
fn a_source_keeps_its_want_of_memory(rt: HostRuntime) {
    let make = Maker::new(&rt, rt.alloc());
    let mut source = make.source("get a\ngo\nget b\ngo\n");
    make.expect_batch(&mut source, &[make.get("a")]);
    make.alloc.refuse(1);
    assert_equal(&rt, read_batch(&mut source).err(), Some(TraceFault::Memory));
    make.alloc.refuse(0);
    make.expect_fault(&mut source, TraceFault::Memory);
    make.alloc.refuse(1);
    let input = make.pieces("get a", 1);
    assert_equal(
        &rt,
        Source::new(make.alloc, input, 1000).err(),
        Some(Memory),
    );
}

#[test]
fn faults_have_their_texts(rt: HostRuntime) {
    for (fault, text) in [
        (TraceFault::Read, "cannot read"),
        (TraceFault::Write, "cannot write"),
        (TraceFault::Memory, "out of memory"),
        (TraceFault::Endless, "input does not end"),
        (
            in_line(1, Cause::LongLine),
            "line 1: line longer than 8192 bytes",
        ),
        (in_line(20, Cause::Verb), "line 20: unknown word"),
        (in_line(3, Cause::Words), "line 3: wrong number of words"),
        (in_line(4, Cause::KeyText), "line 4: badly spelled key"),
        (
            in_line(5, Cause::KeyLength),
            "line 5: key longer than 64 bytes",
        ),
        (
            in_line(6, Cause::Number),
            "line 6: not a whole number up to 18446744073709551615",
        ),
        (in_line(7, Cause::ValueText), "line 7: badly spelled value"),
        (
            in_line(8, Cause::ValueLength),
            "line 8: value longer than 1024 bytes",
        ),
    ] {
        let found = format!(in rt.alloc(); "{fault}").expect(&rt, "memory");
        assert_equal(&rt, found.as_str(), text);
    }
}

fn in_line(number: u64, cause: Cause) -> TraceFault {
    TraceFault::Line { number, cause }
}

fn refused(alloc: Alloc) -> Result<(), TraceFault> {
    Err(Memory)?;
    let mut text = Vec::new(alloc);
    text.push(7u8)?;
    Ok(())
}

#[test]
fn want_of_memory_is_a_fault(rt: HostRuntime) {
    let make = Maker::new(&rt, rt.alloc());
    assert_equal(&rt, refused(make.alloc), Err(TraceFault::Memory));
    assert_equal(
        &rt,
        TraceFault::from(std::alloc::AllocError),
        TraceFault::Memory,
    );
}
