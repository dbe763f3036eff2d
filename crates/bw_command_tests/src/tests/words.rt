// The words of a command line, as a system hands them over.
use super::ports::Runner;
use crate::tests::assertions::assert_equal;
use bw_command::{arguments, no_memory, no_words};
use std::env::{Env, FillError};
use std::io::ErrorKind;

// Words that may not be UTF-8, the name of the program first.
#[derive(Drop)]
struct Given<'a>(&'a [&'a [u8]]);

impl Env for Given<'_> {
    fn arg(&self, i: usize, buf: &mut [u8]) -> Result<usize, FillError> {
        let room = buf.len();
        let Some(word) = self.0.get(i) else {
            return Err(FillError::NotPresent);
        };
        if word.len() > room {
            return Err(FillError::TooLong);
        }
        let mut n: usize = 0;
        for (slot, b) in buf.iter_mut().zip(*word) {
            *slot = *b;
            n = n.saturating_add(1);
        }
        Ok(n.min(room))
    }

    fn var(&self, _name: &str, _buf: &mut [u8]) -> Result<usize, FillError> {
        Err(FillError::NotPresent)
    }

    fn var_at(&self, _i: usize, _buf: &mut [u8]) -> Result<usize, FillError> {
        Err(FillError::NotPresent)
    }
}

#[test]
fn words_are_those_behind_the_name(rt: HostRuntime) {
    let given: [&[u8]; 3] = [b"bw_run", b"run", "\u{e9}.trace".as_bytes()];
    let found = arguments(&(Given(&given), rt.alloc())).expect(&rt, "words");
    assert_eq!(rt; found.len(), 2);
    assert!(rt; found[0].as_str() == "run" && found[1].as_str() == "\u{e9}.trace");
    let found = arguments(&(Given(&[]), rt.alloc())).expect(&rt, "words");
    assert!(rt; found.is_empty());
}

#[test]
fn a_word_that_is_not_utf_8_is_told(rt: HostRuntime) {
    let given: [&[u8]; 3] = [b"bw_run", b"run", b"\xe9.trace"];
    let fault = match arguments(&(Given(&given), rt.alloc())) {
        Ok(_) => ErrorKind::Other,
        Err(error) => error.kind(),
    };
    assert_equal(&rt, fault, ErrorKind::InvalidData);
}

#[test]
fn words_that_cannot_be_read_have_a_message(rt: HostRuntime) {
    let runner = Runner::new(&rt, rt.alloc());
    let not_text = "a word of the command line is not UTF-8";
    for (kind, message, status) in [
        (ErrorKind::OutOfMemory, "out of memory", 1),
        (ErrorKind::InvalidData, not_text, 2),
    ] {
        let mut errors = runner.sink();
        assert_equal(&rt, no_words(kind, &mut errors), status);
        runner.expect_message(&errors, message);
    }
    let mut errors = runner.sink();
    assert_equal(&rt, no_memory(&mut errors), 1);
    runner.expect_message(&errors, "out of memory");
}
