// How far a long file was run, shown on a terminal. A file stands for the terminal, and takes messages, too.
use super::ports::{Pieces, Runner, Sink, TURNS};
use crate::tests::assertions::{assert_equal, assert_that};
use bw_command::{Progress, Showing, Terminal, run_words};
use bw_trace::{FromWrite, Inlet};
use std::fs::{self, OpenOptions};
use std::process::Abort;
use std::rt::Files;
use std::thread::Threads;
use std::time::Clock;

// A batch, and an operation behind it.
const HEAD: &str = "upsert a 1\nget a\ngo\nget a\n";

// The line after 2^20 bytes of these 26, and of 300 comments of 4,096 bytes behind them; and what clears it.
const SHOWN: &str = "\rbw_run: 85 %, 1 batches, 3 operations\r\x1b[K";

const REPLIES: &str = "new\nis 1\nis 1\n";

impl<R: Abort + Files + AllocGlobal + Threads + Clock + Sync> Runner<'_, R> {
    fn long_trace(&self, rest: &str) -> String {
        let line = self.repeated("x", 4094, "\n");
        let comment = self.joined(&["#", line.as_str()]);
        let comments = self.repeated(comment.as_str(), 300, rest);
        self.joined(&[HEAD, comments.as_str()])
    }

    // A terminal that a file stands for.
    fn screen(&self, file: &str) -> FromWrite<R::File> {
        let file = OpenOptions::new()
            .append(true)
            .create(true)
            .open(self.rt, file)
            .expect(self.rt, "a file");
        FromWrite::new(file)
    }

    // What a terminal has taken at the end of a run over a text, which the input has and a file of this name.
    fn expect_screen(
        &self,
        name: &str,
        words: &[&'static str],
        has_output: bool,
        text: &str,
        expected: (&str, &str, u8),
    ) {
        let (output, taken, status) = expected;
        let file = self.joined(&[name, ".trace"]);
        let screen = self.joined(&[name, ".screen"]);
        fs::write(self.rt, file.as_str(), text).expect(self.rt, "a file");
        let mut out = self.sink();
        let mut errors = self.screen(screen.as_str());
        let terminal = Terminal {
            writer: self.screen(screen.as_str()),
            has_output,
        };
        let found = run_words(
            self.rt,
            self.alloc,
            words,
            self.pieces(text),
            &mut out,
            &mut errors,
            Some(terminal),
            TURNS,
        );
        assert_equal(self.rt, found, status);
        self.expect_text(&out, output);
        self.expect_taken(screen.as_str(), taken);
        fs::remove_file(self.rt, file.as_str()).expect(self.rt, "the file");
    }

    fn expect_taken(&self, screen: &str, text: &str) {
        let taken = fs::read(self.rt, screen).expect(self.rt, "the file");
        assert_equal(self.rt, taken.as_slice(), text.as_bytes());
        fs::remove_file(self.rt, screen).expect(self.rt, "the file");
    }

    // A reader and one round it that shows how far it has come read the same, and fail alike.
    fn expect_same_reads(&self, text: &str, fails_at: u64) {
        let mut plain = self.failing_pieces(text, fails_at);
        let progress = Progress::new(self.global(), Some(self.sink()), Some(7));
        let mut showing = Showing::new(self.failing_pieces(text, fails_at), progress);
        for _ in 0..320 {
            self.expect_same_read(&mut plain, &mut showing);
        }
    }

    fn expect_same_read(&self, plain: &mut Pieces, showing: &mut Showing<Pieces, Sink>) {
        let mut read = [0; 4096];
        let mut handed = [0; 4096];
        let result = plain.read(&mut read);
        assert_that(self.rt, showing.read(&mut handed) == result);
        assert_that(self.rt, handed.as_slice() == read.as_slice());
    }

    fn failing_pieces(&self, text: &str, fails_at: u64) -> Pieces {
        let mut pieces = self.pieces(text);
        pieces.fails_at = fails_at;
        pieces
    }
}

#[test]
fn a_terminal_shows_how_far_a_file_was_run(rt: HostRuntime) {
    let runner = Runner::new(&rt, rt.alloc());
    let text = runner.long_trace("");
    let words = ["run", "run.trace"];
    runner.expect_screen("run", &words, false, text.as_str(), (REPLIES, SHOWN, 0));
}

#[test]
fn the_line_is_cleared_before_a_text_at_the_end(rt: HostRuntime) {
    let runner = Runner::new(&rt, rt.alloc());
    let text = runner.long_trace("");
    let words = ["dump", "dump.trace"];
    let held = "contents 1\na 1\n";
    runner.expect_screen("dump", &words, true, text.as_str(), (held, SHOWN, 0));
}

#[test]
fn no_progress_stands_among_replies(rt: HostRuntime) {
    let runner = Runner::new(&rt, rt.alloc());
    let text = runner.long_trace("");
    let words = ["run", "replies.trace"];
    runner.expect_screen("replies", &words, true, text.as_str(), (REPLIES, "", 0));
}

#[test]
fn the_input_shows_no_progress(rt: HostRuntime) {
    let runner = Runner::new(&rt, rt.alloc());
    let text = runner.long_trace("");
    runner.expect_screen("input", &["run"], false, text.as_str(), (REPLIES, "", 0));
}

#[test]
fn a_short_file_shows_nothing(rt: HostRuntime) {
    let runner = Runner::new(&rt, rt.alloc());
    let words = ["run", "short.trace"];
    runner.expect_screen("short", &words, false, "get a\n", ("none\n", "", 0));
}

#[test]
fn a_message_stands_behind_the_cleared_line(rt: HostRuntime) {
    let runner = Runner::new(&rt, rt.alloc());
    let text = runner.long_trace("bogus");
    let taken = runner.joined(&[SHOWN, "bw_run: line 305: unknown word\n"]);
    let words = ["run", "faulty.trace"];
    let expected = ("new\nis 1\n", taken.as_str(), 3);
    runner.expect_screen("faulty", &words, false, text.as_str(), expected);
}

#[test]
fn progress_that_is_not_taken_changes_nothing(rt: HostRuntime) {
    let runner = Runner::new(&rt, rt.alloc());
    let text = runner.long_trace("");
    fs::write(&rt, "untaken.trace", text.as_str()).expect(&rt, "a file");
    let (mut out, mut errors) = (runner.sink(), runner.sink());
    let terminal = Terminal {
        writer: runner.sink_failing_at(1),
        has_output: true,
    };
    let status = run_words(
        &rt,
        runner.alloc,
        &["dump", "untaken.trace"],
        runner.pieces(""),
        &mut out,
        &mut errors,
        Some(terminal),
        TURNS,
    );
    assert_equal(&rt, status, 0);
    runner.expect_text(&out, "contents 1\na 1\n");
    runner.expect_text(&errors, "");
    fs::remove_file(&rt, "untaken.trace").expect(&rt, "the file");
}

#[test]
fn a_reader_that_shows_hands_on_bytes_and_failures(rt: HostRuntime) {
    let runner = Runner::new(&rt, rt.alloc());
    let text = runner.long_trace("");
    for fails_at in [0, 2, 258] {
        runner.expect_same_reads(text.as_str(), fails_at);
    }
}
