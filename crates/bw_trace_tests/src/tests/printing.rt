// The printed texts of replies.
use super::ports::Maker;
use crate::tests::assertions::{assert_equal, assert_that};
use bw_batch::{Pairs, Reply, Value};
use bw_trace::{TraceFault, print_replies};
use std::process::Abort;

impl<R: Abort> Maker<'_, R> {
    fn value(&self, bytes: &[u8]) -> Value {
        Value::new(self.alloc, bytes).expect(self.rt, "a value")
    }

    fn pairs(&self, pairs: &[(&[u8], &[u8])]) -> Reply {
        let mut list = Pairs::new(self.alloc);
        for (key, value) in pairs {
            list.push(key, value).expect(self.rt, "a pair");
        }
        Reply::Pairs(list)
    }

    // Prints one reply.
    fn expect_reply(&self, reply: Reply, text: &str) {
        let mut out = self.sink();
        let outcome = print_replies(self.alloc, &mut out, &[reply]);
        assert_equal(self.rt, outcome, Ok(()));
        self.expect_text(&out, text);
    }
}

#[test]
fn each_reply_has_its_text(rt: HostRuntime) {
    let make = Maker::new(&rt, rt.alloc());
    make.expect_reply(Reply::Found(make.value(b"17")), "is 17\n");
    make.expect_reply(Reply::Absent, "none\n");
    make.expect_reply(Reply::Inserted, "inserted\n");
    make.expect_reply(Reply::Held(make.value(b"17")), "held 17\n");
    make.expect_reply(Reply::New, "new\n");
    make.expect_reply(Reply::Was(make.value(b"17")), "was 17\n");
    make.expect_reply(make.pairs(&[]), "scan 0\n");
    make.expect_reply(make.pairs(&[(b"a", b"1")]), "scan 1\na 1\n");
    make.expect_reply(
        make.pairs(&[(b"", b"1"), (b"kk", b"22")]),
        "scan 2\n% 1\nkk 22\n",
    );
}

const SPELLINGS: &[(&[u8], &str)] = &[
    (b"", "is %\n"),
    (b"azAZ09_.-", "is azAZ09_.-\n"),
    (b"a b", "is %612062\n"),
    (b"%", "is %25\n"),
    (b"a%", "is %6125\n"),
    (b"*", "is %2a\n"),
    (b"\x00", "is %00\n"),
    (b"\n", "is %0a\n"),
    (b"/:@", "is %2f3a40\n"),
    (b"[`{", "is %5b607b\n"),
    (b"\xff\xab\xcd", "is %ffabcd\n"),
    (
        b"an identifier of more than 24 bytes",
        "is %616e206964656e746966696572206f66206d6f7265207468616e203234206279746573\n",
    ),
];

#[test]
fn values_are_plain_or_digits(rt: HostRuntime) {
    let make = Maker::new(&rt, rt.alloc());
    for &(bytes, text) in SPELLINGS {
        make.expect_reply(Reply::Found(make.value(bytes)), text);
    }
}

#[test]
fn keys_and_values_of_pairs_are_plain_or_digits(rt: HostRuntime) {
    let make = Maker::new(&rt, rt.alloc());
    make.expect_reply(
        make.pairs(&[(b"", b""), (b"a-b", b"\xfe"), (b"\x01", b"x")]),
        "scan 3\n% %\na-b %fe\n%01 x\n",
    );
}

#[test]
fn replies_are_printed_in_their_order(rt: HostRuntime) {
    let make = Maker::new(&rt, rt.alloc());
    let mut out = make.sink();
    let none: [Reply; 0] = [];
    assert_equal(&rt, print_replies(make.alloc, &mut out, &none), Ok(()));
    make.expect_text(&out, "");
    let replies = [Reply::New, Reply::Was(make.value(b"1")), Reply::Absent];
    assert_equal(&rt, print_replies(make.alloc, &mut out, &replies), Ok(()));
    assert_equal(
        &rt,
        print_replies(make.alloc, &mut out, &[Reply::Inserted]),
        Ok(()),
    );
    make.expect_text(&out, "new\nwas 1\nnone\ninserted\n");
}

// 3,000 replies of 5 bytes are more than is handed on at once.
#[test]
fn a_long_text_is_handed_on_in_parts(rt: HostRuntime) {
    let make = Maker::new(&rt, rt.alloc());
    let mut replies = Vec::new(rt.alloc());
    let mut text = String::new(rt.alloc());
    for _ in 0..3000 {
        replies.push(Reply::Absent).expect(&rt, "memory");
        text.push_str("none\n").expect(&rt, "memory");
    }
    let mut out = make.sink();
    assert_equal(&rt, print_replies(make.alloc, &mut out, &replies), Ok(()));
    make.expect_text(&out, text.as_str());
    assert_that(&rt, out.calls > 1);

    for call in 1..out.calls.saturating_add(1) {
        let mut out = make.sink_failing_at(call);
        assert_equal(
            &rt,
            print_replies(make.alloc, &mut out, &replies),
            Err(TraceFault::Write),
        );
        assert_that(&rt, out.taken.len() < text.len());
    }
}

// A buffer that cannot be doubled may still take what it needs, so not each refused growth is noticed.
#[test]
fn each_growth_of_a_text_is_refused_in_turn(rt: HostRuntime) {
    let make = Maker::new(&rt, rt.alloc());
    let replies = [
        Reply::Found(make.value(b"a value of more than 24 bytes")),
        make.pairs(&[(b"%", b"1"), (b"a key of more than 24 bytes", b"2")]),
    ];
    let text =
        "is %612076616c7565206f66206d6f7265207468616e203234206279746573\nscan 2\n%25 1\n%61206b6579206f66206d6f7265207468616e203234206279746573 2\n";
    let mut refusals: u64 = 0;
    for growth in 1..1000u64 {
        let mut out = make.sink();
        make.alloc.refuse(growth);
        let outcome = print_replies(make.alloc, &mut out, &replies);
        let left = make.alloc.left();
        make.alloc.refuse(0);
        match outcome {
            Ok(()) => make.expect_text(&out, text),
            Err(fault) => {
                assert_equal(&rt, fault, TraceFault::Memory);
                assert!(rt;
                    text.as_bytes().starts_with(out.taken.as_slice()),
                    "growth {growth}"
                );
                refusals = refusals.saturating_add(1);
            }
        }
        if left > 0 && left <= growth {
            assert_that(&rt, outcome.is_ok() && refusals > 0);
            return;
        }
    }
    panic!(rt; "no run met no refusal");
}
