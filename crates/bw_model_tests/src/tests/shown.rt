// Operations and replies as they are shown, and their clones.
ghost use Rattle.std.specs.Prelude.{◌≤◌};

use super::making::{LONG, Maker};
use crate::tests::assertions::{assert_equal, assert_that};
use bw_fixtures::{TextOp, TextReply, was_refused};
use bw_model::{Op, Reply};
use std::process::Abort;
use std::test::Fail;

const OPS: &[(TextOp, &str)] = &[
    (TextOp::Get("ada"), "get ada"),
    (TextOp::Insert("", "1"), "insert % 1"),
    (TextOp::Upsert("a b", "x"), "upsert %612062 x"),
    (TextOp::Update("a", ""), "update a %"),
    (TextOp::Delete("a-b_c.d"), "delete a-b_c.d"),
    (TextOp::SwapIf("a", "1", "2"), "swapif a 1 2"),
    (TextOp::Scan("a", Some("c"), 3), "scan a c 3"),
    (TextOp::Scan("", None, 0), "scan % * 0"),
    (TextOp::Rscan("a", Some(""), 7), "rscan a % 7"),
    (
        TextOp::Rscan("a", None, u64::MAX),
        "rscan a * 18446744073709551615",
    ),
];

const REPLIES: &[(TextReply, &str)] = &[
    (TextReply::Found("1"), "is 1"),
    (TextReply::Absent, "none"),
    (TextReply::Inserted, "inserted"),
    (TextReply::Held("2"), "held 2"),
    (TextReply::New, "new"),
    (TextReply::Was(""), "was %"),
    (TextReply::Pairs(&[]), "scan 0"),
    (
        TextReply::Pairs(&[("a", "1"), ("", "x y")]),
        "scan 2\na 1\n% %782079",
    ),
];

fn is_shown_op<R: Abort>(make: &Maker<'_, R>, rt: &R, op: &Op, text: &str) {
    let shown = format!(in make.alloc; "{op}").expect(rt, "memory");
    assert_equal(rt, shown.as_str(), text);
    assert_equal(rt, &op.clone().expect(rt, "memory"), op);
}

fn is_shown_reply<R: Abort>(make: &Maker<'_, R>, rt: &R, reply: &Reply, text: &str) {
    let shown = format!(in make.alloc; "{reply}").expect(rt, "memory");
    assert_equal(rt, shown.as_str(), text);
    assert_equal(rt, &reply.clone().expect(rt, "memory"), reply);
}

fn has_text<R: Abort>(make: &Maker<'_, R>, rt: &R, op: TextOp, text: &str) {
    is_shown_op(make, rt, &make.op(op), text);
}

#[test]
fn an_operation_is_shown_as_the_line_of_a_trace(rt: HostRuntime) {
    let make = Maker::new(&rt, rt.alloc());
    for &(op, text) in OPS {
        has_text(&make, &rt, op, text);
    }
}

#[test]
fn a_reply_is_shown_as_it_is_printed(rt: HostRuntime) {
    let make = Maker::new(&rt, rt.alloc());
    for &(reply, text) in REPLIES {
        is_shown_reply(&make, &rt, &make.reply(reply), text);
    }
}

// Whether there is memory for a clone.
fn has_clone(op: &Op) -> bool {
    op.clone().is_ok()
}

// Clones with each growth refused in turn, until none is.
fn is_cloned_after<R: Abort>(make: &Maker<'_, R>, rt: &R, op: &Op, growths: u64)
    requires { growths ≤ 3 }
{
    for growth in 1..=growths {
        make.alloc.refuse(growth);
        assert_that(rt, !has_clone(op));
        assert_that(rt, was_refused(make.alloc, growth));
    }
    make.alloc.refuse(growths + 1);
    assert_that(rt, has_clone(op));
    assert_equal(rt, make.alloc.left(), 1);
    make.alloc.refuse(0);
}

fn is_cloned<R: Abort>(make: &Maker<'_, R>, rt: &R, op: TextOp, growths: u64)
    requires { growths ≤ 3 }
{
    is_cloned_after(make, rt, &make.op(op), growths);
}

#[test]
fn a_clone_takes_a_growth_for_each_long_key_and_value(rt: HostRuntime) {
    let make = Maker::new(&rt, rt.alloc());
    is_cloned(&make, &rt, TextOp::Get("a"), 0);
    is_cloned(&make, &rt, TextOp::Delete(LONG), 1);
    is_cloned(&make, &rt, TextOp::SwapIf(LONG, LONG, LONG), 3);
    is_cloned(&make, &rt, TextOp::Scan(LONG, Some(LONG), 1), 2);
}
