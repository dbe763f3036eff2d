// Ends of ranges.
use super::making::Maker;
use crate::tests::assertions::assert_that;
use bw_model::is_below;

#[test]
fn a_key_is_below_each_greater_end(rt: HostRuntime) {
    let make = Maker::new(&rt, rt.alloc());
    let (a, b) = (make.key("a"), make.key("b"));
    assert_that(&rt, is_below(&a, Some(&b)));
    assert_that(&rt, !is_below(&b, Some(&b)));
    assert_that(&rt, !is_below(&b, Some(&a)));
    assert_that(&rt, is_below(&b, None));
}
