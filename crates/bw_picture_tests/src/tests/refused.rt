// Each growth of memory refused in turn.
use super::making::{THREE, pages_of};
use crate::tests::assertions::{assert_equal, assert_that};
use bw_fixtures::{heap, was_refused};
use bw_memory::Alloc;
use bw_picture::{PageShape, picture};
use std::process::Abort;

// Draws pages where this growth is refused. Whether it was.
fn picture_refused<R: Abort>(rt: &R, alloc: Alloc, pages: &[PageShape], growth: u64) -> bool {
    alloc.refuse(growth);
    let text = picture(alloc, pages, 4);
    let refused = was_refused(alloc, growth);
    assert_equal(rt, text.is_err(), refused);
    refused
}

#[test]
fn each_growth_of_a_picture_is_refused(rt: HostRuntime) {
    let alloc = heap(rt.alloc()).expect(&rt, "memory");
    let pages = pages_of(alloc, THREE).expect(&rt, "the pages");
    for growth in 1..200 {
        if !picture_refused(&rt, alloc, &pages, growth) {
            assert_that(&rt, growth > 20);
            return;
        }
    }
    panic!(rt; "no run met no refusal")
}
