// The homes of a batch of reads over three leaves.
ghost use Rattle.std.specs.Prelude.{◌≡◌, length};

use super::making::{homes_of, memory, six_reads, three};
use crate::tests::assertions::{assert_equal, assert_that};
use bw_fixtures::was_refused;
use bw_group::Homes;
use bw_page::PageId;
use std::process::Abort;

// Compares the pages of the four gets among the six reads, and their numbers. Those of the scans mean nothing.
fn are_homes<R: Abort>(rt: &R, homes: &Homes)
    requires { length homes.now.numbers ≡ 6 }
{
    assert_equal(
        rt,
        homes.pages(),
        [PageId(0), PageId(1), PageId(2)].as_slice(),
    );
    assert_equal(rt, homes.number_at(0), 2);
    assert_equal(rt, homes.number_at(1), 0);
    assert_equal(rt, homes.number_at(3), 1);
    assert_equal(rt, homes.number_at(4), 1);
}

#[test]
fn each_key_has_its_home_at_its_place(rt: HostRuntime) {
    let alloc = memory(&rt, rt.alloc());
    let tree = three(&rt, alloc);
    let ops = six_reads(&rt, alloc);
    let homes = homes_of(&rt, alloc, &tree, &ops, 1).expect(&rt, "memory");
    are_homes(&rt, &homes);
}

#[test]
fn each_growth_of_homes_is_refused(rt: HostRuntime) {
    let alloc = memory(&rt, rt.alloc());
    let tree = three(&rt, alloc);
    let ops = six_reads(&rt, alloc);
    for growth in 1..100 {
        alloc.refuse(growth);
        let homes = homes_of(&rt, alloc, &tree, &ops, 1);
        if !was_refused(alloc, growth) {
            are_homes(&rt, &homes.expect(&rt, "memory"));
            assert_that(&rt, growth > 2);
            return;
        }
        assert_that(&rt, homes.is_err());
    }
    panic!(rt; "no run met no refusal")
}
