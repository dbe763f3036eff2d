// Into how many parts a batch is cut.
use crate::tests::assertions::assert_equal;
use bw_answer::count_parts;

#[test]
fn a_small_batch_is_one_part(rt: HostRuntime) {
    assert_equal(&rt, count_parts(0, 0, 4), 1);
    assert_equal(&rt, count_parts(2047, 127, 4), 1);
    assert_equal(&rt, count_parts(2048, 0, 1), 1);
}

#[test]
fn a_large_batch_has_a_part_for_each_worker(rt: HostRuntime) {
    assert_equal(&rt, count_parts(2048, 0, 4), 2);
    assert_equal(&rt, count_parts(0, 128, 4), 2);
    assert_equal(&rt, count_parts(65536, 0, 4), 4);
    assert_equal(&rt, count_parts(65536, 0, 64), 64);
}
