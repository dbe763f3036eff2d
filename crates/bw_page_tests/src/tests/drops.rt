// Pages that are dropped give their memory back, with all that is in them.
use super::making::{drop_child, has_children, small_heap, three_children};
use crate::tests::assertions::assert_equal;
use bw_fixtures::{LONG, key};
use bw_memory::Alloc;
use bw_model::Pairs;
use bw_page::{Children, Inner, Leaf, PageId};
use std::process::Abort;

// Above the other long text.
const LONGER: &[u8] = b"b text of more than 24 bytes";

// Makes a leaf whose bounds and pair take memory, and drops it.
fn drop_leaf<R: Abort>(rt: &R, alloc: Alloc) {
    let mut pairs = Pairs::with_capacity(alloc, 1, 56).expect(rt, "memory");
    pairs.push(LONG, LONG).expect(rt, "memory");
    let (low, high) = (
        key(alloc, LONG).expect(rt, "memory"),
        key(alloc, LONGER).expect(rt, "memory"),
    );
    let leaf = Leaf::from_pairs(low, Some(high), Some(PageId(1)), pairs);
    // 28 bytes for each bound, and for the pair its bytes and eight more.
    assert_equal(rt, alloc.used(), 28 + 28 + 56 + 8);
    drop(leaf);
}

// Makes an inner page whose bounds and separator take memory, and drops it.
fn drop_inner<R: Abort>(rt: &R, alloc: Alloc) {
    let (low, high) = (
        key(alloc, LONG).expect(rt, "memory"),
        key(alloc, LONGER).expect(rt, "memory"),
    );
    let mut children = Children::with_capacity(alloc, 1, 28).expect(rt, "memory");
    children.push(&low, PageId(0)).expect(rt, "the child");
    let inner = Inner::from_children(1, low, Some(high), Some(PageId(9)), children);
    assert_equal(rt, alloc.used(), 28 + 28 + 28 + 8);
    drop(inner);
}

#[test]
fn what_is_dropped_gives_its_memory_back(rt: HostRuntime) {
    let alloc = small_heap(&rt, rt.alloc());
    drop_leaf(&rt, alloc);
    assert_equal(&rt, alloc.used(), 0);
    drop_inner(&rt, alloc);
    assert_equal(&rt, alloc.used(), 0);
}

#[test]
fn a_child_that_is_dropped_leaves_its_room(rt: HostRuntime) {
    let alloc = small_heap(&rt, rt.alloc());
    let mut inner = three_children(&rt, alloc);
    let sep = key(alloc, LONG).expect(&rt, "memory");
    let before = alloc.used();
    drop_child(&rt, &mut inner, &sep);
    assert_equal(&rt, alloc.used(), before);
    has_children(&rt, &inner, &[(b"", 0), (b"c", 1)]);
    // It isn't there any more.
    drop_child(&rt, &mut inner, &sep);
    has_children(&rt, &inner, &[(b"", 0), (b"c", 1)]);
}
