// Heaps, keys and pages; and calls of pages, whose rules are seen to here.
ghost use Rattle.std.specs.Prelude.{T};
ghost use Rattle.bw_model.specs.Contents.{is_in_range};

use crate::tests::assertions::assert_equal;
use bw_fixtures::{LONG, one, pair};
use bw_key::{Key, Memory};
use bw_memory::{Alloc, Heap};
use bw_page::{Children, Inner, Leaf, PageId};
use std::alloc::Global;
use std::process::Abort;

/// A key and its value, in bytes.
pub type TextPair = (&'static [u8], &'static [u8]);

/// A heap that refuses growths on demand.
pub fn heap<R: Abort>(rt: &R, global: Global) -> Alloc {
    bw_fixtures::heap(global).expect(rt, "memory")
}

/// A heap of 4,096 bytes.
pub fn small_heap<R: Abort>(rt: &R, global: Global) -> Alloc {
    Heap::within(global, 4096).leak(global).expect(rt, "memory")
}

/// The key of these bytes.
pub fn key<R: Abort>(rt: &R, alloc: Alloc, bytes: &[u8]) -> Key {
    bw_fixtures::key(alloc, bytes).expect(rt, "memory")
}

/// The leaf up to `c`, with page 1 at its right: a 1, b 2.
pub fn up_to_c<R: Abort>(rt: &R, alloc: Alloc) -> Leaf {
    bw_fixtures::up_to_c(alloc).expect(rt, "memory")
}

/// The last leaf, from `c` on: c and this value.
pub fn c_with<R: Abort>(rt: &R, alloc: Alloc, bytes: &[u8]) -> Leaf {
    let pairs = one(alloc, pair(alloc, b"c", bytes).expect(rt, "memory")).expect(rt, "memory");
    let low = bw_fixtures::key(alloc, b"c").expect(rt, "memory");
    Leaf::from_pairs(low, None, None, pairs)
}

/// The pairs of a leaf from place `keep` on, as a leaf.
pub fn upper_half<R: Abort>(rt: &R, leaf: &Leaf, keep: usize) -> Result<Leaf, Memory> {
    assert!(rt; keep < leaf.pairs().len());
    leaf.upper_half(keep)
}

/// Cuts a leaf in its place.
pub fn cut<R: Abort>(rt: &R, leaf: &mut Leaf, keep: usize) -> Result<Leaf, Memory> {
    assert!(rt; keep < leaf.pairs().len());
    leaf.cut(keep)
}

/// A leaf and the one that begins where it ends, as one.
pub fn joined<R: Abort>(rt: &R, left: &Leaf, right: &Leaf) -> Result<Leaf, Memory> {
    let Some(high) = left.high() else {
        panic!(rt; "the last leaf");
    };
    assert!(rt; *high == *right.low());
    left.joined(right)
}

/// The first inner page over leaves, up to `c`, with page 9 at its right: page 0 from the start on.
pub fn from_start<R: Abort>(rt: &R, alloc: Alloc) -> Inner {
    let (low, least, high) = (
        bw_fixtures::key(alloc, b"").expect(rt, "memory"),
        bw_fixtures::key(alloc, b"").expect(rt, "memory"),
        bw_fixtures::key(alloc, b"c").expect(rt, "memory"),
    );
    let mut children = Children::with_capacity(alloc, 1, 0).expect(rt, "memory");
    children.push(&least, PageId(0)).expect(rt, "the child");
    Inner::from_children(1, low, Some(high), Some(PageId(9)), children)
}

/// The last inner page over leaves: page 1 from `c` on.
pub fn from_c<R: Abort>(rt: &R, alloc: Alloc) -> Inner {
    let (low, sep) = (
        bw_fixtures::key(alloc, b"c").expect(rt, "memory"),
        bw_fixtures::key(alloc, b"c").expect(rt, "memory"),
    );
    let mut children = Children::with_capacity(alloc, 1, 1).expect(rt, "memory");
    children.push(&sep, PageId(1)).expect(rt, "the child");
    Inner::from_children(1, low, None, None, children)
}

/// An inner page and the one that begins where it ends, as one.
pub fn joined_inner<R: Abort>(rt: &R, left: &Inner, right: &Inner) -> Result<Inner, Memory> {
    let Some(high) = left.high() else {
        panic!(rt; "the last page");
    };
    assert!(rt; *high == *right.low());
    assert!(rt; left.level() == right.level());
    left.joined(right)
}

/// The two as one: page 0 from the start on, page 1 from `c` on.
pub fn from_start_and_c<R: Abort>(rt: &R, alloc: Alloc) -> Inner {
    joined_inner(rt, &from_start(rt, alloc), &from_c(rt, alloc)).expect(rt, "memory")
}

/// The last page of a level with one more child.
pub fn with_child<R: Abort>(
    rt: &R,
    inner: &Inner,
    sep: &Key,
    child: PageId,
) -> Result<Inner, Memory> {
    assert!(rt; *sep >= *inner.low());
    let None = inner.high() else {
        panic!(rt; "not the last page");
    };
    inner.with_child(sep, child)
}

// Sees that a separator is in the range of a page.
fn is_inside<R: Abort>(rt: &R, inner: &Inner, sep: &Key)
    ensures { T (is_in_range inner.now.low inner.now.high sep.now) }
{
    assert!(rt; *sep >= *inner.low());
    assert!(rt; inner.past(sep).is_none());
}

/// A page with two more children, whose separators rise, where this growth is refused.
pub fn with_two<R: Abort>(
    rt: &R,
    alloc: Alloc,
    inner: &Inner,
    first: (Key, PageId),
    second: (Key, PageId),
    growth: u64,
) -> Result<Inner, Memory> {
    is_inside(rt, inner, &first.0);
    is_inside(rt, inner, &second.0);
    assert!(rt; first.0 < second.0);
    let entries = [first, second];
    alloc.refuse(growth);
    inner.with_children(&entries)
}

/// Takes a child, which isn't the first one, from a page.
pub fn drop_child<R: Abort>(rt: &R, inner: &mut Inner, sep: &Key) {
    assert!(rt; *sep != *inner.low());
    inner.drop_child(sep);
}

/// The children of a page from place `keep` on, as a page.
pub fn upper_half_inner<R: Abort>(rt: &R, inner: &Inner, keep: usize) -> Result<Inner, Memory> {
    assert!(rt; keep < inner.children().len());
    inner.upper_half(keep)
}

/// Cuts an inner page in its place.
pub fn cut_inner<R: Abort>(rt: &R, inner: &mut Inner, keep: usize) -> Result<Inner, Memory> {
    assert!(rt; keep > 0 && keep < inner.children().len());
    inner.cut(keep)
}

/// The last inner page over leaves: page 0 from the start on, page 5 from a long separator on, page 1 from `c` on.
pub fn three_children<R: Abort>(rt: &R, alloc: Alloc) -> Inner {
    let inner = from_start_and_c(rt, alloc);
    let more = with_child(rt, &inner, &key(rt, alloc, LONG), PageId(5)).expect(rt, "memory");
    assert_equal(rt, more.children().len(), 3);
    more
}

/// The same with eight more children, so that a list of them that grew one by one would grow more than once.
pub fn many_children<R: Abort>(rt: &R, alloc: Alloc) -> Inner {
    let mut inner = three_children(rt, alloc);
    for sep in [b"d", b"e", b"f", b"g", b"h", b"i", b"j", b"k"] {
        inner = with_child(rt, &inner, &key(rt, alloc, sep), PageId(6)).expect(rt, "memory");
    }
    assert_equal(rt, inner.children().len(), 11);
    inner
}

/// Compares the separators and children of a page.
pub fn has_children<R: Abort>(rt: &R, inner: &Inner, wanted: &[(&'static [u8], u32)]) {
    let children = inner.children();
    assert_equal(rt, children.len(), wanted.len());
    for (place, (sep, page)) in wanted.iter().enumerate() {
        assert!(rt; place < children.len());
        assert_equal(rt, children.separator(place), *sep);
        assert_equal(rt, children.child(place).0, *page);
    }
}
