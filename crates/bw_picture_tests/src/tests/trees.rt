// Pictures of trees.
use super::making::{Row, drawn};
use super::tags::are_closed;
use crate::tests::assertions::{assert_equal, assert_that};
use bw_fixtures::{heap, three_leaves};
use bw_memory::Alloc;
use bw_picture::picture;
use bw_tree::Tree;
use std::process::Abort;

// Three leaves and their root, as `Tree::shape` lists them.
const LISTED: &[Row] = &[
    (0, 0, b"", Some(b"c"), 2, 0),
    (1, 0, b"c", Some(b"e"), 1, 0),
    (2, 0, b"e", None, 1, 0),
    (3, 1, b"", None, 3, 0),
];

// The pages of two rows above the leaves stand where their ranges begin.
const FOUR_LEVELS: &[Row] = &[
    (0, 0, b"", Some(b"c"), 2, 0),
    (1, 0, b"c", Some(b"e"), 1, 0),
    (2, 0, b"e", None, 1, 0),
    (3, 1, b"", Some(b"e"), 2, 0),
    (4, 1, b"e", None, 1, 0),
    (5, 2, b"", None, 2, 0),
    (6, 3, b"", None, 1, 0),
];

fn picture_of<R: Abort>(rt: &R, alloc: Alloc, tree: &Tree) -> Vec<u8, Alloc> {
    let pages = tree.shape().expect(rt, "the pages");
    picture(alloc, &pages, 4).expect(rt, "the picture")
}

#[test]
fn a_tree_is_drawn_as_its_list(rt: HostRuntime) {
    let alloc = heap(rt.alloc()).expect(&rt, "memory");
    let leaves = three_leaves(alloc, b"1").expect(&rt, "the leaves");
    let tree = Tree::from_level(alloc, leaves).expect(&rt, "a tree");
    assert_equal(
        &rt,
        picture_of(&rt, alloc, &tree),
        drawn(&rt, alloc, LISTED),
    );
}

#[test]
fn inner_pages_stand_above_their_leaves(rt: HostRuntime) {
    let alloc = heap(rt.alloc()).expect(&rt, "memory");
    let text = drawn(&rt, alloc, FOUR_LEVELS);
    assert_that(&rt, are_closed(&text));
    let text = String::from_utf8(text).expect(&rt, "a text");
    assert_that(
        &rt,
        text.as_str().contains("<g transform=\"translate(420 344)\">\n<title>inner page 4,"),
    );
}
