// Where pages stand in a picture.
ghost use Rattle.std.specs.Prelude.{◌≡◌};
ghost use Rattle.std.specs.Option.{option_copied};
ghost use Rattle.bw_picture.specs.Layout.{letters_of, extent_with, extent_behind, no_extent, wide_of, frame_of, x_of, width_of, height_of, y_of, is_leaf_below, column_from, spot_of, first_spot, span_of};

use crate::keys::{end_letters, key_letters};
use bw_key::Key;
use bw_model::is_below;
use bw_tree::PageShape;

// The pixels around the picture, and between the pages of a row.
const MARGIN: u64 = 24;
// The pixels from a row to the next one, with those of a chain.
const ROW: u64 = 160;
// The pixels of a letter, at 12 pixels and a fixed pitch.
const LETTER: u64 = 8;
// The pixels of a bar.
const BAR: u64 = 150;
// Those of a page that are beside its bar, or beside its letters.
const BESIDE: u64 = 24;

/// What pages need. A number that would not fit stays at its most.
#[derive(Clone, Copy)]
pub(crate) struct Extent {
    /// The letters of the longest line that has a key.
    pub letters: u64,
    /// The highest level.
    pub top: u32,
    /// How many leaves there are.
    pub leaves: u64,
}

/// What is the same for all pages of a picture.
#[derive(Clone, Copy)]
pub(crate) struct Frame {
    /// How wide their rectangles are.
    pub wide: u64,
    /// The highest level.
    pub top: u32,
    /// How many entries a page may have.
    pub page_max: u64,
}

/// Where a page stands: its row, and its column among those of the leaves.
#[derive(Clone, Copy)]
pub(crate) struct Spot {
    pub level: u32,
    pub column: usize,
}

/// Before the first page.
pub(crate) fn first_spot() -> Spot
    ensures { result ≡ first_spot }
{
    Spot {
        level: 0,
        column: 0,
    }
}

fn letters_of(page: &PageShape) -> u64
    ensures { result ≡ letters_of page.now }
{
    let low = key_letters(&page.low) + 5;
    let high = end_letters(page.high.as_ref()) + 3;
    low.max(high)
}

fn extent_with(extent: Extent, page: &PageShape) -> Extent
    ensures { result ≡ extent_with extent page.now }
{
    Extent {
        letters: extent.letters.max(letters_of(page)),
        top: extent.top.max(page.level),
        leaves: if page.level == 0 {
            extent.leaves.saturating_add(1)
        } else {
            extent.leaves
        },
    }
}

/// What these pages need.
pub(crate) fn extent_of(pages: &[PageShape]) -> Extent
    ensures { result ≡ extent_behind no_extent pages.now }
{
    let mut extent = Extent {
        letters: 0,
        top: 0,
        leaves: 0,
    };
    for page in pages {
        extent = extent_with(extent, page);
    }
    extent
}

fn wide_of(extent: Extent) -> u64
    ensures { result ≡ wide_of extent }
{
    extent
        .letters
        .saturating_mul(LETTER)
        .max(BAR)
        .saturating_add(BESIDE)
}

/// What is the same for all pages, in a picture of pages that need this.
pub(crate) fn frame_of(extent: Extent, page_max: u64) -> Frame
    ensures { result ≡ frame_of extent page_max }
{
    Frame {
        wide: wide_of(extent),
        top: extent.top,
        page_max,
    }
}

/// Where a column of pages begins.
pub(crate) fn x_of(wide: u64, column: u64) -> u64
    ensures { result ≡ x_of wide column }
{
    column
        .saturating_mul(wide.saturating_add(MARGIN))
        .saturating_add(MARGIN)
}

/// How wide a picture is.
pub(crate) fn width_of(extent: Extent) -> u64
    ensures { result ≡ width_of extent }
{
    x_of(wide_of(extent), extent.leaves)
}

/// How high it is.
pub(crate) fn height_of(extent: Extent) -> u64
    ensures { result ≡ height_of extent }
{
    MARGIN + (u64::from(extent.top) + 1) * ROW
}

/// Where the rectangles of a level begin, from above.
pub(crate) fn y_of(frame: Frame, level: u32) -> u64
    ensures { result ≡ y_of frame level }
{
    MARGIN + u64::from(frame.top.saturating_sub(level)) * ROW
}

fn is_leaf_below(end: Option<&Key>, page: &PageShape) -> bool
    ensures { result ≡ is_leaf_below (option_copied end.entry) page.now }
{
    page.level == 0 && is_below(&page.low, end)
}

// The column of the first leaf from one on that does not begin below an end.
fn column_from(pages: &[PageShape], from: usize, end: Option<&Key>) -> usize
    ensures { result ≡ column_from pages.now from (option_copied end.entry) }
{
    let mut column = from;
    while column < pages.len() && is_leaf_below(end, &pages[column]) {
        column += 1;
    }
    column
}

/// Where a page stands, behind the one before it in a list of all pages.
pub(crate) fn spot_of(pages: &[PageShape], before: Spot, page: &PageShape) -> Spot
    ensures { result ≡ spot_of pages.now before page.now }
{
    let from = if page.level == before.level {
        before.column
    } else {
        0
    };
    Spot {
        level: page.level,
        column: column_from(pages, from, Some(&page.low)),
    }
}

/// How wide the leaves of a page's range are.
pub(crate) fn span_of(frame: Frame, pages: &[PageShape], spot: Spot, page: &PageShape) -> u64
    ensures { result ≡ span_of frame pages.now spot page.now }
{
    let end = column_from(pages, spot.column, page.high.as_ref());
    x_of(frame.wide, end as u64)
        .saturating_sub(x_of(frame.wide, spot.column as u64))
        .saturating_sub(MARGIN)
}
