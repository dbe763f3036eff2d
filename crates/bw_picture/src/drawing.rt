// The whole picture.
ghost use Rattle.std.specs.Prelude.{◌≡◌, ◌++◌, OnOk, IfOk};
ghost use Rattle.bw_picture.specs.Layout.{first_spot};
ghost use Rattle.bw_picture.specs.Pictures.{place_text, page_text, pages_text, head_text, picture_text};

use crate::drawn_pages::{push_body, push_bracket};
use crate::layout::{
    Frame, Spot, extent_of, first_spot, frame_of, height_of, span_of, spot_of, width_of, x_of, y_of,
};
use bw_key::Memory;
use bw_memory::Alloc;
use bw_tree::PageShape;

/// The picture of a tree with these pages, as `Tree::shape` lists them: a whole SVG text, in ASCII alone.
///
/// A row has the pages of one level, the highest level on top. Leaves stand side by side, and each page above them
/// stands over the first leaf of its range, with a bracket below it over all of these. All pages are as wide as the
/// longest key needs, and the picture as wide as the leaves need. Pages that are no tree's may lie over each other.
///
/// Each page is one group, in their order: a rectangle with its name, its range, and a bar for its pairs or children
/// against `page_max`; where it has writes, a box with their number hangs on it. The group's title says all that in
/// words: "leaf 3, from c to e, 2 pairs, 1 write".
///
/// A key is written as traces spell it: its bytes where it has some and all are letters, digits, `_`, `.` or `-`, and
/// else `%` and two hexadecimal digits for each byte. So no key means anything in XML. `*` is the end of a range that
/// has none.
///
/// It costs a few short growths of memory for each page beside those of the text, and for each row it passes the leaves
/// twice. `Memory` is answered where a growth is refused, and then nothing of the text is left.
pub fn picture(alloc: Alloc, pages: &[PageShape], page_max: u64) -> Result<Vec<u8, Alloc>, Memory>
    ensures { IfOk result (λ text. text.items ≡ picture_text page_max pages.now) }
{
    let extent = extent_of(pages);
    let mut text = Vec::new(alloc);
    push_head(&mut text, width_of(extent), height_of(extent))?;
    text.extend_from_slice(b"<rect width=\"100%\" height=\"100%\" fill=\"#ffffff\"/>\n")?;
    push_pages(&mut text, frame_of(extent, page_max), pages)?;
    text.extend_from_slice(b"</svg>\n")?;
    Ok(text)
}

fn push_head(text: &mut Vec<u8, Alloc>, width: u64, height: u64) -> Result<(), Memory>
    ensures { OnOk result (text.new.items ≡ text.old.items ++ head_text width height) }
{
    let head = format!(in *text.allocator();
        "<svg xmlns=\"http://www.w3.org/2000/svg\" width=\"{width}\" height=\"{height}\""
    )?;
    text.extend_from_slice(head.as_bytes())?;
    text.extend_from_slice(b" font-family=\"monospace\" font-size=\"12\">\n")?;
    Ok(())
}

fn push_pages(text: &mut Vec<u8, Alloc>, frame: Frame, pages: &[PageShape]) -> Result<(), Memory>
    ensures { OnOk result (text.new.items ≡ text.old.items ++ pages_text frame pages.now first_spot pages.now) }
{
    let mut spot = first_spot();
    for page in pages {
        spot = spot_of(pages, spot, page);
        push_page(text, frame, pages, spot, page)?;
    }
    Ok(())
}

fn push_page(
    text: &mut Vec<u8, Alloc>,
    frame: Frame,
    pages: &[PageShape],
    spot: Spot,
    page: &PageShape,
) -> Result<(), Memory>
    ensures { OnOk result (text.new.items ≡ text.old.items ++ page_text frame pages.now spot page.now) }
{
    let x = x_of(frame.wide, spot.column as u64);
    push_place(text, x, y_of(frame, page.level))?;
    push_body(text, frame.wide, frame.page_max, page)?;
    push_bracket(text, span_of(frame, pages, spot, page), page.level)?;
    text.extend_from_slice(b"</g>\n")?;
    Ok(())
}

fn push_place(text: &mut Vec<u8, Alloc>, x: u64, y: u64) -> Result<(), Memory>
    ensures { OnOk result (text.new.items ≡ text.old.items ++ place_text x y) }
{
    let place = format!(in *text.allocator(); "<g transform=\"translate({x} {y})\">\n")?;
    text.extend_from_slice(place.as_bytes())?;
    Ok(())
}
