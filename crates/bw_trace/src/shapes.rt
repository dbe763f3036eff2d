// The list of pages.
ghost use Rattle.std.specs.Prelude.{◌≡◌, ◌++◌, ◌∷◌, IfOk, OnOk};
ghost use Rattle.std.specs.Fmt.{decimal};
ghost use Rattle.bw_trace.specs.ShapeTexts.{range_text, leaf_text, inner_text, page_text, shape_text};

use bw_batch::{Memory, PageShape};
use bw_memory::Alloc;
use bw_text::{push_high, push_number, push_spelled};

/// A line for each page.
pub(crate) fn shape_text(alloc: Alloc, pages: &[PageShape]) -> Result<Vec<u8, Alloc>, Memory>
    ensures { IfOk result (λ text. text.items ≡ shape_text pages.now) }
{
    let mut text = Vec::new(alloc);
    for page in pages {
        push_page(&mut text, page)?;
    }
    Ok(text)
}

fn push_page(text: &mut Vec<u8, Alloc>, page: &PageShape) -> Result<(), Memory>
    ensures { OnOk result (text.new.items ≡ text.old.items ++ page_text page.now) }
{
    if page.level == 0 {
        push_leaf(text, page)
    } else {
        push_inner(text, page)
    }
}

fn push_leaf(text: &mut Vec<u8, Alloc>, page: &PageShape) -> Result<(), Memory>
    ensures { OnOk result (text.new.items ≡ text.old.items ++ leaf_text page.now) }
{
    text.extend_from_slice(b"leaf ")?;
    push_range(text, page)?;
    push_count(text, page.pairs)?;
    push_count(text, page.writes)?;
    text.push(b'\n')?;
    Ok(())
}

fn push_inner(text: &mut Vec<u8, Alloc>, page: &PageShape) -> Result<(), Memory>
    ensures { OnOk result (text.new.items ≡ text.old.items ++ inner_text page.now) }
{
    text.extend_from_slice(b"inner ")?;
    push_number(text, u64::from(page.level))?;
    text.push(b' ')?;
    push_range(text, page)?;
    let children = page.pairs;
    push_count(text, children)?;
    text.push(b'\n')?;
    Ok(())
}

fn push_range(text: &mut Vec<u8, Alloc>, page: &PageShape) -> Result<(), Memory>
    ensures { OnOk result (text.new.items ≡ text.old.items ++ range_text page.now) }
{
    push_spelled(text, page.low.bytes())?;
    text.push(b' ')?;
    push_high(text, page.high.as_ref())
}

// A space and a number.
fn push_count(text: &mut Vec<u8, Alloc>, count: usize) -> Result<(), Memory>
    ensures { OnOk result (text.new.items ≡ text.old.items ++ 32 ∷ decimal count) }
{
    text.push(b' ')?;
    push_number(text, count as u64)
}
