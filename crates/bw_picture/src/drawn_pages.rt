// How pages are written.
ghost use Rattle.std.specs.Prelude.{◌≡◌, ◌++◌, OnOk};
ghost use Rattle.bw_picture.specs.DrawnPages.{kind_text, name_text, range_text, count_text, entries_text, writes_text, title_writes_text, title_text, accent_text, pale_text, box_text, lines_text, filled, bar_text, fill_text, hanging_text, chain_text, body_text, span_text, bracket_text};

use bw_key::Memory;
use bw_memory::Alloc;
use bw_text::{push_high, push_number, push_spelled};
use bw_tree::PageShape;

// The pixels of a bar.
const BAR: u128 = 150;

/// Puts behind a text what stands in a page's group, where its rectangle is so many pixels wide.
pub(crate) fn push_body(
    text: &mut Vec<u8, Alloc>,
    wide: u64,
    page_max: u64,
    page: &PageShape,
) -> Result<(), Memory>
    ensures { OnOk result (text.new.items ≡ text.old.items ++ body_text wide page_max page.now) }
{
    push_title(text, page)?;
    push_box(text, wide, page.level)?;
    push_lines(text, page)?;
    push_fill(text, page_max, page)?;
    push_chain(text, page)?;
    Ok(())
}

fn push_title(text: &mut Vec<u8, Alloc>, page: &PageShape) -> Result<(), Memory>
    ensures { OnOk result (text.new.items ≡ text.old.items ++ title_text page.now) }
{
    text.extend_from_slice(b"<title>")?;
    push_name(text, page)?;
    text.extend_from_slice(b", ")?;
    push_range(text, page)?;
    text.extend_from_slice(b", ")?;
    push_entries(text, page)?;
    push_title_writes(text, page)?;
    text.extend_from_slice(b"</title>\n")?;
    Ok(())
}

fn push_name(text: &mut Vec<u8, Alloc>, page: &PageShape) -> Result<(), Memory>
    ensures { OnOk result (text.new.items ≡ text.old.items ++ name_text page.now) }
{
    text.extend_from_slice(kind(page.level))?;
    push_number(text, u64::from(page.page.0))
}

fn kind(level: u32) -> &'static [u8]
    ensures { result.now ≡ kind_text level }
{
    if level == 0 { b"leaf " } else { b"inner page " }
}

fn push_range(text: &mut Vec<u8, Alloc>, page: &PageShape) -> Result<(), Memory>
    ensures { OnOk result (text.new.items ≡ text.old.items ++ range_text page.now) }
{
    text.extend_from_slice(b"from ")?;
    push_spelled(text, page.low.bytes())?;
    text.extend_from_slice(b" to ")?;
    push_high(text, page.high.as_ref())
}

// Puts a number behind a text, and a word for one or for many.
fn push_count(
    text: &mut Vec<u8, Alloc>,
    number: usize,
    one: &[u8],
    many: &[u8],
) -> Result<(), Memory>
    ensures { OnOk result (text.new.items ≡ text.old.items ++ count_text number one.now many.now) }
{
    push_number(text, number as u64)?;
    text.push(b' ')?;
    text.extend_from_slice(if number == 1 { one } else { many })?;
    Ok(())
}

fn push_entries(text: &mut Vec<u8, Alloc>, page: &PageShape) -> Result<(), Memory>
    ensures { OnOk result (text.new.items ≡ text.old.items ++ entries_text page.now) }
{
    if page.level == 0 {
        push_count(text, page.pairs, b"pair", b"pairs")
    } else {
        push_count(text, page.pairs, b"child", b"children")
    }
}

fn push_writes(text: &mut Vec<u8, Alloc>, page: &PageShape) -> Result<(), Memory>
    ensures { OnOk result (text.new.items ≡ text.old.items ++ writes_text page.now) }
{
    push_count(text, page.writes, b"write", b"writes")
}

fn push_title_writes(text: &mut Vec<u8, Alloc>, page: &PageShape) -> Result<(), Memory>
    ensures { OnOk result (text.new.items ≡ text.old.items ++ title_writes_text page.now) }
{
    if page.writes == 0 {
        return Ok(());
    }
    text.extend_from_slice(b", ")?;
    push_writes(text, page)
}

fn accent(level: u32) -> &'static str
    ensures { result.now ≡ accent_text level }
{
    if level == 0 { "#2f6db3" } else { "#b3652f" }
}

fn pale(level: u32) -> &'static str
    ensures { result.now ≡ pale_text level }
{
    if level == 0 { "#eaf2fb" } else { "#fbf0e6" }
}

fn push_box(text: &mut Vec<u8, Alloc>, wide: u64, level: u32) -> Result<(), Memory>
    ensures { OnOk result (text.new.items ≡ text.old.items ++ box_text wide level) }
{
    let (pale, accent) = (pale(level), accent(level));
    let drawn = format!(in *text.allocator();
        "<rect width=\"{wide}\" height=\"100\" rx=\"6\" fill=\"{pale}\" stroke=\"{accent}\"/>\n"
    )?;
    text.extend_from_slice(drawn.as_bytes())?;
    Ok(())
}

fn push_lines(text: &mut Vec<u8, Alloc>, page: &PageShape) -> Result<(), Memory>
    ensures { OnOk result (text.new.items ≡ text.old.items ++ lines_text page.now) }
{
    text.extend_from_slice(b"<text x=\"12\" y=\"22\" font-weight=\"bold\">")?;
    push_name(text, page)?;
    text.extend_from_slice(b"</text>\n<text x=\"12\" y=\"40\">from ")?;
    push_spelled(text, page.low.bytes())?;
    text.extend_from_slice(b"</text>\n<text x=\"12\" y=\"56\">to ")?;
    push_high(text, page.high.as_ref())?;
    text.extend_from_slice(b"</text>\n")?;
    Ok(())
}

// How many pixels of a bar are filled. A page may have more entries than it should.
fn filled(entries: usize, page_max: u64) -> u64
    ensures { result ≡ filled entries page_max }
{
    let part = entries as u128 * BAR / u128::from(page_max.max(1));
    part.min(BAR) as u64
}

fn push_bar(text: &mut Vec<u8, Alloc>, page_max: u64, page: &PageShape) -> Result<(), Memory>
    ensures { OnOk result (text.new.items ≡ text.old.items ++ bar_text page_max page.now) }
{
    text.extend_from_slice(
        b"<rect x=\"12\" y=\"66\" width=\"150\" height=\"8\" fill=\"#d9dfe6\"/>\n",
    )?;
    let (filled, accent) = (filled(page.pairs, page_max), accent(page.level));
    let drawn = format!(in *text.allocator();
        "<rect x=\"12\" y=\"66\" width=\"{filled}\" height=\"8\" fill=\"{accent}\"/>\n"
    )?;
    text.extend_from_slice(drawn.as_bytes())?;
    Ok(())
}

fn push_fill(text: &mut Vec<u8, Alloc>, page_max: u64, page: &PageShape) -> Result<(), Memory>
    ensures { OnOk result (text.new.items ≡ text.old.items ++ fill_text page_max page.now) }
{
    push_bar(text, page_max, page)?;
    text.extend_from_slice(b"<text x=\"12\" y=\"90\">")?;
    push_entries(text, page)?;
    text.extend_from_slice(b" of ")?;
    push_number(text, page_max)?;
    text.extend_from_slice(b"</text>\n")?;
    Ok(())
}

// The writes that hang on a page.
fn push_hanging(text: &mut Vec<u8, Alloc>, page: &PageShape) -> Result<(), Memory>
    ensures { OnOk result (text.new.items ≡ text.old.items ++ hanging_text page.now) }
{
    text.extend_from_slice(b"<path d=\"M32 100v12\" stroke=\"#c0392b\"/>\n")?;
    text.extend_from_slice(
        b"<rect x=\"12\" y=\"112\" width=\"150\" height=\"24\" rx=\"5\" fill=\"#fdeceb\" stroke=\"#c0392b\"/>\n",
    )?;
    text.extend_from_slice(b"<text x=\"20\" y=\"128\">")?;
    push_writes(text, page)?;
    text.extend_from_slice(b"</text>\n")?;
    Ok(())
}

fn push_chain(text: &mut Vec<u8, Alloc>, page: &PageShape) -> Result<(), Memory>
    ensures { OnOk result (text.new.items ≡ text.old.items ++ chain_text page.now) }
{
    if page.writes == 0 {
        return Ok(());
    }
    push_hanging(text, page)
}

/// Puts what spans the leaves of an inner page's range behind a text. They are so wide together.
pub(crate) fn push_bracket(text: &mut Vec<u8, Alloc>, span: u64, level: u32) -> Result<(), Memory>
    ensures { OnOk result (text.new.items ≡ text.old.items ++ bracket_text span level) }
{
    if level == 0 {
        return Ok(());
    }
    push_span(text, span)
}

fn push_span(text: &mut Vec<u8, Alloc>, span: u64) -> Result<(), Memory>
    ensures { OnOk result (text.new.items ≡ text.old.items ++ span_text span) }
{
    text.extend_from_slice(b"<path d=\"M87 100v20M0 128v-8h")?;
    push_number(text, span)?;
    text.extend_from_slice(b"v8\" fill=\"none\" stroke=\"#b3652f\"/>\n")?;
    Ok(())
}
