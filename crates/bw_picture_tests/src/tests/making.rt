// Pages from tables, and their pictures as texts.
use bw_fixtures::key;
use bw_memory::Alloc;
use bw_picture::{Memory, PageId, PageShape, picture};
use std::process::Abort;

/// A page: its identifier and level, where its range begins and ends, its pairs or children, and its writes.
pub type Row = (u32, u32, &'static [u8], Option<&'static [u8]>, usize, usize);

/// A leaf with a write, a leaf with none, and the root.
pub const THREE: &[Row] = &[
    (0, 0, b"", Some(b"c"), 2, 1),
    (4, 0, b"c", None, 1, 0),
    (3, 1, b"", None, 2, 0),
];

fn page(alloc: Alloc, row: &Row) -> Result<PageShape, Memory> {
    let low = key(alloc, row.2)?;
    let high = match row.3 {
        Some(bytes) => Some(key(alloc, bytes)?),
        None => None,
    };
    Ok(PageShape {
        page: PageId(row.0),
        level: row.1,
        low,
        high,
        pairs: row.4,
        writes: row.5,
    })
}

/// These pages.
pub fn pages_of(alloc: Alloc, rows: &[Row]) -> Result<Vec<PageShape, Alloc>, Memory> {
    let mut pages = Vec::new(alloc);
    for row in rows {
        pages.push(page(alloc, row)?)?;
    }
    Ok(pages)
}

/// The picture of these pages, of which each may have four entries.
pub fn drawn<R: Abort>(rt: &R, alloc: Alloc, rows: &[Row]) -> Vec<u8, Alloc> {
    let pages = pages_of(alloc, rows).expect(rt, "the pages");
    picture(alloc, &pages, 4).expect(rt, "the picture")
}
