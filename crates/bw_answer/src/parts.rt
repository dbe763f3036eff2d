// The parts into which the points and the scans of a batch are cut, one for each task.
ghost use Rattle.std.specs.Prelude.{◌≡◌, ℕ, ◌+◌, ◌*◌, ◌<◌, ◌≤◌, ◌⊎◌, length, max, min, IfOk};
ghost use Rattle.std.specs.List.{AllByRecursion};
ghost use Rattle.bw_answer.specs.Parts.{Cover, HasShares, IsPartOf, IsSpanOf};

use bw_key::Memory;
use bw_memory::Alloc;

// How many points are worth a thread: at some 200 nanoseconds each they take several times as long as its start.
const LEAST_POINTS: usize = 1024;

// How many scans are worth a thread. Each goes down the tree and copies pairs, so fewer of them are enough.
const LEAST_SCANS: usize = 64;

/// The elements of a list from one place on and before another.
#[derive(Clone, Copy)]
pub(crate) struct Span {
    pub(crate) start: usize,
    pub(crate) end: usize,
}

/// What one task answers: some of the points of a batch, and some of its scans.
#[derive(Clone, Copy)]
pub(crate) struct Part {
    pub(crate) points: Span,
    pub(crate) scans: Span,
}

/// Into how many parts `replies` cuts a batch of so many operations on one key each and so many scans: one for each
/// worker, and fewer where they aren't worth a thread each. That takes 1,024 operations, or 64 scans, for each part.
pub fn count_parts(points: usize, scans: usize, workers: u64) -> usize
    ensures some { 0 < result }
    ensures workers { result ≤ max 1 workers }
    ensures worth { 1 < result → (result * 1024 ≤ points) ⊎ (result * 64 ≤ scans) }
    ensures most { (n : ℕ) → n ≤ workers → (n * 1024 ≤ points) ⊎ (n * 64 ≤ scans) → n ≤ result }
{
    let most = (points / LEAST_POINTS).max(scans / LEAST_SCANS) as u64;
    most.min(workers).max(1) as usize
}

/// Cuts so many points and scans into at most `count` parts, alike in length.
pub(crate) fn parts(
    alloc: Alloc,
    points: usize,
    scans: usize,
    count: usize,
) -> Result<Vec<Part, Alloc>, Memory>
    requires { 0 < count }
    ensures within { IfOk result (λ parts. AllByRecursion (IsPartOf points scans) parts.items) }
    ensures few { IfOk result (λ parts. length parts.items ≤ count) }
    ensures shares { IfOk result (λ parts. AllByRecursion (HasShares count points scans) parts.items) }
    ensures points { IfOk result (λ parts. Cover (λ part. part.points) points parts.items) }
    ensures scans { IfOk result (λ parts. Cover (λ part. part.scans) scans parts.items) }
{
    let most_points = points.div_ceil(count).max(1);
    let most_scans = scans.div_ceil(count).max(1);
    let mut parts = Vec::new(alloc);
    let mut points_cut = 0;
    let mut scans_cut = 0;
    while points_cut < points || scans_cut < scans {
        let part = Part {
            points: next_span(points_cut, most_points, points),
            scans: next_span(scans_cut, most_scans, scans),
        };
        points_cut = part.points.end;
        scans_cut = part.scans.end;
        parts.push(part)?;
    }
    Ok(parts)
}

// The next span of a list of this length, which has at most so many elements.
fn next_span(start: usize, most: usize, len: usize) -> Span
    requires most { 0 < most }
    requires start { start ≤ len }
    ensures start { result.start ≡ start }
    ensures end { result.end ≡ min (start + most) len }
    ensures within { IsSpanOf len result }
    ensures more { start < len → start < result.end }
{
    let end = start + most.min(len - start);
    Span { start, end }
}
