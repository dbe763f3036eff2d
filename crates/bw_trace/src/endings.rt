// What jobs print at the end.
ghost use Rattle.std.specs.Prelude.{IfOk};
ghost use Rattle.bw_batch.specs.View.{contents_of};
ghost use Rattle.bw_trace.specs.Ends.{IsEndText};

use crate::jobs::Job;
use crate::shapes::shape_text;
use bw_batch::{Index, Memory};
use bw_memory::Alloc;
use bw_picture::picture;
use bw_text::contents_text;

/// The text that a job prints at the end, where a page may have so many entries: it is made whole before any of it is
/// written.
pub(crate) fn end_text(
    alloc: Alloc,
    index: &Index,
    page_max: u64,
    job: Job,
) -> Result<Vec<u8, Alloc>, Memory>
    ensures { IfOk result (λ text. IsEndText job page_max (contents_of index.now) text.items) }
{
    match job {
        Job::Run => Ok(Vec::new(alloc)),
        Job::Dump => {
            let pairs = index.contents()?;
            contents_text(alloc, &pairs)
        }
        Job::Shape => {
            let pages = index.shape()?;
            shape_text(alloc, &pages)
        }
        Job::Picture => {
            let pages = index.shape()?;
            picture(alloc, &pages, page_max)
        }
    }
}
