// Answers, and replies to whose places they are put.
ghost use Rattle.std.specs.Prelude.{◌≡◌, flat_map, replicate, IfOk};
ghost use Rattle.bw_model.specs.declared.operations.Reply.TheVariants.{Absent};
ghost use Rattle.bw_answer.specs.Sections.{with_answers_from, ArePlacesFrom};

use crate::batch_reader::Answer;
use bw_key::Memory;
use bw_memory::Alloc;
use bw_model::Reply;
use std::mem;

/// So many replies in whose places those of the batch are to be put.
pub(crate) fn absent_replies(alloc: Alloc, len: usize) -> Result<Vec<Reply, Alloc>, Memory>
    ensures { IfOk result (λ replies. replies.items ≡ replicate len Absent) }
{
    let mut replies = Vec::with_capacity(alloc, len)?;
    for _ in 0..len {
        replies.push(Reply::Absent)?;
    }
    Ok(replies)
}

/// Puts the answers of lists at their places, of one list after another. `start` is the place of the first reply.
pub(crate) fn place_lists(
    start: usize,
    lists: Vec<Vec<Answer, Alloc>, Alloc>,
    replies: &mut [Reply],
)
    requires { ArePlacesFrom start replies.old (flat_map (λ list. list.items) lists.items) }
    ensures { replies.new ≡ with_answers_from start replies.old (flat_map (λ list. list.items) lists.entry.items) }
{
    for list in lists {
        place_answers(start, list, replies);
    }
}

/// Puts answers at their places. `start` is the place of the first reply. What stood there is let go without a look: it is
/// `Absent`, which has no memory, and the stores of further answers don't wait for it.
pub(crate) fn place_answers(start: usize, answers: Vec<Answer, Alloc>, replies: &mut [Reply])
    requires { ArePlacesFrom start replies.old answers.items }
    ensures { replies.new ≡ with_answers_from start replies.old answers.entry.items }
{
    for answer in answers {
        let Answer { place, reply } = answer;
        mem::forget(mem::replace(&mut replies[place - start], reply));
    }
}
