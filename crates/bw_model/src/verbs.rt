// What the operations on one key answer.
ghost use Rattle.std.specs.Prelude.{IfOk};
ghost use Rattle.std.specs.Option.{option_copied};
ghost use Rattle.bw_model.specs.Verbs.{IsReplyTo, IsSwapReply};

use crate::operations::Reply;
use crate::values::Value;
use bw_key::Memory;
use bw_memory::Alloc;

/// What an operation does at its key, where that and the value there tell its reply: whoever keeps it needn't look at the
/// operation again. A swap has none, since its reply is told by the value that it swaps as well, and neither has a scan.
#[derive(Clone, Copy, Debug, PartialEq, Eq)]
pub enum Verb {
    Get,
    Insert,
    Upsert,
    Update,
    Delete,
}

impl Verb {
    /// The reply to an operation that does this, at a key that had the value `before`. `Memory` is answered where a copy of
    /// that value finds none in `alloc`.
    #[inline(always)]
    pub fn reply_at(self, alloc: Alloc, before: Option<&[u8]>) -> Result<Reply, Memory>
        ensures { IfOk result (IsReplyTo self (option_copied before.entry)) }
    {
        let Some(held) = before else {
            return Ok(match self {
                Verb::Insert => Reply::Inserted,
                Verb::Upsert => Reply::New,
                Verb::Get | Verb::Update | Verb::Delete => Reply::Absent,
            });
        };
        let held = Value::from_bytes(alloc, held)?;
        Ok(match self {
            Verb::Get => Reply::Found(held),
            Verb::Insert => Reply::Held(held),
            Verb::Upsert | Verb::Update | Verb::Delete => Reply::Was(held),
        })
    }
}

/// The reply to a swap of the value `old` at a key that had the value `before`. `Memory` is answered where a copy of that
/// value finds none.
pub(crate) fn swap_reply(alloc: Alloc, before: Option<&[u8]>, old: &[u8]) -> Result<Reply, Memory>
    ensures { IfOk result (IsSwapReply old.now (option_copied before.entry)) }
{
    let Some(held) = before else {
        return Ok(Reply::Absent);
    };
    let held = Value::from_bytes(alloc, held)?;
    if held.bytes() == old {
        Ok(Reply::Was(held))
    } else {
        Ok(Reply::Held(held))
    }
}
