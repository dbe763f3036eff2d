// How many keys an index has.
ghost use Rattle.std.specs.Prelude.{◌≡◌, ◌<◌, ◌+◌, ◌^◌, false, [], ◌∷◌, length, IfOk};
ghost use Rattle.std.specs.List.{list_any};
ghost use Rattle.bw_delta.specs.Batches.{writes_of};
ghost use Rattle.bw_look.specs.View.{contents_at};
ghost use Rattle.bw_group.specs.Points.{is_delete};
ghost use Rattle.bw_batch.specs.Lens.{IsLenAfter, key_count, leaf_pairs, len_behind, len_without};

use bw_key::Memory;
use bw_model::{Op, Reply};
use bw_tree::{PageShape, Tree};

/// How many pairs a tree has, as many as its leaves. It costs what the tree's `shape` does.
pub(crate) fn count_pairs(tree: &Tree) -> Result<u64, Memory>
    ensures { IfOk result (λ count. count ≡ key_count (contents_at tree.now tree.now.next)) }
{
    tree.know_levels();
    let shape = tree.shape()?;
    count_leaf_pairs(&shape)
}

// How many pairs the leaves have that are among these pages.
fn count_leaf_pairs(pages: &[PageShape]) -> Result<u64, Memory>
    ensures { IfOk result (λ count. count ≡ leaf_pairs pages.now) }
{
    let mut count = 0;
    for page in pages {
        count = with_leaf_pairs(count, page)?;
    }
    Ok(count)
}

// The same with those of one page more.
fn with_leaf_pairs(count: u64, page: &PageShape) -> Result<u64, Memory>
    ensures { IfOk result (λ sum. sum ≡ count + leaf_pairs (page.now ∷ [])) }
{
    if page.level == 0 {
        count.checked_add(page.pairs as u64).ok_or(Memory)
    } else {
        Ok(count)
    }
}

/// How many keys there are behind a batch where there were `len` before it, by the replies to its operations. So many of
/// these write: where none does, no reply is read. Where none of them is a delete, no operation is read either.
pub(crate) fn len_after(
    len: u64,
    writes: usize,
    deletes: bool,
    ops: &[Op],
    replies: &[Reply],
) -> u64
    requires writes { writes ≡ length (writes_of 0 ops.now) }
    requires deletes { deletes ≡ list_any is_delete ops.now }
    requires alike { length replies.now ≡ length ops.now }
    requires fits { len + length ops.now < 2 ^ 64 }
    ensures { IsLenAfter len ops.now replies.now result }
{
    if writes == 0 {
        return len;
    }
    let mut now = len;
    for place in 0..ops.len() {
        now = len_behind(now, deletes, &ops[place], &replies[place]);
    }
    now
}

// The same for one operation, which is read where it may be a delete.
fn len_behind(len: u64, deletes: bool, op: &Op, reply: &Reply) -> u64
    requires fits { len + 1 < 2 ^ 64 }
    requires none { deletes ≡ false → is_delete op.now ≡ false }
    ensures { result ≡ len_behind len op.now reply.now }
{
    match reply {
        Reply::Inserted | Reply::New => len + 1,
        Reply::Was(_) if deletes => len_without(len, op),
        _ => len,
    }
}

// The same for one that took a key's value or replaced it. A key that was removed was counted.
fn len_without(len: u64, op: &Op) -> u64
    ensures { result ≡ len_without len op.now }
{
    match op {
        Op::Delete(_) => len.saturating_sub(1),
        _ => len,
    }
}
