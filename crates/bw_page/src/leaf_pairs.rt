// The sorted pairs of a leaf: searched by halves, copied by runs, and cut.
ghost use Rattle.std.specs.Prelude.{◌≡◌, ◌≤◌, ◌++◌, drop, filter, length, take, IfOk, OnErr, OnOk, T};
ghost use Rattle.std.specs.FinMap.{find, is_sorted};
ghost use Rattle.std.specs.Option.{option_copied};
ghost use Rattle.bw_key.specs.Order.{key_cmp};
ghost use Rattle.bw_model.specs.Contents.{is_pair_in_range};
ghost use Rattle.bw_model.specs.Sorted.{place_of};
ghost use Rattle.bw_page.specs.Pages.{below};

use bw_key::{Key, Memory};
use bw_memory::Alloc;
use bw_model::{Pairs, Run};

/// How many pairs at the front have a smaller key, in about log2 n key comparisons for n pairs.
pub fn place(pairs: &Run<'_>, key: &[u8]) -> usize
    requires { T (is_sorted key_cmp pairs.now) }
    ensures value { result ≡ place_of key.now pairs.now }
    ensures bound { result ≤ length pairs.now }
{
    pairs.place(key)
}

/// How many pairs at the front have a smaller key, in one key comparison where the key stands at the place `near`, and else
/// in about log2 n and one more.
pub fn place_near(pairs: &Run<'_>, key: &[u8], near: usize) -> usize
    requires { T (is_sorted key_cmp pairs.now) }
    ensures value { result ≡ place_of key.now pairs.now }
    ensures bound { result ≤ length pairs.now }
{
    if near < pairs.len() && pairs.key_at(near) == key {
        return near;
    }
    place(pairs, key)
}

/// The value at a key, and the place where the next higher key stands, if there is one. It costs what `place_near` does, and
/// a comparison.
pub(crate) fn value_near<'a>(pairs: &'a Pairs, key: &Key, near: usize) -> (Option<&'a [u8]>, usize)
    requires { T (is_sorted key_cmp pairs.now) }
    ensures value { option_copied result.0 ≡ find key_cmp key.now pairs.now }
    ensures bound { result.1 ≤ length pairs.now }
{
    let (all, key) = (pairs.all(), key.bytes());
    let at = place_near(&all, key, near);
    if at < all.len() && all.key_at(at) == key {
        (Some(all.value_at(at)), at + 1)
    } else {
        (None, at)
    }
}

/// The pairs from a key on and below an end, in about 2 log2 n key comparisons.
pub(crate) fn between<'a>(pairs: &'a Pairs, low: &Key, high: Option<&Key>) -> Run<'a>
    requires { T (is_sorted key_cmp pairs.now) }
    ensures { result ≡ filter (is_pair_in_range low.now (option_copied high.entry)) pairs.now }
{
    let all = pairs.all();
    let (_front, rest) = all.split_at(place(&all, low.bytes()));
    match high {
        Some(high) => rest.split_at(place(&rest, high.bytes())).0,
        None => rest,
    }
}

/// The pairs of two lists, one behind the other.
pub(crate) fn join(alloc: Alloc, left: &Pairs, right: &Pairs) -> Result<Pairs, Memory>
    ensures { IfOk result (λ all. all ≡ left.now ++ right.now) }
{
    let (left, right) = (left.all(), right.all());
    let bytes = left.byte_count() + right.byte_count();
    let mut all = Pairs::with_capacity(alloc, left.len().saturating_add(right.len()), bytes)?;
    all.extend(&left)?;
    all.extend(&right)?;
    Ok(all)
}

/// Copies the pairs from a place on to a list of their own, and leaves the others. `Memory` is answered where that list finds
/// none, and all is as before. The room that they leave is given back, by growths that may be refused: then it stays.
pub(crate) fn cut(pairs: &mut Pairs, keep: usize) -> Result<Pairs, Memory>
    requires { keep ≤ length pairs.old }
    ensures kept { OnOk result (pairs.new ≡ take keep pairs.old) }
    ensures rest { IfOk result (λ rest. rest ≡ drop keep pairs.old) }
    ensures err { OnErr result (pairs.new ≡ pairs.old) }
{
    let rest = copy_from(pairs, keep)?;
    pairs.truncate(keep);
    pairs.shrink_to_fit();
    Ok(rest)
}

/// The pairs from a place on again.
pub(crate) fn copy_from(pairs: &Pairs, start: usize) -> Result<Pairs, Memory>
    requires { start ≤ length pairs.now }
    ensures { IfOk result (λ copy. copy ≡ drop start pairs.now) }
{
    let (_front, rest) = pairs.all().split_at(start);
    rest.copy(pairs.allocator())
}

/// Lets the pairs go whose keys aren't below the given one, in about log2 n key comparisons.
pub(crate) fn keep_below(pairs: &mut Pairs, key: &Key)
    requires { T (is_sorted key_cmp pairs.old) }
    ensures { pairs.new ≡ below key.now pairs.old }
{
    let end = place(&pairs.all(), key.bytes());
    pairs.truncate(end);
}
