// Keys, values and pairs from bytes.
ghost use Rattle.std.specs.Prelude.{◌≡◌, ◌≤◌, ◌++◌, [], ◌∷◌, length, IfOk, IsOk, OnOk};

use bw_key::{Key, Memory};
use bw_memory::Alloc;
use bw_model::{Pairs, Run, Value};

/// Longer than a key or a value that takes no memory.
pub const LONG: &[u8] = b"a text of more than 24 bytes";

/// The key of these bytes. More than 24 of them take one growth, and `Memory` is answered where that is refused; and
/// for more than 64, of which there is no key.
pub fn key(alloc: Alloc, bytes: &[u8]) -> Result<Key, Memory>
    ensures ok { IfOk result (λ key. key ≡ bytes.now) }
    ensures short { length bytes.now ≤ 24 → IsOk result }
{
    Key::new(alloc, bytes).map_err(|_| Memory)
}

/// The value of these bytes. More than 24 of them take one growth, and `Memory` is answered where that is refused; and
/// for more than 1,024, of which there is no value.
pub fn value(alloc: Alloc, bytes: &[u8]) -> Result<Value, Memory>
    ensures ok { IfOk result (λ value. value ≡ bytes.now) }
    ensures short { length bytes.now ≤ 24 → IsOk result }
{
    Value::new(alloc, bytes).map_err(|_| Memory)
}

/// A key and its value, each as by `key` and `value`.
pub fn pair(alloc: Alloc, at: &[u8], bytes: &[u8]) -> Result<(Key, Value), Memory>
    ensures key { IfOk result (λ pair. pair.0 ≡ at.now) }
    ensures value { IfOk result (λ pair. pair.1 ≡ bytes.now) }
{
    let key = key(alloc, at)?;
    Ok((key, value(alloc, bytes)?))
}

/// A list of one pair. It takes two growths, and answers `Memory` where one is refused.
pub fn one(alloc: Alloc, pair: (Key, Value)) -> Result<Pairs, Memory>
    ensures { IfOk result (λ pairs. pairs ≡ pair ∷ []) }
{
    let mut pairs = Pairs::new(alloc);
    push(&mut pairs, &pair)?;
    Ok(pairs)
}

/// A list of two pairs. Short ones take two growths; it answers `Memory` where one is refused.
pub fn two(alloc: Alloc, first: (Key, Value), second: (Key, Value)) -> Result<Pairs, Memory>
    ensures { IfOk result (λ pairs. pairs ≡ first ∷ second ∷ []) }
{
    let mut pairs = one(alloc, first)?;
    push(&mut pairs, &second)?;
    Ok(pairs)
}

/// A list of these pairs. It answers `Memory` where a growth is refused.
pub fn pairs_of(alloc: Alloc, pairs: &[(Key, Value)]) -> Result<Pairs, Memory> {
    let mut packed = Pairs::new(alloc);
    for pair in pairs {
        push(&mut packed, pair)?;
    }
    Ok(packed)
}

fn push(pairs: &mut Pairs, pair: &(Key, Value)) -> Result<(), Memory>
    ensures { OnOk result (pairs.new ≡ pairs.old ++ pair.now ∷ []) }
{
    pairs.push(pair.0.bytes(), pair.1.bytes())
}

/// Whether pairs have these bytes.
pub fn are(pairs: &Pairs, wanted: &[(&'static [u8], &'static [u8])]) -> bool {
    is_run_of(&pairs.all(), wanted)
}

/// Whether the pairs of a run have these bytes.
pub fn is_run_of(run: &Run<'_>, wanted: &[(&'static [u8], &'static [u8])]) -> bool {
    if run.len() != wanted.len() {
        return false;
    }
    for (place, (key, value)) in wanted.iter().enumerate() {
        if run.key_at(place) != *key || run.value_at(place) != *value {
            return false;
        }
    }
    true
}
