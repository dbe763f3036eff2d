// The printed texts.
ghost use Rattle.std.specs.Prelude.{◌≡◌, ◌++◌, IfOk, OnOk, IfErr, IsErrOf};
ghost use Rattle.std.specs.Fmt.{decimal};
ghost use Rattle.std.specs.Io.KnownBytes.{Appends};
ghost use Rattle.bw_text.specs.Counts.{HasRisenBy};
ghost use Rattle.bw_text.specs.Faults.{IsOfWriting};
ghost use Rattle.bw_text.specs.Texts.{line, pair_text, pairs_text, reply_text, replies_text, refusal_text, contents_text};
ghost use Rattle.bw_text.specs.Spelling.{spelled};
ghost use Rattle.bw_text.specs.Writing.{TakesFront};

use crate::faults::TraceFault;
use crate::ports::Outlet;
use crate::spelling::push_spelled;
use bw_key::Memory;
use bw_memory::Alloc;
use bw_model::{Pairs, Refusal, Reply, Value};

// A text is handed on once it has this many bytes.
const TEXT_CHUNK: usize = 8192;

/// Prints the replies: a line for each, and a line more for each pair of a scan.
///
/// `Memory` and `Write` are its faults. After `Memory` a front of the text was written; after `Write` nothing is
/// known of how much was.
pub fn print_replies<W: Outlet>(
    alloc: Alloc,
    out: &mut W,
    replies: &[Reply],
) -> Result<(), TraceFault>
    ensures ok { OnOk result (Appends (W.contents out.old) (W.contents out.new) (replies_text replies.now)) }
    ensures none_failed { OnOk result (W.failures out.new ≡ W.failures out.old) }
    ensures memory { IsErrOf result TraceFault.Memory →
        TakesFront (W.contents out.old) (W.contents out.new) (replies_text replies.now) }
    ensures write { IsErrOf result TraceFault.Write → HasRisenBy 1 (W.failures out.old) (W.failures out.new) }
    ensures faults { IfErr result (λ fault. IsOfWriting fault) }
{
    let mut text = Vec::new(alloc);
    for reply in replies {
        push_reply(&mut text, reply)?;
        put_if_full(out, &mut text)?;
    }
    put_text(out, &text)
}

// Hands a text on once it is long.
fn put_if_full<W: Outlet>(out: &mut W, text: &mut Vec<u8, Alloc>) -> Result<(), TraceFault>
    ensures ok { OnOk result ((front : _) × Appends (W.contents out.old) (W.contents out.new) front
        × (text.old.items ≡ front ++ text.new.items)) }
    ensures none_failed { OnOk result (W.failures out.new ≡ W.failures out.old) }
    ensures write { IfErr result (λ fault. (fault ≡ TraceFault.Write)
        × HasRisenBy 1 (W.failures out.old) (W.failures out.new)) }
{
    if text.len() >= TEXT_CHUNK {
        put_text(out, text)?;
        text.clear();
    }
    Ok(())
}

/// Writes a text. `Write` is its fault, after which nothing is known of how much was written.
pub fn put_text<W: Outlet>(out: &mut W, text: &[u8]) -> Result<(), TraceFault>
    ensures ok { OnOk result (Appends (W.contents out.old) (W.contents out.new) text.now) }
    ensures none_failed { OnOk result (W.failures out.new ≡ W.failures out.old) }
    ensures write { IfErr result (λ fault. (fault ≡ TraceFault.Write)
        × HasRisenBy 1 (W.failures out.old) (W.failures out.new)) }
{
    match out.put(text) {
        Ok(()) => Ok(()),
        Err(_) => Err(TraceFault::Write),
    }
}

fn push_reply(text: &mut Vec<u8, Alloc>, reply: &Reply) -> Result<(), Memory>
    ensures { OnOk result (text.new.items ≡ text.old.items ++ reply_text reply.now) }
{
    match reply {
        Reply::Found(value) => push_value_line(text, b"is ", value),
        Reply::Absent => Ok(text.extend_from_slice(b"none\n")?),
        Reply::Inserted => Ok(text.extend_from_slice(b"inserted\n")?),
        Reply::Held(value) => push_value_line(text, b"held ", value),
        Reply::New => Ok(text.extend_from_slice(b"new\n")?),
        Reply::Was(value) => push_value_line(text, b"was ", value),
        Reply::Pairs(pairs) => push_pairs(text, b"scan ", pairs),
    }
}

fn push_value_line(text: &mut Vec<u8, Alloc>, word: &[u8], value: &Value) -> Result<(), Memory>
    ensures { OnOk result (text.new.items ≡ text.old.items ++ line (word.now ++ spelled value.now)) }
{
    text.extend_from_slice(word)?;
    push_spelled(text, value.bytes())?;
    text.push(b'\n')?;
    Ok(())
}

fn push_pairs(text: &mut Vec<u8, Alloc>, word: &[u8], pairs: &Pairs) -> Result<(), Memory>
    ensures { OnOk result (text.new.items ≡ text.old.items ++ pairs_text word.now pairs.now) }
{
    text.extend_from_slice(word)?;
    push_number(text, pairs.len() as u64)?;
    text.push(b'\n')?;
    for place in 0..pairs.len() {
        push_pair(text, pairs.key_at(place), pairs.value_at(place))?;
    }
    Ok(())
}

fn push_pair(text: &mut Vec<u8, Alloc>, key: &[u8], value: &[u8]) -> Result<(), Memory>
    ensures { OnOk result (text.new.items ≡ text.old.items ++ pair_text (key.now, value.now)) }
{
    push_spelled(text, key)?;
    text.push(b' ')?;
    push_spelled(text, value)?;
    text.push(b'\n')?;
    Ok(())
}

/// Puts a number behind a text. `Memory` is answered where the text or the digits find none.
pub fn push_number(text: &mut Vec<u8, Alloc>, number: u64) -> Result<(), Memory>
    ensures { OnOk result (text.new.items ≡ text.old.items ++ decimal number) }
{
    let digits = format!(in *text.allocator(); "{number}")?;
    text.extend_from_slice(digits.as_bytes())?;
    Ok(())
}

/// How many pairs there are, and a line for each. `Memory` is answered where the text finds none.
pub fn contents_text(alloc: Alloc, pairs: &Pairs) -> Result<Vec<u8, Alloc>, Memory>
    ensures { IfOk result (λ text. text.items ≡ contents_text pairs.now) }
{
    let mut text = Vec::new(alloc);
    push_pairs(&mut text, b"contents ", pairs)?;
    Ok(text)
}

/// Prints the line of a refused batch. Its faults are those of `print_replies`.
pub fn print_refusal<W: Outlet>(
    alloc: Alloc,
    out: &mut W,
    refusal: &Refusal,
) -> Result<(), TraceFault>
    ensures ok { OnOk result (Appends (W.contents out.old) (W.contents out.new) (refusal_text refusal.now)) }
    ensures none_failed { OnOk result (W.failures out.new ≡ W.failures out.old) }
    ensures memory { IsErrOf result TraceFault.Memory →
        TakesFront (W.contents out.old) (W.contents out.new) (refusal_text refusal.now) }
    ensures write { IsErrOf result TraceFault.Write → HasRisenBy 1 (W.failures out.old) (W.failures out.new) }
    ensures faults { IfErr result (λ fault. IsOfWriting fault) }
{
    let mut text = Vec::new(alloc);
    push_refusal(&mut text, refusal)?;
    put_text(out, &text)
}

fn push_refusal(text: &mut Vec<u8, Alloc>, refusal: &Refusal) -> Result<(), Memory>
    ensures { OnOk result (text.new.items ≡ text.old.items ++ refusal_text refusal.now) }
{
    match refusal {
        Refusal::TooLong { ops, most } => {
            text.extend_from_slice(b"refused long ")?;
            push_number(text, *ops)?;
            text.push(b' ')?;
            push_number(text, *most)?;
            text.push(b'\n')?;
        }
        Refusal::Memory => text.extend_from_slice(b"refused memory\n")?,
    }
    Ok(())
}
