// What a line of a trace means.
ghost use Rattle.std.specs.Prelude.{◌≡◌, IfOk, map};
ghost use Rattle.std.specs.Str.Lines.{strip_carriage_return};
ghost use Rattle.bw_text.specs.Grammar.{meaning_of, meaning_of_words, meaning_behind, keyword_of, key_alone, key_and_value, key_and_values, range_of, go_of, heading_of, words_of};
ghost use Rattle.bw_text.specs.Misreads.{Says};

use crate::faults::Cause;
use crate::line_words::{Misread, end_in, key_in, number_in, value_in};
use crate::places::{Place, Version};
use bw_key::{Key, Memory};
use bw_memory::Alloc;
use bw_model::{Op, Value};

/// What a line stands for.
#[derive(Drop)]
pub(crate) enum Meaning {
    /// A blank line or a comment.
    Nothing,
    /// An operation of the batch.
    Operation(Op),
    /// The end of the batch.
    EndsBatch,
    /// What follows is of version 2.
    StartsVersion2,
    /// No line of a trace.
    Faulty(Cause),
}

/// The first word of a line.
#[derive(Clone, Copy)]
pub(crate) enum Keyword {
    Get,
    Insert,
    Upsert,
    Update,
    Delete,
    SwapIf,
    Scan,
    Rscan,
    Go,
    Bw,
}

/// The most bytes of a line, without the byte that ends it.
pub(crate) const LINE_MAX: usize = 8192;

/// What the line at a place means. `Memory` says that it was not parsed.
pub(crate) fn parse_line(alloc: Alloc, place: Place, line: &[u8]) -> Result<Meaning, Memory>
    ensures { IfOk result (λ meaning. meaning ≡ meaning_of place line.now) }
{
    if line.len() > LINE_MAX {
        return Ok(Meaning::Faulty(Cause::LongLine));
    }
    let words = words_in(alloc, without_return(line))?;
    match parse_words(alloc, place, words.as_slice()) {
        Ok(meaning) => Ok(meaning),
        Err(Misread::Faulty(cause)) => Ok(Meaning::Faulty(cause)),
        Err(Misread::Memory) => Err(Memory),
    }
}

// A line without a byte 13 at its end.
fn without_return(line: &[u8]) -> &[u8]
    ensures { result.now ≡ strip_carriage_return line.now }
{
    match line {
        [front @ .., 13] => front,
        _ => line,
    }
}

fn words_in(alloc: Alloc, line: &[u8]) -> Result<Vec<&[u8], Alloc>, Memory>
    ensures { IfOk result (λ words. map (λ w. w.now) words.items ≡ words_of line.now) }
{
    let words = line
        .split(|b| *b == b' ')
        .filter(|w| !w.is_empty())
        .collect(alloc)?;
    Ok(words)
}

fn parse_words(alloc: Alloc, place: Place, words: &[&[u8]]) -> Result<Meaning, Misread>
    ensures { Says result (meaning_of_words place (map (λ w. w.now) words.now)) }
{
    let [first, rest @ ..] = words else {
        return Ok(Meaning::Nothing);
    };
    if let [b'#', ..] = first {
        return Ok(Meaning::Nothing);
    }
    match keyword_in(first) {
        Some(keyword) => parse_behind(alloc, place, keyword, rest),
        None => Err(Misread::Faulty(Cause::Verb)),
    }
}

fn keyword_in(word: &[u8]) -> Option<Keyword>
    ensures { result ≡ keyword_of word.now }
{
    if word == b"get".as_slice() {
        Some(Keyword::Get)
    } else if word == b"insert".as_slice() {
        Some(Keyword::Insert)
    } else if word == b"upsert".as_slice() {
        Some(Keyword::Upsert)
    } else if word == b"update".as_slice() {
        Some(Keyword::Update)
    } else if word == b"delete".as_slice() {
        Some(Keyword::Delete)
    } else if word == b"swapif".as_slice() {
        Some(Keyword::SwapIf)
    } else if word == b"scan".as_slice() {
        Some(Keyword::Scan)
    } else if word == b"rscan".as_slice() {
        Some(Keyword::Rscan)
    } else if word == b"go".as_slice() {
        Some(Keyword::Go)
    } else if word == b"bw".as_slice() {
        Some(Keyword::Bw)
    } else {
        None
    }
}

// The words behind a keyword.
fn parse_behind(
    alloc: Alloc,
    place: Place,
    keyword: Keyword,
    rest: &[&[u8]],
) -> Result<Meaning, Misread>
    ensures { Says result (meaning_behind place (Some keyword) (map (λ w. w.now) rest.now)) }
{
    match keyword {
        Keyword::Go => parse_go(rest),
        Keyword::Bw => parse_heading(place, rest),
        Keyword::Get => Ok(Meaning::Operation(Op::Get(one_key(alloc, rest)?))),
        Keyword::Delete => Ok(Meaning::Operation(Op::Delete(one_key(alloc, rest)?))),
        Keyword::Insert => {
            let (key, value) = key_with_value(alloc, place.version, rest)?;
            Ok(Meaning::Operation(Op::Insert(key, value)))
        }
        Keyword::Upsert => {
            let (key, value) = key_with_value(alloc, place.version, rest)?;
            Ok(Meaning::Operation(Op::Upsert(key, value)))
        }
        Keyword::Update => {
            let (key, value) = key_with_value(alloc, place.version, rest)?;
            Ok(Meaning::Operation(Op::Update(key, value)))
        }
        Keyword::SwapIf => {
            let (key, old, new) = key_with_values(alloc, place.version, rest)?;
            Ok(Meaning::Operation(Op::SwapIf(key, old, new)))
        }
        Keyword::Scan => {
            let (from, to, most) = range_in(alloc, rest)?;
            Ok(Meaning::Operation(Op::Scan { from, to, most }))
        }
        Keyword::Rscan => {
            let (from, to, most) = range_in(alloc, rest)?;
            Ok(Meaning::Operation(Op::Rscan { from, to, most }))
        }
    }
}

// `K`
fn one_key(alloc: Alloc, words: &[&[u8]]) -> Result<Key, Misread>
    ensures { Says result (key_alone (map (λ w. w.now) words.now)) }
{
    match words {
        [key] => key_in(alloc, key),
        _ => Err(Misread::Faulty(Cause::Words)),
    }
}

// `K V`
fn key_with_value(alloc: Alloc, version: Version, words: &[&[u8]]) -> Result<(Key, Value), Misread>
    ensures { Says result (key_and_value version (map (λ w. w.now) words.now)) }
{
    let [key, value] = words else {
        return Err(Misread::Faulty(Cause::Words));
    };
    let key = key_in(alloc, key)?;
    let value = value_in(alloc, version, value)?;
    Ok((key, value))
}

// `K V V`
fn key_with_values(
    alloc: Alloc,
    version: Version,
    words: &[&[u8]],
) -> Result<(Key, Value, Value), Misread>
    ensures { Says result (key_and_values version (map (λ w. w.now) words.now)) }
{
    let [key, old, new] = words else {
        return Err(Misread::Faulty(Cause::Words));
    };
    let key = key_in(alloc, key)?;
    let old = value_in(alloc, version, old)?;
    let new = value_in(alloc, version, new)?;
    Ok((key, old, new))
}

// `K T N`
fn range_in(alloc: Alloc, words: &[&[u8]]) -> Result<(Key, Option<Key>, u64), Misread>
    ensures { Says result (range_of (map (λ w. w.now) words.now)) }
{
    let [from, to, most] = words else {
        return Err(Misread::Faulty(Cause::Words));
    };
    let from = key_in(alloc, from)?;
    let to = end_in(alloc, to)?;
    let most = number_in(most)?;
    Ok((from, to, most))
}

fn parse_go(rest: &[&[u8]]) -> Result<Meaning, Misread>
    ensures { Says result (go_of (map (λ w. w.now) rest.now)) }
{
    match rest {
        [] => Ok(Meaning::EndsBatch),
        _ => Err(Misread::Faulty(Cause::Words)),
    }
}

// What stands behind `bw`.
fn parse_heading(place: Place, rest: &[&[u8]]) -> Result<Meaning, Misread>
    ensures { Says result (heading_of place (map (λ w. w.now) rest.now)) }
{
    match rest {
        [version] if place.lines == 0 && *version == b"2".as_slice() => Ok(Meaning::StartsVersion2),
        _ => Err(Misread::Faulty(Cause::Verb)),
    }
}
