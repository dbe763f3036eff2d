// A reader of bytes, parsed line by line.
ghost use Rattle.std.specs.Prelude.{◌≡◌, ℕ, ◌+◌, ◌-◌, ◌<◌, ◌≤◌, ◌^◌, ◌∷◌, [], List, true, false, IfOk, IfErr, OnOk, IfSome, MatchOption, Some, None, IsErrOf, min};
ghost use Rattle.std.specs.Bool.{MatchBool};
ghost use Rattle.std.specs.Io.KnownBytes.{Consumes, IsAtEnd};
ghost use Rattle.bw_text.specs.Counts.{HasRisenBy};
ghost use Rattle.bw_text.specs.Faults.{IsOfBytes, IsOfInput, IsOfReading, IfLine};
ghost use Rattle.bw_text.specs.Lines.{IsLineOf, parsed_lines_of};
ghost use Rattle.bw_text.specs.Grammar.{IsLineMeaning, first_place, place_behind};
ghost use Rattle.bw_text.specs.Sources.{HasEnded, ReadsOn};
ghost use Rattle.bw_text.specs.Traces.{StandFor, IsFaultyAt, trace_from, cut_trace_from, no_trace};

use crate::faults::TraceFault;
use crate::parse::{LINE_MAX, Meaning, parse_line};
use crate::places::{Place, Version};
use crate::ports::Inlet;
use bw_key::Memory;
use bw_memory::Alloc;
use bw_model::Op;
use std::marker::Model;

// How many bytes are asked for at a call of the reader.
const CHUNK: usize = 4096;

/// How often a source calls its reader at the most: 2^52 - 1 times, for 16 exbibytes.
pub const TURNS_MAX: u64 = 4_503_599_627_370_495;

/// A reader, with what was read from it and not parsed yet.
#[derive(Drop)]
pub struct Source<R: Inlet> {
    reader: R,
    turns: u64,
    buffer: Vec<u8, Alloc>,
    at: usize,
    len: usize,
    ended: bool,
    place: Place,
    fault: Option<TraceFault>,
}

impl<R: Inlet> Model for Source<R> {
    ghost use Rattle.std.specs.Prelude.{◌≡◌, ◌+◌, ◌-◌, ◌*◌, ◌≤◌, ◌<◌, ◌^◌, true, vec_len};
    ghost use Rattle.std.specs.Io.KnownBytes.{IsAtEnd};
    ghost use Rattle.bw_text.specs.Sources.{SourceView, unread_of};

    ghost Value = { SourceView };

    ghost view = { λ s. record {
      unread = unread_of s.buffer.items s.at s.len (R.remaining s.reader);
      place = s.place;
      fault = s.fault;
      turns = s.turns;
      budget = 4096 * s.turns + (s.len - s.at);
      ended = s.ended;
      remaining = R.remaining s.reader;
      calls = R.calls s.reader;
      failures = R.failures s.reader;
      has_ended = R.has_ended s.reader;
    } };

    ghost invariant = { λ s. (vec_len s.buffer ≡ 4096) × (s.at ≤ s.len) × (s.len ≤ 4096)
        × (s.place.lines + (4096 * s.turns + (s.len - s.at)) < 2 ^ 64)
        × (s.ended ≡ true → (s.at ≡ s.len) × IsAtEnd (R.remaining s.reader) × (R.has_ended s.reader ≡ true)) };
}

impl<R: Inlet> Source<R> {
    /// A source over a reader, which it calls `turns` times at the most. After `Memory` the reader is gone.
    ///
    /// A call takes in 4,096 bytes at the most. More than `TURNS_MAX` turns count as so many, so that each line has a
    /// 64-bit number.
    pub fn new(alloc: Alloc, reader: R, turns: u64) -> Result<Source<R>, Memory>
        ensures unread { IfOk result (λ source. source.unread ≡ R.remaining reader) }
        ensures fresh { IfOk result (λ source. (source.place ≡ first_place) × (source.fault ≡ None)
            × (source.ended ≡ false)) }
        ensures turns { IfOk result (λ source. source.turns ≡ min turns (2 ^ 52 - 1)) }
        ensures reader { IfOk result (λ source.
            (source.calls ≡ R.calls reader) × (source.failures ≡ R.failures reader)
            × (source.has_ended ≡ R.has_ended reader)) }
    {
        let buffer = vec![in alloc; 0u8; CHUNK]?;
        Ok(Source {
            reader,
            turns: turns.min(TURNS_MAX),
            buffer,
            at: 0,
            len: 0,
            ended: false,
            place: Place {
                lines: 0,
                version: Version::First,
            },
            fault: None,
        })
    }

    /// How much it may take in is less than 2^64 bytes. It does nothing: its contract says it.
    pub fn know_budget(&self)
        ensures { self.now.budget < 2 ^ 64 }
    {
        // A look at a field is what makes the type's rule known here.
        let _ = &self.reader;
    }

    // The next byte, None at the end.
    fn next_byte(&mut self) -> Result<Option<u8>, TraceFault>
        ensures byte { IfOk result (λ next. MatchOption next
            (Consumes self.old.unread self.new.unread [] × HasEnded self.new)
            (λ b. Consumes self.old.unread self.new.unread (b ∷ []) × (self.old.ended ≡ false)
            × (self.new.ended ≡ false))) }
        ensures falls { IfOk result (λ next. IfSome next (λ _. self.new.budget < self.old.budget)) }
        ensures over { self.old.ended ≡ true → result ≡ Ok None }
        ensures on { ReadsOn self.old self.new }
        ensures same { (self.new.place ≡ self.old.place) × (self.new.fault ≡ self.old.fault) }
        ensures none_failed { OnOk result (self.new.failures ≡ self.old.failures) }
        ensures faults { IfErr result (λ fault.
            IsOfInput fault × (self.old.ended ≡ false) × Consumes self.old.unread self.new.remaining []) }
        ensures read { IsErrOf result TraceFault.Read → HasRisenBy 1 self.old.failures self.new.failures }
        ensures endless { IsErrOf result TraceFault.Endless → self.new.turns ≡ 0 }
    {
        if self.at < self.len {
            let b = self.buffer[self.at];
            self.at += 1;
            return Ok(Some(b));
        }
        if self.ended {
            return Ok(None);
        }
        if self.turns == 0 {
            return Err(TraceFault::Endless);
        }
        self.turns -= 1;
        self.at = 0;
        self.len = 0;
        match self.reader.read(self.buffer.as_mut_slice()) {
            Err(_) => Err(TraceFault::Read),
            Ok(0) => {
                self.ended = true;
                Ok(None)
            }
            Ok(n) => {
                self.at = 1;
                self.len = n;
                Ok(Some(self.buffer[0]))
            }
        }
    }

    // Reads a line into an empty buffer, without the byte that ends it, and says whether there was one. Of a line
    // that is too long it reads enough to tell.
    fn read_line(&mut self, line: &mut Vec<u8, Alloc>) -> Result<bool, TraceFault>
        requires { line.old.items ≡ [] }
        ensures line { IfOk result (λ found. MatchBool found
            ((read : List ℕ) × Consumes self.old.unread self.new.unread read
            × IsLineOf line.new.items read self.new.ended
            × (self.new.ended ≡ true → HasEnded self.new))
            (Consumes self.old.unread self.new.unread [] × HasEnded self.new)) }
        ensures falls { result ≡ Ok true → self.new.budget < self.old.budget }
        ensures over { self.old.ended ≡ true → result ≡ Ok false }
        ensures on { ReadsOn self.old self.new }
        ensures same { (self.new.place ≡ self.old.place) × (self.new.fault ≡ self.old.fault) }
        ensures none_failed { OnOk result (self.new.failures ≡ self.old.failures) }
        ensures faults { IfErr result (λ fault. IsOfBytes fault) }
        ensures cut { IfErr result (λ fault. IsOfInput fault → (self.old.ended ≡ false)
            × ((read : List ℕ) × Consumes self.old.unread self.new.remaining read × (parsed_lines_of read ≡ []))) }
        ensures read { IsErrOf result TraceFault.Read → HasRisenBy 1 self.old.failures self.new.failures }
        ensures endless { IsErrOf result TraceFault.Endless → self.new.turns ≡ 0 }
    {
        for _ in 0..LINE_MAX + 1 {
            match self.next_byte()? {
                None => return Ok(!line.is_empty()),
                Some(b'\n') => return Ok(true),
                Some(b) => line.push(b)?,
            }
        }
        Ok(true)
    }

    // One more line was parsed.
    fn pass(&mut self, meaning: &Meaning)
        requires { self.old.place.lines + 1 + self.old.budget < 2 ^ 64 }
        ensures { self.new ≡ record self.old { place = place_behind self.old.place meaning.now } }
    {
        self.place.lines += 1;
        if let Meaning::StartsVersion2 = meaning {
            self.place.version = Version::Second;
        }
    }

    // Reads a line and parses it. None at the end.
    fn next_line(&mut self, line: &mut Vec<u8, Alloc>) -> Result<Option<Meaning>, TraceFault>
        requires { self.old.place.lines + self.old.budget < 2 ^ 64 }
        ensures meaning { IfOk result (λ next. (read : List ℕ) × Consumes self.old.unread self.new.unread read
            × MatchOption next
            ((read ≡ []) × (self.new.place ≡ self.old.place) × HasEnded self.new)
            (λ meaning. IsLineMeaning self.old.place read meaning self.new.ended
            × (self.new.place ≡ place_behind self.old.place meaning) × (self.old.ended ≡ false)
            × (self.new.ended ≡ true → HasEnded self.new))) }
        ensures over { self.old.ended ≡ true → result ≡ Ok None }
        ensures cut { IfErr result (λ fault. IsOfInput fault → (self.old.ended ≡ false)
            × ((read : List ℕ) × Consumes self.old.unread self.new.remaining read × (parsed_lines_of read ≡ []))) }
        ensures falls { IfOk result (λ next. IfSome next
            (λ _. self.new.place.lines + self.new.budget < 2 ^ 64 × (self.new.budget < self.old.budget))) }
        ensures on { ReadsOn self.old self.new }
        ensures fault { self.new.fault ≡ self.old.fault }
        ensures none_failed { OnOk result (self.new.failures ≡ self.old.failures) }
        ensures faults { IfErr result (λ fault. IsOfBytes fault) }
        ensures read { IsErrOf result TraceFault.Read → HasRisenBy 1 self.old.failures self.new.failures }
        ensures endless { IsErrOf result TraceFault.Endless → self.new.turns ≡ 0 }
    {
        line.clear();
        if !self.read_line(line)? {
            return Ok(None);
        }
        let meaning = parse_line(*line.allocator(), self.place, line)?;
        self.pass(&meaning);
        Ok(Some(meaning))
    }

    // The operations up to the next `go` or the end.
    fn gather(&mut self) -> Result<Option<Vec<Op, Alloc>>, TraceFault>
        ensures batch { IfOk result (λ next. (read : List ℕ) × Consumes self.old.unread self.new.unread read
            × MatchOption next
            ((trace_from self.old.place read ≡ no_trace) × (self.old.ended ≡ true → read ≡ []) × HasEnded self.new)
            (λ ops. StandFor self.old.place read (ops.items ∷ []) self.new.place self.new.ended
            × (self.old.ended ≡ false)
            × (self.new.ended ≡ true → HasEnded self.new))) }
        ensures over { self.old.ended ≡ true → result ≡ Ok None }
        ensures line { IfErr result (λ fault. IfLine fault
            (λ number cause. (read : List ℕ) × Consumes self.old.unread self.new.unread read
            × IsFaultyAt self.old.place read number cause self.new.ended × (self.new.ended ≡ true → HasEnded self.new))) }
        ensures cut { IfErr result (λ fault. IsOfInput fault → (self.old.ended ≡ false)
            × ((read : List ℕ) × Consumes self.old.unread self.new.remaining read
            × (cut_trace_from self.old.place read ≡ no_trace))) }
        ensures falls { IfOk result (λ next. IfSome next (λ _. self.new.budget < self.old.budget)) }
        ensures on { ReadsOn self.old self.new }
        ensures fault { self.new.fault ≡ self.old.fault }
        ensures none_failed { OnOk result (self.new.failures ≡ self.old.failures) }
        ensures faults { IfErr result (λ fault. IsOfReading fault) }
        ensures read { IsErrOf result TraceFault.Read → HasRisenBy 1 self.old.failures self.new.failures }
        ensures endless { IsErrOf result TraceFault.Endless → self.new.turns ≡ 0 }
    {
        let alloc = *self.buffer.allocator();
        let mut ops = Vec::new(alloc);
        let mut line = Vec::new(alloc);
        while let Some(meaning) = self.next_line(&mut line)? {
            match meaning {
                Meaning::Nothing => {}
                Meaning::StartsVersion2 => {}
                Meaning::Operation(op) => ops.push(op)?,
                Meaning::EndsBatch => return Ok(Some(ops)),
                Meaning::Faulty(cause) => {
                    return Err(TraceFault::Line {
                        number: self.place.lines,
                        cause,
                    });
                }
            }
        }
        if ops.is_empty() {
            return Ok(None);
        }
        Ok(Some(ops))
    }
}

/// The next batch of a trace: the operations up to the next line `go`, or up to the end of the input where there are
/// any. None at the end.
///
/// Its faults are `Read`, `Endless`, `Memory` and `Line`. After a fault the source answers the same fault from then on.
pub fn read_batch<R: Inlet>(source: &mut Source<R>) -> Result<Option<Vec<Op, Alloc>>, TraceFault>
    // The bytes that were read stand for the batch. At the end they stand for none, and the reader told its end.
    ensures batch { IfOk result (λ next. (read : List ℕ) × Consumes source.old.unread source.new.unread read
        × MatchOption next
        ((trace_from source.old.place read ≡ no_trace) × (source.old.ended ≡ true → read ≡ []) × HasEnded source.new)
        (λ ops. StandFor source.old.place read (ops.items ∷ []) source.new.place source.new.ended
        × (source.old.ended ≡ false)
        × (source.new.ended ≡ true → HasEnded source.new))) }
    ensures over { source.old.fault ≡ None → source.old.ended ≡ true → result ≡ Ok None }
    // The line of this number is the first that is faulty, whatever follows.
    ensures line { source.old.fault ≡ None → IfErr result (λ fault. IfLine fault (λ number cause. (read : List ℕ)
        × Consumes source.old.unread source.new.unread read
        × IsFaultyAt source.old.place read number cause source.new.ended
        × (source.new.ended ≡ true → HasEnded source.new))) }
    // Where the input failed or did not end, no line `go` was read whole.
    ensures cut { source.old.fault ≡ None → IfErr result (λ fault. IsOfInput fault → (source.old.ended ≡ false)
        × ((read : List ℕ) × Consumes source.old.unread source.new.remaining read
        × (cut_trace_from source.old.place read ≡ no_trace))) }
    ensures read { source.old.fault ≡ None → IsErrOf result TraceFault.Read →
        HasRisenBy 1 source.old.failures source.new.failures }
    ensures endless { source.old.fault ≡ None → IsErrOf result TraceFault.Endless → source.new.turns ≡ 0 }
    ensures faults { source.old.fault ≡ None → IfErr result (λ fault. IsOfReading fault) }
    ensures falls { IfOk result (λ next. IfSome next (λ _. source.new.budget < source.old.budget)) }
    ensures on { ReadsOn source.old source.new }
    ensures none_failed { OnOk result (source.new.failures ≡ source.old.failures) }

    // The same fault from then on, and nothing is read for it.
    ensures kept { IfErr result (λ fault. source.new.fault ≡ Some fault) }
    ensures again { IfSome source.old.fault (λ fault. (result ≡ Err fault) × (source.new ≡ source.old)) }
    ensures none { OnOk result (source.new.fault ≡ None) }
{
    if let Some(fault) = source.fault {
        return Err(fault);
    }
    match source.gather() {
        Ok(next) => Ok(next),
        Err(fault) => {
            source.fault = Some(fault);
            Err(fault)
        }
    }
}
