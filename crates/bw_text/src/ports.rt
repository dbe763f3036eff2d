// Where a trace comes from, and where texts go.
ghost use Rattle.std.specs.Prelude.{◌≡◌, ℕ, ◌<◌, ◌≤◌, ◌||◌, ◌&&◌, ◌==◌, nat_lt, Bool, true, List, length, take, Option, IfOk, OnOk, OnErr};
ghost use Rattle.std.specs.Io.KnownBytes.{Appends, Consumes, IsAtEnd, Keeps};
ghost use Rattle.bw_text.specs.Counts.{HasRisenBy};

use thiserror::Error;

/// A read or a write failed.
#[derive(Clone, Copy, Debug, PartialEq, Eq, Error)]
#[error("a read or a write failed")]
pub struct Failed;

/// A source of bytes. For proofs it tells the bytes that it has left, counts its calls and its failures, and knows
/// whether it told its end. A count stops at 2^64 - 1, and is then taken as risen.
pub trait Inlet: Drop {
    // the bytes that it has left, where it says so
    ghost remaining: { Self → Option (List ℕ) };

    // how often it was called
    ghost calls: { Self → ℕ };

    // how often it failed
    ghost failures: { Self → ℕ };

    // whether it answered 0 for a buffer that isn't empty
    ghost has_ended: { Self → Bool };

    /// Reads some bytes into the front of the buffer, and answers how many: 0 only at the end, or for an empty buffer.
    fn read(&mut self, buffer: &mut [u8]) -> Result<usize, Failed>
        ensures bound { IfOk result (λ n. n ≤ length buffer.old) }
        ensures bytes { IfOk result (λ n. Consumes (remaining self.old) (remaining self.new) (take n buffer.new)) }
        ensures end { IfOk result (λ n. n ≡ 0 → 0 < length buffer.old → IsAtEnd (remaining self.new)
            × (has_ended self.new ≡ true)) }
        ensures told { IfOk result (λ n. has_ended self.new
            ≡ (has_ended self.old || (n == 0 && nat_lt 0 (length buffer.old)))) }
        ensures not_told { OnErr result (has_ended self.new ≡ has_ended self.old) }
        ensures none_lost { OnErr result (Keeps (remaining self.old) (remaining self.new)) }
        ensures calls { HasRisenBy 1 (calls self.old) (calls self.new) }
        ensures none_failed { OnOk result (failures self.new ≡ failures self.old) }
        ensures failed { OnErr result (HasRisenBy 1 (failures self.old) (failures self.new)) };
}

/// A taker of bytes. For proofs it tells the bytes that it has taken, and counts its failures.
pub trait Outlet {
    // the bytes that it has taken, where it says so
    ghost contents: { Self → Option (List ℕ) };

    // how often it failed
    ghost failures: { Self → ℕ };

    /// Takes all the bytes, or fails. What it took may be waited for at the other end: it holds none back.
    fn put(&mut self, bytes: &[u8]) -> Result<(), Failed>
        ensures ok { OnOk result (Appends (contents self.old) (contents self.new) bytes.now) }
        ensures none_failed { OnOk result (failures self.new ≡ failures self.old) }
        ensures failed { OnErr result (HasRisenBy 1 (failures self.old) (failures self.new)) };
}
