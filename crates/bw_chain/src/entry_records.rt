// Records that no chain names.
ghost use Rattle.std.specs.Prelude.{◌≡◌, ◌≤◌, ◌^◌, ◌++◌, length, take, OnOk, OnErr};
ghost use Rattle.bw_chain.specs.Records.{with_link};

use crate::chains::{Chains, FLOOR};
use bw_delta::{Arena, Delta};
use bw_key::Memory;
use bw_memory::Alloc;

impl Chains {
    /// Adds changes as records behind the others, in their order, each with this link word. No word names them, so they change
    /// no page: they tell of changes that a base page has already. `Memory` is answered where there is no room for them, and
    /// where there would be more than 2^32 records; all is as before.
    pub fn add_records(&mut self, deltas: Vec<Delta, Alloc>, link: u64) -> Result<(), Memory>
        ensures bases { self.new.bases ≡ self.old.bases }
        ensures ok { OnOk result (self.new.records ≡ self.old.records ++ with_link link deltas.entry.items) }
        ensures few { OnOk result (length self.new.records ≤ 2 ^ 32) }
        ensures err { OnErr result (self.new.records ≡ self.old.records) }
    {
        let before = self.arena.len();
        let count = before as u64;
        if count > FLOOR || deltas.len() as u64 > FLOOR - count {
            return Err(Memory);
        }
        let appended = append_each(&mut self.arena, deltas, link);
        if appended.is_err() {
            self.arena.truncate(before);
        }
        appended
    }
}

// Appends changes, or some of them.
fn append_each(arena: &mut Arena, deltas: Vec<Delta, Alloc>, link: u64) -> Result<(), Memory>
    ensures ok { OnOk result (arena.new.records ≡ arena.old.records ++ with_link link deltas.entry.items) }
    ensures others { take (length arena.old.records) arena.new.records ≡ arena.old.records }
{
    for delta in deltas {
        arena.make_room()?;
        arena.append(delta, link);
    }
    Ok(())
}
