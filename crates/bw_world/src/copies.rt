//! The lists that a split or a join of books makes.
ghost use Rattle.std.specs.Prelude.{◌≡◌, ◌++◌, length, map, IfOk};
ghost use Rattle.bw_core.specs.Events.{longer_of, longest, later_of, latest};

use bw_key::Memory;
use bw_memory::Alloc;

type Chains = Vec<Vec<u64, Alloc>, Alloc>;

// One list after the other.
pub(crate) fn concat<T: Copy>(
    alloc: Alloc,
    front: &[T],
    back: &[T],
) -> Result<Vec<T, Alloc>, Memory>
    ensures { IfOk result (λ v. v.items ≡ front.now ++ back.now) }
{
    let mut both = Vec::from_slice(alloc, front)?;
    both.extend_from_slice(back)?;
    Ok(both)
}

// The same chains.
pub(crate) fn copied(alloc: Alloc, chains: &[Vec<u64, Alloc>]) -> Result<Chains, Memory>
    ensures { IfOk result (λ v. map (λ c. c.items) v.items ≡ map (λ c. c.items) chains.now) }
{
    let mut copies = Vec::new(alloc);
    for chain in chains {
        copies.push(Vec::from_slice(alloc, chain.as_slice())?)?;
    }
    Ok(copies)
}

fn longer<'a>(mine: &'a [u64], other: &'a [u64]) -> &'a [u64]
    ensures { result.now ≡ longer_of mine.now other.now }
{
    if other.len() <= mine.len() {
        mine
    } else {
        other
    }
}

// At each page the longer of two chains.
pub(crate) fn longest(
    alloc: Alloc,
    mine: &[Vec<u64, Alloc>],
    others: &[Vec<u64, Alloc>],
) -> Result<Chains, Memory>
    requires { length mine.now ≡ length others.now }
    ensures { IfOk result (λ v. map (λ c. c.items) v.items ≡ longest (map (λ c. c.items) mine.now) (map (λ c. c.items)
        others.now)) }
{
    let mut chains = Vec::new(alloc);
    for page in 0..mine.len() {
        let chain = longer(mine[page].as_slice(), others[page].as_slice());
        chains.push(Vec::from_slice(alloc, chain)?)?;
    }
    Ok(chains)
}

fn later(first: u64, mine: u64, other: u64) -> u64
    ensures { result ≡ later_of first mine other }
{
    if mine == first { other } else { mine }
}

// At each page the word that is not the first one, where either has it.
pub(crate) fn latest(
    alloc: Alloc,
    first: &[u64],
    mine: &[u64],
    others: &[u64],
) -> Result<Vec<u64, Alloc>, Memory>
    requires pages { (length mine.now ≡ length first.now) × (length others.now ≡ length first.now) }
    ensures { IfOk result (λ v. v.items ≡ latest first.now mine.now others.now) }
{
    let mut ends = Vec::new(alloc);
    for page in 0..first.len() {
        ends.push(later(first[page], mine[page], others[page]))?;
    }
    Ok(ends)
}
