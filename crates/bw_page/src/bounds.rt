// The ranges of pages.
ghost use Rattle.std.specs.Prelude.{◌≡◌, is_some, Some, IfOk, MatchOption, true, false};
ghost use Rattle.std.specs.Option.{option_copied};
ghost use Rattle.bw_model.specs.Contents.{is_below_end};

use crate::pages::PageId;
use bw_key::{Key, Memory};
use std::marker::Model;

/// The range of keys of a page, from `low` on and below `high`, and its right neighbour, `side`.
///
/// No `high` is no upper end. There is a right neighbour exactly where there is a `high`, and its range begins there.
#[derive(Debug, Drop)]
pub(crate) struct Bounds {
    low: Key,
    high: Option<Key>,
    side: Option<PageId>,
}

impl Model for Bounds {
    ghost use Rattle.std.specs.Prelude.{◌≡◌, is_some};
    ghost use Rattle.bw_page.specs.Pages.{BoundsView};

    ghost Value = { BoundsView };

    ghost view = { λ b. record { low = b.low; high = b.high; side = b.side } };

    ghost invariant = { λ b. is_some b.side ≡ is_some b.high };
}

impl Bounds {
    /// These bounds. They take no memory.
    pub(crate) fn new(low: Key, high: Option<Key>, side: Option<PageId>) -> Bounds
        requires { is_some side ≡ is_some high }
        ensures { result ≡ record { low = low; high = high; side = side } }
    {
        Bounds { low, high, side }
    }

    /// The lower end of the range, which belongs to it.
    pub(crate) fn low(&self) -> &Key
        ensures { result.now ≡ self.now.low }
    {
        &self.low
    }

    /// The upper end of the range, which doesn't belong to it.
    pub(crate) fn high(&self) -> Option<&Key>
        ensures { option_copied result ≡ self.now.high }
    {
        self.high.as_ref()
    }

    /// The right neighbour.
    pub(crate) fn side(&self) -> Option<PageId>
        ensures { result ≡ self.now.side }
    {
        self.side
    }

    /// The right neighbour, where the key is past the end of the range.
    pub(crate) fn past(&self, key: &Key) -> Option<PageId>
        ensures { MatchOption result (is_below_end self.now.high key.now ≡ true)
            (λ next. (is_below_end self.now.high key.now ≡ false) × (self.now.side ≡ Some next)) }
    {
        match &self.high {
            Some(high) if *key >= *high => self.side,
            _ => None,
        }
    }

    /// Bounds that begin at this key, and end where these do. `Memory` is answered where a copy of their end finds
    /// none.
    pub(crate) fn with_low(&self, low: Key) -> Result<Bounds, Memory>
        ensures { IfOk result (λ bounds. bounds ≡ record self.now { low = low }) }
    {
        Ok(Bounds {
            low,
            high: copy_end(&self.high)?,
            side: self.side,
        })
    }

    /// Ends the range at this key, before this right neighbour. It takes no memory.
    pub(crate) fn narrow(&mut self, high: Key, side: PageId)
        ensures { self.new ≡ record { low = self.old.low; high = Some high; side = Some side } }
    {
        self.high.replace(high);
        self.side.replace(side);
    }
}

// The same end of a range again.
fn copy_end(end: &Option<Key>) -> Result<Option<Key>, Memory>
    ensures { IfOk result (λ copy. copy ≡ end.now) }
{
    match end {
        Some(key) => Ok(Some(key.copy()?)),
        None => Ok(None),
    }
}
