// Limits of pages.
use std::marker::Model;

/// The limits that tidying keeps pages to.
#[derive(Clone, Copy, Debug, PartialEq, Eq)]
pub struct Limits {
    chain_max: u64,
    page_max: u64,
    page_min: u64,
}

impl Model for Limits {
    ghost use Rattle.bw_shape.specs.Limits.{LimitsView, AreLimits};

    ghost Value = { LimitsView };

    ghost view = { λ l. record { chain_max = l.chain_max; page_max = l.page_max; page_min = l.page_min } };

    ghost invariant = { λ l. AreLimits (record {
      chain_max = l.chain_max;
      page_max = l.page_max;
      page_min = l.page_min;
    }) };

    ghost inverse = { λ v. record { chain_max = v.chain_max; page_max = v.page_max; page_min = v.page_min } };
}

impl Limits {
    ghost use Rattle.std.specs.Prelude.{◌≡◌};
    ghost use Rattle.bw_shape.specs.Limits.{AreLimits};

    /// These limits:
    ///
    /// - `chain_max`: how many writes stand over a leaf's base page until they are consolidated, from 0 to 1,024;
    /// - `page_max`: how many entries a page has until it is split, from 4 to 4,096;
    /// - `page_min`: below how many entries a page is merged, from 0 to half of `page_max`.
    pub fn new(chain_max: u64, page_max: u64, page_min: u64) -> Limits
        requires { AreLimits (record { chain_max = chain_max; page_max = page_max; page_min = page_min }) }
        ensures { result ≡ record { chain_max = chain_max; page_max = page_max; page_min = page_min } }
    {
        Limits {
            chain_max,
            page_max,
            page_min,
        }
    }

    /// How many writes a leaf's chain may have.
    pub fn chain_max(&self) -> u64
        ensures { result ≡ self.now.chain_max }
    {
        self.chain_max
    }

    /// How many entries a page may have.
    pub fn page_max(&self) -> u64
        ensures value { result ≡ self.now.page_max }
        ensures least { AreLimits self.now }
    {
        self.page_max
    }
    /// Below how many entries a page is merged.
    pub fn page_min(&self) -> u64
        ensures value { result ≡ self.now.page_min }
        ensures least { AreLimits self.now }
    {
        self.page_min
    }
}
