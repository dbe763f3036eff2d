// Pairs, one after another.
use crate::pairs::Pairs;
use crate::runs::Run;
use std::marker::Model;

/// The pairs of a list or of a run that are still to be told, as keys and values. Contracts see the list of them.
#[derive(Drop)]
pub struct Iter<'a> {
    pub(crate) rest: Run<'a>,
}

impl<'a> Model for Iter<'a> {
    ghost use Rattle.std.specs.Prelude.{List, ℕ};

    ghost Value = { List (List ℕ × List ℕ) };

    ghost view = { λ it. it.rest };
}

impl<'a> Iterator for Iter<'a> {
    ghost use Rattle.std.specs.Iterator.{YieldsFirstBy, item_count};
    ghost use Rattle.std.specs.Map.Iter.{deref_pair};

    type Item = (&'a [u8], &'a [u8]);

    ghost next_gives = { YieldsFirstBy deref_pair (λ rest. rest) };

    ghost remaining = { item_count (λ rest. rest) };

    fn next(&mut self) -> Option<(&'a [u8], &'a [u8])> {
        if self.rest.is_empty() {
            return None;
        }
        let pair = (self.rest.key_at(0), self.rest.value_at(0));
        let (_first, rest) = self.rest.split_at(1);
        self.rest = rest;
        Some(pair)
    }
}

impl<'a> IntoIterator for &'a Pairs {
    ghost use Rattle.std.specs.Prelude.{◌≡◌};

    type Item = (&'a [u8], &'a [u8]);

    type IntoIter = Iter<'a>;

    ghost into_iter_gives = { λ pairs it. it ≡ pairs.now };

    fn into_iter(self) -> Iter<'a> {
        self.iter()
    }
}
