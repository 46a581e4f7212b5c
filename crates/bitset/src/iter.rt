// An iterator over the members of a set, from the least on.
ghost use Rattle.std.specs.Prelude.{◌≡◌, ℕ, ◌<◌, ◌^◌};
ghost use Rattle.std.specs.Iterator.{YieldsFirst, item_count};
ghost use Rattle.bitset.specs.Listed.{listed};

use crate::{first_member, without_first};
use std::marker::Model;

// The set of the members that are still to come.
#[derive(Drop)]
pub struct Members(u64);

impl Model for Members {
    ghost Value = { ℕ };

    ghost view = { λ m. m.0 };

    ghost invariant = { λ m. m.0 < 2 ^ 64 };
}

impl Members {
    // All members of `set`.
    pub(crate) fn of(set: u64) -> Members
        ensures { result ≡ set }
    {
        Members(set)
    }
}

impl Iterator for Members {
    type Item = usize;

    ghost next_gives = { YieldsFirst listed };

    ghost remaining = { item_count listed };

    #[tactic(auto, using(crate::proofs::Listed::listed_none, crate::proofs::Listed::listed_first))]
    fn next(&mut self) -> Option<usize> {
        if self.0 == 0 {
            return None;
        }
        let first = first_member(self.0);
        self.0 = without_first(self.0);
        Some(first)
    }
}
