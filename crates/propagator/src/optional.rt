// Steps 3 and 4 of the passes: the optional part of a block. Level d is the set of states q with b(q) ≤ d.
ghost use Rattle.std.specs.Prelude.{◌≡◌, ◌-◌, IfSome};
ghost use Rattle.model.specs.Set.{both, either};
ghost use Rattle.model.specs.DashedString.{block};
ghost use Rattle.model.specs.Passes as passes;
ghost use Rattle.model.specs.Passes.{before, to_end, at_most, optional, pruned, backward};
ghost use Rattle.records.specs.Read.{table};
ghost use Rattle.propagator.specs.Rows.{Becomes};

use crate::letters::Letters;
use crate::places::Kept;
use model::Block;

// What an optional part becomes, and the states kept before it; and what a place becomes, where one was looked at for it.
#[derive(Clone, Copy)]
pub(crate) struct Optional {
    pub block: Block,
    pub states: u64,
    pub kept: Option<Kept>,
}

impl<'a> Letters<'a> {
    // The next level, where `level` is one.
    fn raise(self, within: u64, level: u64) -> u64
        ensures { result ≡ either level (before (table self.entry.moves.table) self.entry.set within level) }
    {
        let more = bitset::members(bitset::difference(within, level))
            .filter(|q| self.some_letter_to(*q, level))
            .fold(0, bitset::add);
        bitset::union(level, more)
    }

    // Level `height`, through states of `within` to states of `end`. Where a level repeats, all above are that level.
    #[tactic(auto, unfolding(model::specs::Passes::rounds))]
    fn level_of(self, within: u64, end: u64, height: u16) -> u64
        ensures { result ≡ to_end (table self.entry.moves.table) self.entry.set within end height }
    {
        let mut level = end;
        for _ in 0..height {
            let next = self.raise(within, level);
            if next == level {
                return level;
            }
            level = next;
        }
        level
    }

    // The least b(q) over the states q of `from`, or `width` where none is below.
    #[tactic(auto, using(crate::proofs::Levels::searching_met, crate::proofs::Levels::searching_more, crate::proofs::Levels::searching_ends), unfolding(model::specs::Passes::rounds, model::specs::Passes::fewest))]
    fn fewest(self, within: u64, end: u64, from: u64, width: u16) -> u16
        ensures { result ≡ passes.fewest (table self.entry.moves.table) self.entry.set within end from width }
    {
        let mut level = end;
        for height in 0..width {
            if bitset::intersection(from, level) != 0 {
                return height;
            }
            level = self.raise(within, level);
        }
        width
    }

    // The optional part of at most `width` letters: `from` are the states possible before it, `within` those possible behind it
    // and `end` those kept behind it.
    #[tactic(auto, using(crate::proofs::Levels::optional_none, crate::proofs::Levels::optional_some), unfolding(model::specs::Passes::rounds, model::specs::Passes::pruned, model::specs::Passes::backward))]
    pub(crate) fn narrow_optional(self, width: u16, from: u64, within: u64, end: u64) -> Optional
        requires within_value { (within ≡ at_most (table self.moves.table) self.set from width) × (both within end ≡ end) }
        ensures block_value { result.block ≡ pruned (table self.entry.moves.table) from (optional self.entry.set width) end }
        ensures states_value { result.states ≡ backward (table self.entry.moves.table) from (optional self.entry.set width) end }
        ensures becomes { IfSome result.kept (λ kept. Becomes (table self.entry.moves.table) self.entry.set kept.from kept.to kept) }
    {
        if width == 0 {
            return Optional {
                block: Block::EMPTY,
                states: bitset::intersection(from, end),
                kept: None,
            };
        }
        let level = self.level_of(within, end, width - 1);
        let kept = self.narrow_place(within, level);
        let lower = self.fewest(within, end, from, width);
        Optional {
            block: Block {
                base: kept.letters,
                lower,
                upper: width,
            },
            states: bitset::intersection(from, bitset::union(level, kept.states)),
            kept: Some(kept),
        }
    }
}
