// Step 5 of the passes: the mandatory places of a block.
ghost use Rattle.std.specs.Prelude.{◌≡◌, length, replicate, IfSome};
ghost use Rattle.model.specs.Passes.{mandatory};
ghost use Rattle.records.specs.Read.{table};
ghost use Rattle.propagator.specs.Rows.{kept_to, entries_to, Becomes, places_of};

use crate::letters::Letters;
use crate::row::Row;
use model::Block;

// What a place becomes that has the states `from` before it and the states `to` kept behind it: the letters that stay, and the
// states kept before it.
#[derive(Clone, Copy)]
pub(crate) struct Kept {
    pub from: u64,
    pub to: u64,
    pub letters: u64,
    pub states: u64,
}

impl<'a> Letters<'a> {
    // The letters by which some move goes from a state of `from` to a state of `end`, and those former states. Of each
    // state the letters not yet kept are looked at; where none leads to `end`, one kept letter that does keeps the state. Put in
    // the place of each call, as a call hands all that it is given on in memory, which costs more than the work of a small book.
    #[inline(always)]
    #[tactic(auto, using(bitset::proofs::Laws::in_difference, crate::proofs::Gathering::comes_small))]
    pub(crate) fn narrow_place(self, from: u64, end: u64) -> Kept
        ensures { (result.from ≡ from) × (result.to ≡ end) × Becomes (table self.entry.moves.table) self.entry.set from end result }
    {
        let mut letters = 0;
        let mut states = 0;
        for q in bitset::members(from) {
            let others = Letters {
                moves: self.moves,
                set: bitset::difference(self.set, letters),
            };
            let fresh = others.letters_to(q, end);
            let found = Letters {
                moves: self.moves,
                set: letters,
            };
            if fresh != 0 || found.some_letter_to(q, end) {
                states = bitset::add(states, q);
            }
            letters = bitset::union(letters, fresh);
        }
        Kept {
            from,
            to: end,
            letters,
            states,
        }
    }

    // The places of a block, from the last to the first: makes their entries. `row` are Q1 to Ql, Q0 before them, and `end` the
    // states kept behind the last; returns those kept before the first. `last` is what some place became: one between the same
    // sets becomes that too, and so one between the same sets as the place behind it.
    #[tactic(auto, using(crate::proofs::Stored::places_long, crate::proofs::Placing::placing_ends))]
    pub(crate) fn narrow_places(
        self,
        row: Row,
        end: u64,
        mut last: Option<Kept>,
        entries: &mut [Block],
    ) -> u64
        requires places { row.sets.now ≡ places_of (table self.moves.table) self.set row.first (length entries.old) }
        requires becomes { IfSome last (λ kept. Becomes (table self.moves.table) self.set kept.from kept.to kept) }
        ensures value { result ≡ kept_to (table self.entry.moves.table) end row.entry.first (replicate (length entries.old) (mandatory self.entry.set)) }
        ensures entries { entries.new ≡ entries_to (table self.entry.moves.table) end row.entry.first (replicate (length entries.old) (mandatory self.entry.set)) }
    {
        let mut states = end;
        for j in (0..entries.len()).rev() {
            let before = row.set_before(j);
            let kept = match last {
                Some(kept) if kept.from == before && kept.to == states => kept,
                _ => self.narrow_place(before, states),
            };
            entries[j] = Block {
                base: kept.letters,
                lower: 1,
                upper: 1,
            };
            states = kept.states;
            last = Some(kept);
        }
        states
    }
}
