// Step 1 of the passes: forward through the blocks.
ghost use Rattle.std.specs.Prelude.{◌≡◌, ◌+◌, ◌≤◌, length, take};
ghost use Rattle.model.specs.Size.{Room, lower_sum};
ghost use Rattle.model.specs.Passes as passes;
ghost use Rattle.model.specs.Passes.{segments_of, segments, final};
ghost use Rattle.propagator.specs.Moves.{Below, exactly};
ghost use Rattle.records.specs.Read.{table};
ghost use Rattle.propagator.specs.Rows.{sets_of, stored_sum, places_of, stored_by, stored};

use crate::known::Steps;
use crate::row::sets_of;
use model::Block;

// What stands behind the last block: the states possible there, and how many entries and stored sets the blocks have.
#[derive(Clone, Copy)]
pub(crate) struct Behind {
    pub states: u64,
    pub entries: usize,
    pub stored: usize,
}

impl<'a> Steps<'a> {
    // Stores Q1 to Ql, where `from` is Q0; returns Ql. Where a set repeats, all that follow are that set.
    #[tactic(auto, using(crate::proofs::Forth::filling_more, crate::proofs::Forth::filling_repeats, crate::proofs::Forth::filling_ends), unfolding(crate::specs::Moves::exactly, crate::specs::Rows::places_of))]
    fn fill_places(&mut self, from: u64, places: &mut [u64]) -> u64
        ensures value { result ≡ exactly (table self.old.letters.moves.table) self.old.letters.set from (length places.old) }
        ensures same { self.new.letters ≡ self.old.letters }
        ensures places { places.new ≡ places_of (table self.old.letters.moves.table) self.old.letters.set from (length places.old) }
    {
        let mut set = from;
        for (j, place) in places.iter_mut().enumerate() {
            let next = self.step(set);
            if next == set {
                places[j..].fill(set);
                return set;
            }
            *place = next;
            set = next;
        }
        set
    }

    // The states reached from `from` by at most `width` letters. Each round steps from the states alone that the last
    // one added.
    #[tactic(auto, unfolding(model::specs::Passes::rounds))]
    fn reached(&mut self, from: u64, width: usize) -> u64
        ensures value { result ≡ passes.at_most (table self.old.letters.moves.table) self.old.letters.set from width }
        ensures same { self.new.letters ≡ self.old.letters }
    {
        let mut all = from;
        let mut front = from;
        for _ in 0..width {
            front = bitset::difference(self.step(front), all);
            if front == 0 {
                return all;
            }
            all = bitset::union(all, front);
        }
        all
    }

    // One block: stores its Q1 to Ql and, where l < u, its R, where `from` is its Q0; returns its R.
    fn pass_block(&mut self, block: Block, from: u64, sets: &mut [u64]) -> u64
        requires formed { Below self.old.letters.moves.table.letters block.base × (block.lower ≤ block.upper) }
        requires size { length sets.old ≡ sets_of block }
        ensures value { result ≡ final (table self.old.letters.moves.table) from (segments_of block) }
        ensures moves { self.new.letters.moves ≡ self.old.letters.moves }
        ensures sets { sets.new ≡ stored_by (table self.old.letters.moves.table) from block }
    {
        self.turn_to(block.base);
        let places = usize::from(block.lower);
        let last = self.fill_places(from, &mut sets[..places]);
        let states = self.reached(last, usize::from(block.upper - block.lower));
        sets[places..].fill(states);
        states
    }

    // Goes through the blocks and stores their sets one after another. `start` is the first block's Q0. Kept apart from the way
    // back: in one function the compiler has too few registers for both.
    #[inline(never)]
    #[tactic(auto, using(crate::proofs::Rows::sum_small, crate::proofs::Forth::passing_fits))]
    pub(crate) fn go_ahead(&mut self, blocks: &[Block], start: u64, sets: &mut [u64]) -> Behind
        requires room { Room self.old.letters.moves.table.letters blocks.now }
        requires sets_fit { stored_sum blocks.now ≤ length sets.old }
        ensures states { result.states ≡ final (table self.old.letters.moves.table) start (segments blocks.now) }
        ensures entries { result.entries ≡ lower_sum blocks.now + length blocks.now }
        ensures sets { (result.stored ≡ stored_sum blocks.now) × (take result.stored sets.new ≡ stored (table self.old.letters.moves.table) start blocks.now) }
    {
        let mut states = start;
        let mut entries = 0;
        let mut at = 0;
        for block in blocks {
            let end = at + sets_of(*block);
            states = self.pass_block(*block, states, &mut sets[at..end]);
            entries += usize::from(block.lower) + 1;
            at = end;
        }
        Behind {
            states,
            entries,
            stored: at,
        }
    }
}
