// The states after one letter of a set, letter by letter, from the same states as in the last step.
ghost use Rattle.std.specs.Prelude.{◌≡◌, ◌<◌};
ghost use Rattle.model.specs.Passes.{after};
ghost use Rattle.records.specs.Read.{table};
ghost use Rattle.propagator.specs.Known.{image};

use crate::known::Steps;

impl<'a> Steps<'a> {
    // The states after the letter `c`.
    fn recall_image(&mut self, c: usize) -> u64
        requires { (c < self.old.letters.moves.table.letters) × (c < 64) }
        ensures value { result ≡ image (table self.old.letters.moves.table) self.old.from c }
        ensures same { (self.new.letters ≡ self.old.letters) × (self.new.from ≡ self.old.from) }
    {
        let (moves, from) = (self.letters.moves, self.from);
        self.by_letter.recall(c, |c| moves.image(from, c))
    }

    // The states after one of the letters.
    #[tactic(auto, using(crate::proofs::Remembered::imaging_starts, crate::proofs::Remembered::imaging_ends))]
    pub(crate) fn step_by_letters(&mut self) -> u64
        ensures value { result ≡ after (table self.old.letters.moves.table) self.old.letters.set self.old.from }
        ensures same { self.new.letters ≡ self.old.letters }
    {
        let mut found = 0;
        for c in bitset::members(self.letters.set) {
            found = bitset::union(found, self.recall_image(c));
        }
        found
    }
}
