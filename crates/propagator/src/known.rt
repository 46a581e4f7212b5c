// The states after one letter of a set, from what is worked out once and remembered: the successors of single states while the
// letters are the same, and the images of single letters (images.rt) while the states are.
ghost use Rattle.std.specs.Prelude.{◌≡◌, ◌<◌};
ghost use Rattle.model.specs.Passes.{reach, after};
ghost use Rattle.propagator.specs.Moves.{Below};
ghost use Rattle.records.specs.Read.{table};
ghost use Rattle.propagator.specs.Known as spec;
ghost use Rattle.propagator.specs.Known.{image, Remembers, Targets};

use crate::letters::Letters;
use crate::memo::Memo;
use crate::moving::Moves;

// `by_state` remembers what single states reach by one of the letters, and `by_letter` what the states of `from` reach by single
// letters. `targets` are the states that moves lead to.
#[derive(Drop)]
pub(crate) struct Steps<'a> {
    pub letters: Letters<'a>,
    pub by_state: Memo,
    pub by_letter: Memo,
    pub from: u64,
    pub targets: u64,
    pub ghost states: { Remembers by_state (reach (table letters.moves.table) letters.set) },
    pub ghost images: { Remembers by_letter (image (table letters.moves.table) from) },
    pub ghost bounds: { Targets (table letters.moves.table) targets },
}

impl<'a> Steps<'a> {
    // By no letter, and nothing is known but where moves lead.
    #[tactic(auto, using(model::proofs::Set::in_none))]
    pub(crate) fn new(moves: Moves<'a>) -> Steps<'a>
        requires { 0 < moves.table.states }
        ensures { result.letters.moves ≡ moves.entry }
    {
        Steps {
            letters: Letters { moves, set: 0 },
            by_state: Memo::new(),
            by_letter: Memo::new(),
            from: 0,
            targets: moves.targets(),
        }
    }

    // Turns to the letters of `set`: what was worked out for another set is forgotten.
    #[tactic(auto, using(model::proofs::Set::in_none))]
    pub(crate) fn turn_to(&mut self, set: u64)
        requires { Below self.old.letters.moves.table.letters set }
        ensures turned { self.new.letters.set ≡ set }
        ensures moves { self.new.letters.moves ≡ self.old.letters.moves }
    {
        if self.letters.set != set {
            self.by_state.forget();
            self.letters = Letters {
                moves: self.letters.moves,
                set,
            };
        }
    }

    // The states after one of the letters from state `q`.
    fn recall(&mut self, q: usize) -> u64
        requires { q < 64 }
        ensures value { result ≡ reach (table self.old.letters.moves.table) self.old.letters.set q }
        ensures same { self.new.letters ≡ self.old.letters }
    {
        let letters = self.letters;
        self.by_state.recall(q, |q| letters.successors(q))
    }

    // The states that one letter can lead to from states of `from`.
    #[tactic(auto, unfolding(crate::specs::Known::limit))]
    fn limit(&self, from: u64) -> u64
        ensures { result ≡ spec.limit self.now.letters.moves.table.states self.now.targets from }
    {
        let states = self.letters.moves.table.states;
        if bitset::some_from(from, states) {
            return bitset::add(self.targets, states);
        }
        self.targets
    }

    // The states after one of the letters from states of `from`, state by state, until all that a letter can lead to are found.
    #[tactic(auto, using(crate::proofs::Remembered::stepping_starts, crate::proofs::Gathering::comes_small))]
    fn step_by_states(&mut self, from: u64) -> u64
        ensures value { result ≡ after (table self.old.letters.moves.table) self.old.letters.set from }
        ensures same { self.new.letters ≡ self.old.letters }
    {
        let most = self.limit(from);
        let mut found = 0;
        for q in bitset::members(from) {
            if found == most {
                return found;
            }
            found = bitset::union(found, self.recall(q));
        }
        found
    }

    // The states after one of the letters from states of `from`: letter by letter where the last step was from these states too.
    #[tactic(auto, using(model::proofs::Set::in_none))]
    pub(crate) fn step(&mut self, from: u64) -> u64
        ensures value { result ≡ after (table self.old.letters.moves.table) self.old.letters.set from }
        ensures same { self.new.letters ≡ self.old.letters }
    {
        if self.from == from {
            return self.step_by_letters();
        }
        self.by_letter.forget();
        self.from = from;
        self.step_by_states(from)
    }
}
