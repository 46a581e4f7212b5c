// A set of letters of a book, and where one of them leads from one state.
ghost use Rattle.std.specs.Prelude.{◌≡◌, ◌<◌, ◌^◌};
ghost use Rattle.model.specs.Passes.{reach, between};
ghost use Rattle.propagator.specs.Moves.{Below, leads};

use crate::moving::Moves;

// The set has no other letters than the book's.
#[derive(Clone, Copy)]
pub(crate) struct Letters<'a> {
    pub moves: Moves<'a>,
    pub set: u64,
    pub ghost below: { Below moves.table.letters set },
}

impl<'a> Letters<'a> {
    ghost use Rattle.records.specs.Read.{table};

    // The states after one letter from state `q`.
    pub(crate) fn successors(self, q: usize) -> u64
        ensures { result ≡ reach (table self.entry.moves.table) self.entry.set q }
    {
        let moves = self.moves;
        bitset::members(self.set).fold(0, |found, c| bitset::add(found, moves.next(q, c)))
    }

    // The letters by which state `q` moves to a state of `end`. A loop with an `if`: of that the compiler makes one without a
    // jump, and of a `filter` it does not.
    #[tactic(auto, using(crate::proofs::Leading::letters_start, crate::proofs::Gathering::comes_small))]
    pub(crate) fn letters_to(self, q: usize, end: u64) -> u64
        requires { q < 64 }
        ensures { result ≡ between (table self.entry.moves.table) self.entry.set (2 ^ q) end }
    {
        let mut found = 0;
        for c in bitset::members(self.set) {
            let state = self.moves.next(q, c);
            if bitset::has(end, state) {
                found = bitset::add(found, c);
            }
        }
        found
    }

    // Whether some letter leads from state `q` to a state of `end`.
    pub(crate) fn some_letter_to(self, q: usize, end: u64) -> bool
        ensures { result ≡ leads (table self.entry.moves.table) self.entry.set end q }
    {
        let moves = self.moves;
        bitset::members(self.set).any(|c| bitset::has(end, moves.next(q, c)))
    }
}
