// The moves of a book: where one state leads by one letter, and one letter from a set of states.
ghost use Rattle.std.specs.Prelude.{◌≡◌, ◌<◌, leb};
ghost use Rattle.model.specs.Automaton as automaton;
ghost use Rattle.records.specs.Check.{some};
ghost use Rattle.propagator.specs.Known as spec;

use records::Table;

// At most 63 states.
#[derive(Clone, Copy)]
pub(crate) struct Moves<'a> {
    pub table: Table<'a>,
    pub ghost small: { table.states < 64 },
}

impl<'a> Moves<'a> {
    ghost use Rattle.records.specs.Read.{table};

    // The state that state `q`, the dead state or one without a number among them, moves to by letter `c`.
    #[tactic(auto, using(crate::proofs::Leading::next_dead, crate::proofs::Leading::next_small))]
    pub(crate) fn next(self, q: usize, c: usize) -> usize
        requires { c < self.table.letters }
        ensures value { result ≡ automaton.next (table self.entry.table) q c }
        ensures small { result < 64 }
    {
        if q < self.table.states {
            return self.table.next(q, c);
        }
        self.table.states
    }

    // The states after the letter `c` from states of `from`.
    pub(crate) fn image(self, from: u64, c: usize) -> u64
        requires { c < self.table.letters }
        ensures { result ≡ spec.image (table self.entry.table) from c }
    {
        bitset::members(from).fold(0, |found, q| bitset::add(found, self.next(q, c)))
    }

    // The states of the book and, where some move names none, the dead state.
    #[tactic(auto, using(crate::proofs::Targets::shifted), unfolding(crate::specs::Known::targets))]
    pub(crate) fn targets(self) -> u64
        requires { 0 < self.table.states }
        ensures { result ≡ spec.targets (table self.entry.table) }
    {
        let states = (1 << self.table.states) - 1;
        if some_missing(self.table.states, self.table.moves) {
            return bitset::add(states, self.table.states);
        }
        states
    }
}

// Whether some move names no state. The greatest move is kept: the compiler then takes many at a time.
fn some_missing(states: usize, moves: &[u8]) -> bool
    ensures { result ≡ some (leb states) moves.now }
{
    moves
        .iter()
        .copied()
        .max()
        .is_some_and(|most| states <= usize::from(most))
}
