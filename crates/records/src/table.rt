// The moves of a book.
ghost use Rattle.std.specs.Prelude.{◌≡◌, ◌*◌, ◌<◌, ◌≤◌, length};
ghost use Rattle.model.specs.Automaton as spec;

// So many states and letters, and a move for each state and letter, state by state.
#[derive(Clone, Copy)]
pub struct Table<'a> {
    pub states: usize,
    pub letters: usize,
    pub moves: &'a [u8],
    pub ghost enough: { states * letters ≤ length moves.now },
}

impl<'a> Table<'a> {
    ghost use Rattle.records.specs.Read.{table};

    // The state that state `q` moves to by letter `c`: `states`, the dead state, where the move names none.
    #[tactic(auto, using(crate::proofs::Next::next_names, crate::proofs::Next::next_dead))]
    pub fn next(self, q: usize, c: usize) -> usize
        requires { (q < self.states) × (c < self.letters) }
        ensures { result ≡ spec.next (table self.entry) q c }
    {
        usize::from(self.moves[q * self.letters + c]).min(self.states)
    }
}
