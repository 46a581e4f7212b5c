// A word followed through the moves of a book, letter by letter.
ghost use Rattle.std.specs.Prelude.{◌≡◌, ◌≤◌, ◌<◌};
ghost use Rattle.model.specs.Automaton as spec;
ghost use Rattle.records.specs.Read as read;
ghost use Rattle.membership.specs.Word.{Letters};

use records::Table;

// The state after the letters of the word from state `start`; the dead state is never left.
#[tactic(auto, using(crate::proofs::Moving::run_more, crate::proofs::Moving::run_dies, model::proofs::Automaton::next_le))]
pub(crate) fn run(table: Table, start: usize, word: &[u8]) -> usize
    requires { (start < table.states) × Letters table.letters word.now }
    ensures { (result ≡ spec.run (read.table table.entry) start word.now) × (result ≤ table.entry.states) }
{
    let mut state = start;
    for letter in word {
        state = table.next(state, usize::from(*letter));
        if state == table.states {
            return table.states;
        }
    }
    state
}
