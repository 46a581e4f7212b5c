// The moves of a book, n times m bytes, state by state.
ghost use Rattle.std.specs.Prelude.{◌≡◌};
ghost use Rattle.records.specs.Check.{some};
ghost use Rattle.records.specs.Book.{stray};

// Whether some move names no state, and isn't 255. What is kept is the greatest move plus 1, where 255 plus 1 is 0: the compiler
// then takes many moves at a time.
pub(crate) fn some_stray(states: usize, moves: &[u8]) -> bool
    ensures { result ≡ some (stray states) moves.now }
{
    moves
        .iter()
        .map(|to| to.wrapping_add(1))
        .max()
        .is_some_and(|most| states < usize::from(most))
}
