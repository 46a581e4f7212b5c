// The head of a kind 1 record, and the checks of its numbers and of its moves.
ghost use Rattle.std.specs.Prelude.{◌≡◌, ◌≤◌, length};
ghost use Rattle.records.specs.Book as spec;

use crate::{moves, number};

// The numbers of a kind 1 record: n, m, the start and the accepting states.
#[derive(Clone, Copy)]
pub(crate) struct BookHead {
    pub states: usize,
    pub letters: usize,
    pub start: usize,
    pub accepting: u64,
}

// The numbers of the head.
#[tactic(auto, unfolding(crate::specs::Book::book_head))]
pub(crate) fn read_head(bytes: &[u8]) -> BookHead
    requires { 15 ≤ length bytes.now }
    ensures { result ≡ spec.book_head bytes.now }
{
    BookHead {
        states: usize::from(bytes[4]),
        letters: usize::from(bytes[5]),
        start: usize::from(bytes[6]),
        accepting: number::read(bytes, 7, 8),
    }
}

// Whether a number is outside the range from 1 to `most`.
fn outside(most: usize, x: usize) -> bool
    ensures { result ≡ spec.outside most x }
{
    x == 0 || most < x
}

// Check 4: whether n or m is outside its range.
#[tactic(auto, unfolding(crate::specs::Book::out_of_range))]
pub(crate) fn out_of_range(head: BookHead) -> bool
    ensures { result ≡ spec.out_of_range head }
{
    outside(63, head.states) || outside(64, head.letters)
}

// Check 6: whether the start, an accepting bit or a move names no state.
#[tactic(auto, unfolding(crate::specs::Book::unnamed))]
pub(crate) fn unnamed(head: BookHead, moves: &[u8]) -> bool
    ensures { result ≡ spec.unnamed head moves.now }
{
    head.states <= head.start
        || bitset::some_from(head.accepting, head.states)
        || moves::some_stray(head.states, moves)
}
