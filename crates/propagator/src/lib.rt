// The passes of document 01 on a book and the blocks of a mask: forward through the blocks, and back. All room that grows with
// the blocks is lent.
#![tactic(auto)]

ghost use Rattle.std.specs.Prelude.{◌+◌, ◌≤◌, length, take};
ghost use Rattle.model.specs.Size.{Room, lower_sum};
ghost use Rattle.records.specs.Read.{automaton};
ghost use Rattle.propagator.specs.Rows.{stored_sum, Leaves};

mod ahead;
mod back;
mod images;
mod known;
mod letters;
mod memo;
mod moving;
mod optional;
mod places;
mod row;

use ahead::Behind;
use back::go_back;
use known::Steps;
use model::Block;
use moving::Moves;
use records::Book;
use row::Row;

// What the passes found: the states possible behind the last block, and how many entries the narrowed list has.
#[derive(Clone, Copy)]
pub struct Passed {
    pub states: u64,
    pub entries: usize,
}

// The passes over the first `count` blocks. Where some code is legal, the first entries of the slice are the narrowed list then;
// else nothing is said of them. `sets` is room.
pub fn pass(book: Book, blocks: &mut [Block], count: usize, sets: &mut [u64]) -> Passed
    requires room { Room book.table.letters (take count blocks.old) }
    requires blocks_fit { lower_sum (take count blocks.old) + count ≤ length blocks.old }
    requires sets_fit { stored_sum (take count blocks.old) ≤ length sets.old }
    ensures { Leaves (automaton book.entry) (take count blocks.old) blocks.new result }
{
    let moves = Moves { table: book.table };
    let mut steps = Steps::new(moves);
    let start = bitset::add(0, book.start);
    let Behind {
        states,
        entries,
        stored,
    } = steps.go_ahead(&blocks[..count], start, sets);
    let end = bitset::intersection(states, book.accepting);
    if end != 0 {
        let row = Row {
            first: start,
            sets: &sets[..stored],
        };
        go_back(moves, row, end, &mut blocks[..entries], count);
    }
    Passed { states, entries }
}
