// Steps 3 to 5 of the passes: back through the blocks, from the last.
ghost use Rattle.std.specs.Prelude.{◌≡◌, ◌+◌, ◌≤◌, length, take};
ghost use Rattle.model.specs.Size.{Room, lower_sum};
ghost use Rattle.model.specs.Passes.{segments_of, segments, final};
ghost use Rattle.propagator.specs.Moves.{Below};
ghost use Rattle.records.specs.Read.{table};
ghost use Rattle.propagator.specs.Rows.{kept_to, entries_to, Inside, stored_by, stored};

use crate::letters::Letters;
use crate::moving::Moves;
use crate::row::{Row, sets_of};
use model::Block;

// One block: makes its entries. `row` are its sets, Q0 before them, and `end` is its E; returns its M0.
#[tactic(auto, using(crate::proofs::Returning::block_long))]
fn narrow_block(moves: Moves, block: Block, row: Row, end: u64, entries: &mut [Block]) -> u64
    requires formed { Below moves.table.letters block.base × (block.lower ≤ block.upper) }
    requires size { length entries.old ≡ block.lower + 1 }
    requires sets { row.sets.now ≡ stored_by (table moves.table) row.first block }
    requires inside { Inside end (final (table moves.table) row.first (segments_of block)) }
    ensures value { result ≡ kept_to (table moves.entry.table) end row.entry.first (segments_of block) }
    ensures entries { entries.new ≡ entries_to (table moves.entry.table) end row.entry.first (segments_of block) }
{
    let letters = Letters {
        moves,
        set: block.base,
    };
    let count = usize::from(block.lower);
    let within = row.set_before(row.sets.len());
    let (places, behind) = row.split_at(count);
    let optional = letters.narrow_optional(block.upper - block.lower, behind.first, within, end);
    entries[count] = optional.block;
    letters.narrow_places(
        places,
        optional.states,
        optional.kept,
        &mut entries[..count],
    )
}

// Goes back through the first `count` blocks and puts the entries of each in its place, over the blocks themselves: block i's
// entries begin at i or behind. `row` are the sets of these blocks, the start before them, and `end` the states kept behind the
// last.
#[tactic(auto, using(crate::proofs::Returning::returning_ends))]
pub(crate) fn go_back(moves: Moves, mut row: Row, end: u64, blocks: &mut [Block], count: usize)
    requires room { Room moves.table.letters (take count blocks.old) }
    requires size { length blocks.old ≡ lower_sum (take count blocks.old) + count }
    requires sets { row.sets.now ≡ stored (table moves.table) row.first (take count blocks.old) }
    requires inside { Inside end (final (table moves.table) row.first (segments (take count blocks.old))) }
    ensures { blocks.new ≡ entries_to (table moves.entry.table) end row.entry.first (segments (take count blocks.old)) }
{
    let mut kept = end;
    let mut at = blocks.len();
    for i in (0..count).rev() {
        let block = blocks[i];
        let (front, own) = row.split_at(row.sets.len() - sets_of(block));
        let behind = at;
        at -= usize::from(block.lower) + 1;
        kept = narrow_block(moves, block, own, kept, &mut blocks[at..behind]);
        row = front;
    }
}
