// The entry of the narrowed list that place returns.
ghost use Rattle.std.specs.Prelude.{false, ◌≡◌, ◌+◌, ◌≤◌, ◌<◌, length};
ghost use Rattle.model.specs.DashedString.{block_at};
ghost use Rattle.model.specs.Place.{begins, entry_of, place as placed};
ghost use Rattle.model.specs.Size.{uppers, lower_sum};
ghost use Rattle.records.specs.Read.{automaton, blocks_of};
ghost use Rattle.operations.specs.Placed.{missing as absent, entry_at};

use crate::pair::Pair;
use model::Block;
use records::Mask;

// Check 11: a block number of 0 or above the number of blocks, or a place above the block's lower bound.
#[tactic(auto, unfolding(crate::specs::Placed::missing))]
pub(crate) fn missing(mask: Mask, block: usize, place: usize) -> bool
    ensures { result ≡ absent (blocks_of mask.entry) block place }
{
    block == 0 || mask.len() < block || usize::from(mask.block(block - 1).lower) < place
}

// Where the entries of a block, from 0, begin in the narrowed list: each block before has l + 1 of them, of which a mask that fits
// has few.
fn first_entry(pair: Pair, block: usize) -> usize
    requires { block < length (blocks_of pair.mask) }
    ensures { result ≡ begins (blocks_of pair.entry.mask) block }
{
    pair.mask
        .blocks()
        .take(block)
        .map(|x| usize::from(x.lower) + 1)
        .sum()
}

// The number of the entry of a block, from 0, and a place; place 0 is the optional part, behind the places.
fn entry_of(pair: Pair, block: usize, place: usize) -> usize
    requires block_there { block < length (blocks_of pair.mask) }
    requires place_there { place ≤ (block_at (blocks_of pair.mask) block).lower }
    ensures { result ≡ entry_of (blocks_of pair.entry.mask) block place }
{
    let first = first_entry(pair, block);
    if place == 0 {
        return first + usize::from(pair.mask.block(block).lower);
    }
    first + (place - 1)
}

// The set and bounds that place answers with, of a block, from 1, and a place, neither of them missing.
#[tactic(auto, using(crate::proofs::EntryNumbers::entry_within, crate::proofs::Placed::none_missing), unfolding(model::specs::Place::place))]
pub(crate) fn place_entry(pair: Pair, block: usize, place: usize) -> Block
    requires { absent (blocks_of pair.mask) block place ≡ false }
    ensures { result ≡ placed (automaton pair.entry.book) (blocks_of pair.entry.mask) block place }
{
    let entry = entry_of(pair, block - 1, place);
    if pair.is_small() {
        return place_sized::<64, 128>(pair, entry);
    }
    place_sized::<1024, 2048>(pair, entry)
}

// An entry of the narrowed list, or the empty block where no code is legal, in room for at most MOST blocks whose upper bounds
// sum to at most MOST; ROOM is twice as much.
#[tactic(auto, using(crate::proofs::Passing::passes_fit))]
fn place_sized<const MOST: usize, const ROOM: usize>(pair: Pair, entry: usize) -> Block
    requires bound { entry < lower_sum (blocks_of pair.mask) + length (blocks_of pair.mask) }
    requires room { (length (blocks_of pair.mask) ≤ MOST) × (uppers (blocks_of pair.mask) ≤ MOST) × (MOST + MOST ≤ ROOM) × (ROOM ≤ 2048) }
    ensures { result ≡ entry_at (automaton pair.entry.book) (blocks_of pair.entry.mask) entry }
{
    let mut blocks = [Block::EMPTY; ROOM];
    let mut sets = [0u64; MOST];
    let count = pair.mask.len();
    pair.mask.copy_to(&mut blocks);
    let passed = propagator::pass(pair.book, &mut blocks, count, &mut sets);
    if bitset::intersection(passed.states, pair.book.accepting) == 0 {
        return Block::EMPTY;
    }
    blocks[entry]
}
