// The operations of document 01 on records. What they answer, write and mean stands in specs/.
#![tactic(auto)]

ghost use Rattle.std.specs.Prelude.{◌≡◌, ◌≤◌, length, take};
ghost use Rattle.operations.specs.Pair.{from_record, from_list};
ghost use Rattle.operations.specs.Narrow.{Narrows};
ghost use Rattle.operations.specs.Placed.{Places};
ghost use Rattle.operations.specs.Tidy.{Tidies};
ghost use Rattle.operations.specs.Try.{Tries};

mod answer;
mod joined;
mod narrowing;
mod pair;
mod placing;

use answer::write_tidied;
use model::{Block, Refusal, Verdict};
use narrowing::{narrow_blocks, narrow_sized};
use pair::{Pair, check_letters};
use placing::{missing, place_entry};

// What narrow answers: the verdict, and how many bytes it wrote.
#[derive(Clone, Copy)]
pub struct Narrowed {
    pub verdict: Verdict,
    pub bytes: u32,
}

// What try answers: whether the mask spells the code, and whether the book accepts it.
#[derive(Clone, Copy)]
pub struct Tried {
    pub mask: bool,
    pub book: bool,
}

// Narrow: the verdict on a book and a mask, with the narrowed mask written over the first bytes of `out`; for none nothing is
// written. Book checks, mask checks, 9, 10. For a small mask little room is cleared.
pub fn narrow(book: &[u8], mask: &[u8], out: &mut [u8]) -> Result<Narrowed, Refusal>
    ensures { Narrows (from_record book.now mask.now) out.old out.new result }
{
    let pair = Pair::read(book, mask)?;
    if pair.is_small() {
        return narrow_sized::<64, 128>(pair, out);
    }
    narrow_sized::<1024, 2048>(pair, out)
}

// Copies blocks over the first entries of a room.
fn copy_blocks(blocks: &[Block], room: &mut [Block])
    requires { length blocks.now ≤ length room.old }
    ensures copied { take (length blocks.now) room.new ≡ blocks.now }
    ensures size { length room.new ≡ length room.old }
{
    room[..blocks.len()].copy_from_slice(blocks);
}

// Narrow on a mask that is lent as a list of blocks. Book checks, 4, 7, 8, 9, 10.
pub fn narrow_list(book: &[u8], blocks: &[Block], out: &mut [u8]) -> Result<Narrowed, Refusal>
    ensures { Narrows (from_list book.now blocks.now) out.old out.new result }
{
    let book = records::read_book(book)?;
    let count = blocks.len();
    if 1024 < count {
        return Err(Refusal::OutOfRange);
    }
    let totals = records::check_blocks(blocks)?;
    check_letters(book, totals)?;
    let mut room = [Block::EMPTY; 2048];
    let mut sets = [0u64; 1024];
    copy_blocks(blocks, &mut room);
    narrow_blocks(book, &mut room, count, &mut sets, out)
}

// Tidy: writes the normal form of a mask over the first bytes of `out`, and returns how many bytes that is. Mask checks, then 10.
pub fn tidy(mask: &[u8], out: &mut [u8]) -> Result<u32, Refusal>
    ensures { Tidies mask.now out.old out.new result }
{
    let (mask, _) = records::read_mask(mask)?;
    write_tidied(mask, out)
}

// Place: the set and bounds of a block, from 1, and a place, in the narrowed list before dropping or joining; place 0 is the
// optional part. Book checks, mask checks, 9, 11.
#[tactic(auto, using(std::proofs::lemmas::Result::err_from_is_err_and, crate::proofs::Placed::place_refused, crate::proofs::Placed::place_missing))]
pub fn place(book: &[u8], mask: &[u8], block: u32, place: u32) -> Result<Block, Refusal>
    ensures { Places book.now mask.now block place result }
{
    let pair = Pair::read(book, mask)?;
    let (block, place) = (block as usize, place as usize);
    if missing(pair.mask, block, place) {
        return Err(Refusal::Missing);
    }
    Ok(place_entry(pair, block, place))
}

// Try: whether the mask spells a code, one letter number a byte, and whether the book accepts it. Book checks, mask checks,
// 9, 12, 13.
#[tactic(auto, using(crate::proofs::Trying::try_letters))]
pub fn try_word(book: &[u8], mask: &[u8], word: &[u8]) -> Result<Tried, Refusal>
    ensures { Tries book.now mask.now word.now result }
{
    let pair = Pair::read(book, mask)?;
    if 1024 < word.len() {
        return Err(Refusal::TooLong);
    }
    if membership::some_strange(word, pair.book.table.letters) {
        return Err(Refusal::Strange);
    }
    Ok(Tried {
        mask: membership::spells(pair.mask, word),
        book: membership::accepts(pair.book, word),
    })
}
