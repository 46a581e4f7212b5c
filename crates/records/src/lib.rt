// Kind 1 and kind 2 records of document 01, "Records": read or refused by the first failing check, and a mask written.
// What the bytes mean stands in specs/.
#![tactic(auto)]

ghost use Rattle.std.specs.Prelude.{◌≡◌, ◌+◌, ◌*◌, ◌≤◌, length};
ghost use Rattle.std.proofs.lemmas.List.Edits.{sets};
ghost use Rattle.records.specs.Bytes.{over};
ghost use Rattle.records.specs.Mask.{read_blocks};
ghost use Rattle.records.specs.Written.{head_bytes, mask_bytes};
ghost use Rattle.records.specs.Read.{ReadsBook, ReadsMask};

mod automaton;
mod block;
mod book;
mod frame;
mod gather;
mod iter;
mod mask;
mod moves;
mod number;
mod table;
mod totals;
mod writer;

pub use book::Book;
use frame::Kind;
pub use frame::length_field;
pub use iter::Blocks;
pub use mask::Mask;
use model::{Block, Refusal};
pub use table::Table;
pub use totals::Totals;
pub use writer::write_block;

// A slice as a book, or the first book check that fails.
#[tactic(auto, using(crate::proofs::Checks::framing, crate::proofs::Checks::few_states, crate::proofs::Checks::start_named, crate::proofs::Checks::few_moves, crate::proofs::Over::part_rest), unfolding(model::specs::Refusal::refuse, crate::specs::Book::book_checks, crate::specs::Check::frame_refusal, crate::specs::Book::moves_of))]
pub fn read_book<'a>(bytes: &'a [u8]) -> Result<Book<'a>, Refusal>
    ensures { ReadsBook bytes.now result }
{
    frame::check(bytes, Kind::Book)?;
    let head = automaton::read_head(bytes);
    if automaton::out_of_range(head) {
        return Err(Refusal::OutOfRange);
    }
    if bytes.len() != 15 + head.states * head.letters {
        return Err(Refusal::Size);
    }
    let moves = &bytes[15..];
    if automaton::unnamed(head, moves) {
        return Err(Refusal::Unnamed);
    }
    let table = Table {
        states: head.states,
        letters: head.letters,
        moves,
    };
    Ok(Book {
        table,
        start: head.start,
        accepting: head.accepting,
    })
}

// A slice as a mask, with the totals of its blocks, or the first mask check that fails.
#[tactic(auto, using(crate::proofs::Checks::framing), unfolding(model::specs::Refusal::refuse, crate::specs::Mask::mask_refusal, crate::specs::Check::frame_refusal))]
pub fn read_mask<'a>(bytes: &'a [u8]) -> Result<(Mask<'a>, Totals), Refusal>
    ensures { ReadsMask bytes.now result }
{
    frame::check(bytes, Kind::Mask)?;
    let count = frame::count_field(bytes);
    if 1024 < count {
        return Err(Refusal::OutOfRange);
    }
    if bytes.len() != 6 + 12 * count {
        return Err(Refusal::Size);
    }
    let totals = gather::totals_of(count, |i| block::block_behind(bytes, i))?;
    Ok((Mask { bytes }, totals))
}

// The totals of blocks, or the first check that fails: 7 and 8.
pub fn check_blocks(blocks: &[Block]) -> Result<Totals, Refusal>
    requires { length blocks.now ≤ 1024 }
    ensures { result ≡ read_blocks blocks.now }
{
    gather::totals_of(blocks.len(), |i| blocks[i])
}

// Writes the six head bytes of a mask of `count` blocks over the first bytes of `out`.
#[tactic(auto, using(crate::proofs::Stores::three_stored), unfolding(crate::specs::Written::head_bytes))]
pub fn write_head(count: usize, out: &mut [u8])
    requires { 6 + 12 * count ≤ length out.old }
    ensures { out.new ≡ sets out.old 0 (head_bytes count) }
{
    number::write(out, 0, 2, (6 + 12 * count) as u64);
    number::write(out, 2, 2, Kind::Mask.number());
    number::write(out, 4, 2, count as u64);
}

// Writes blocks as a kind 2 record over the first bytes of `out`, and returns how many bytes that is. They go into the part
// behind the six head bytes.
#[tactic(auto, using(crate::proofs::Stores::mask_stored))]
pub fn write_mask(blocks: &[Block], out: &mut [u8]) -> usize
    requires { 6 + 12 * length blocks.now ≤ length out.old }
    ensures size { result ≡ 6 + 12 * length blocks.now }
    ensures written { out.new ≡ over (mask_bytes blocks.now) out.old }
{
    write_head(blocks.len(), out);
    writer::write_blocks(blocks, &mut out[6..]);
    6 + 12 * blocks.len()
}
