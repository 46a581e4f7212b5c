// Narrow on a book and a mask that pass the checks: the passes, the normal form, the verdict and the answer.
ghost use Rattle.std.specs.Prelude.{true, not, ◌≡◌, ◌+◌, ◌≤◌, length, take};
ghost use Rattle.model.specs.Set.{has, some_member};
ghost use Rattle.model.specs.NormalForm.{normal};
ghost use Rattle.model.specs.Verdict.{single, every, say};
ghost use Rattle.model.specs.Size.{Fits, Room, uppers};
ghost use Rattle.records.specs.Written.{mask_bytes};
ghost use Rattle.records.specs.Read.{automaton, blocks_of};
ghost use Rattle.operations.specs.Narrow.{Answers, NarrowsGiven};

use crate::Narrowed;
use crate::answer::write_answer;
use crate::pair::Pair;
use model::{Block, Refusal, Verdict};
use records::Book;

// Whether each block has one letter and l = u.
fn all_single(blocks: &[Block]) -> bool
    ensures { result ≡ every single blocks.now }
{
    blocks
        .iter()
        .all(|x| x.lower == x.upper && bitset::one_member(x.base))
}

// The verdict where some code is legal: all, where each state that is possible behind the last block accepts; one, where each
// block of the normal form is single; else some.
fn judge(states: u64, accepting: u64, singles: bool) -> Verdict
    ensures { result ≡ say true (some_member states (λ q. not (has accepting q))) singles }
{
    if bitset::intersection(states, accepting) == states {
        return Verdict::All;
    }
    if singles {
        return Verdict::One;
    }
    Verdict::Some
}

// Where some code is legal: makes the normal form of the narrowed list in its place, writes it over the first bytes of `out`, and
// answers with the verdict. Check 10.
fn conclude(
    states: u64,
    accepting: u64,
    blocks: &mut [Block],
    out: &mut [u8],
) -> Result<Narrowed, Refusal>
    requires { (length blocks.old ≤ 2048) × Room 64 blocks.old }
    ensures { let ys = normal blocks.old in
        Answers (say true (some_member states (λ q. not (has accepting q))) (every single ys)) (mask_bytes ys)
        out.old out.new result }
{
    let first = normal_form::normalize(blocks);
    let normal = &blocks[first..];
    let verdict = judge(states, accepting, all_single(normal));
    let bytes = write_answer(normal, out)?;
    Ok(Narrowed { verdict, bytes })
}

// Narrow on a book and the first `count` of the blocks, in lent room.
#[tactic(auto, using(crate::proofs::Passing::passes_fit))]
pub(crate) fn narrow_blocks(
    book: Book,
    blocks: &mut [Block],
    count: usize,
    sets: &mut [u64],
    out: &mut [u8],
) -> Result<Narrowed, Refusal>
    requires fits { Fits book.table.letters (take count blocks.old) }
    requires lent { (uppers (take count blocks.old) + count ≤ length blocks.old) × (uppers (take count blocks.old) ≤ length sets.old) }
    ensures { NarrowsGiven (automaton book.entry) (take count blocks.old) out.old out.new result }
{
    let passed = propagator::pass(book, blocks, count, sets);
    let accepting = book.accepting;
    if bitset::intersection(passed.states, accepting) == 0 {
        return Ok(Narrowed {
            verdict: Verdict::None,
            bytes: 0,
        });
    }
    conclude(passed.states, accepting, &mut blocks[..passed.entries], out)
}

// Narrow in room for at most MOST blocks whose upper bounds sum to at most MOST; ROOM is twice as much.
pub(crate) fn narrow_sized<const MOST: usize, const ROOM: usize>(
    pair: Pair,
    out: &mut [u8],
) -> Result<Narrowed, Refusal>
    requires { (length (blocks_of pair.mask) ≤ MOST) × (uppers (blocks_of pair.mask) ≤ MOST) × (MOST + MOST ≤ ROOM) × (ROOM ≤ 2048) }
    ensures { NarrowsGiven (automaton pair.entry.book) (blocks_of pair.entry.mask) out.old out.new result }
{
    let mut blocks = [Block::EMPTY; ROOM];
    let mut sets = [0u64; MOST];
    let count = pair.mask.len();
    pair.mask.copy_to(&mut blocks);
    narrow_blocks(pair.book, &mut blocks, count, &mut sets, out)
}
