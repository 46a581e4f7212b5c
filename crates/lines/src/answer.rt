// The line of a mask, from narrow's answer.
ghost use Rattle.std.specs.Prelude.{◌≡◌, ◌≤◌, length, take};
ghost use Rattle.records.specs.Mask.{mask_of};
ghost use Rattle.records.specs.Read.{blocks_of};
ghost use Rattle.records.specs.WellFormed.{MaskRecord};
ghost use Rattle.lines.specs.Line.{verdict_line, mask_line};
ghost use Rattle.lines.specs.Sums.{Recorded, Sum};

use crate::text::{Line, refused_line, verdict_line};
use operations::Narrowed;
use records::Mask;

// How many blocks a mask has, and the sums of their lower and of their upper bounds.
#[derive(Clone, Copy, Default)]
pub(crate) struct Sums {
    pub blocks: u64,
    pub lowers: u64,
    pub uppers: u64,
}

// The sums of a mask's blocks.
#[tactic(auto, using(records::proofs::Offsets::blocks_counted, crate::proofs::Summing::lowers_few), unfolding(model::specs::Size::lower_sum))]
fn sums_of(mask: Mask) -> Sums
    requires { MaskRecord mask.bytes.now }
    ensures { Sum (blocks_of mask.entry) result }
{
    let mut sums = Sums::default();
    for block in mask.blocks() {
        sums.blocks += 1;
        sums.lowers += u64::from(block.lower);
        sums.uppers += u64::from(block.upper);
    }
    sums
}

// The line of a mask from narrow's answer, whose bytes stand at the start of `answer`: a record, or nothing for none.
#[tactic(auto, using(crate::proofs::Summing::nothing_line))]
fn answer_line(number: u64, got: Narrowed, answer: &[u8]) -> Line
    requires { (got.bytes ≤ length answer.now) × Recorded (take got.bytes answer.now) }
    ensures { result ≡ verdict_line number got.verdict (mask_of (take got.bytes answer.now)) }
{
    let written = &answer[..got.bytes as usize];
    let sums = if written.is_empty() {
        Sums::default()
    } else {
        sums_of(Mask { bytes: written })
    };
    verdict_line(number, got.verdict, sums)
}

// The line of a mask. `answer` is room for narrow's answer.
pub(crate) fn mask_line(book: &[u8], mask: &[u8], number: u64, answer: &mut [u8]) -> Line
    requires { 12294 ≤ length answer.old }
    ensures { result ≡ mask_line book.now number mask.now }
{
    match operations::narrow(book, mask, answer) {
        Ok(got) => answer_line(number, got, answer),
        Err(refusal) => refused_line(number, refusal),
    }
}
