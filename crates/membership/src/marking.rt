// One block's pass over the positions of a word. Position j stands behind the first j letters.
ghost use Rattle.std.specs.Prelude.{◌+◌, ◌-◌, ◌≤◌, ◌<◌, ◌↔◌, T, length};
ghost use Rattle.membership.specs.Word.{Letters};
ghost use Rattle.membership.specs.Marks.{marked, outside, one_more, Last, Extends};

use model::Block;

// Where the run of letters of the set that ends at position `j` begins: behind the last letter outside the set. `start` is
// where the run begins that ends at the position before.
fn run_start(word: &[u8], base: u64, j: usize, start: usize) -> usize
    requires position { (j ≤ length word.now) × Letters 64 word.now }
    requires last { Last (outside base word.now) (j - 1) start }
    ensures { Last (outside base word.now) j result }
{
    if j == 0 || bitset::has(base, usize::from(word[j - 1])) {
        start
    } else {
        j
    }
}

// The last marked position from which there are at least `lower` letters to position `j`. `before` is the same for the
// position before.
fn latest(from: &[bool], lower: u16, j: usize, before: Option<usize>) -> Option<usize>
    requires position { j < length from.now }
    requires last { Last (marked from.now) (j - lower) (one_more before) }
    ensures { Last (marked from.now) (j + 1 - lower) (one_more result) }
{
    match j.checked_sub(usize::from(lower)) {
        Some(begin) if from[begin] => Some(begin),
        _ => before,
    }
}

// Whether a piece may go from position `begin` to `j`: it begins at `start` or behind, and has at most `upper` letters.
fn reaches(start: usize, begin: Option<usize>, upper: u16, j: usize) -> bool
    requires { one_more begin ≤ j + 1 }
    ensures { T result ↔ ((start < one_more begin) × (j < one_more begin + upper)) }
{
    begin.is_some_and(|begin| start <= begin && j - begin <= usize::from(upper))
}

// Marks in `to` the positions at which a piece of the block ends that begins at a position marked in `from`. Of the marked
// positions with enough letters behind them the last decides: where a piece from an earlier one is within the set and short
// enough, so is the piece from there.
pub(crate) fn extend(word: &[u8], block: Block, from: &[bool], to: &mut [bool])
    requires marks_fit { (length word.now < length from.now) × (length word.now < length to.old) }
    requires letters { Letters 64 word.now }
    ensures { Extends block word.now from.now to.new }
{
    let mut start = 0;
    let mut begin = None;
    for j in 0..=word.len() {
        start = run_start(word, block.base, j, start);
        begin = latest(from, block.lower, j, begin);
        to[j] = reaches(start, begin, block.upper, j);
    }
}
