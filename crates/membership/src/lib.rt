// The two questions of the operation try (01, "Try"): whether a mask spells a word (01: a code), and whether a book accepts
// it; and check 13. A word is lent as a slice of letters.
#![tactic(auto)]

ghost use Rattle.std.specs.Prelude.{◌≡◌, ◌≤◌, length};
ghost use Rattle.model.specs.Membership as spec;
ghost use Rattle.records.specs.Read.{automaton, blocks_of};
ghost use Rattle.membership.specs.Word.{strange, Letters};

mod following;
mod marking;

use marking::extend;
use records::{Book, Mask};

// Check 13: whether the word has a letter that is `letters` or above.
#[tactic(auto, unfolding(crate::specs::Word::strange))]
pub fn some_strange(word: &[u8], letters: usize) -> bool
    ensures { result ≡ strange letters word.now }
{
    word.iter().any(|letter| letters <= usize::from(*letter))
}

// Whether the mask spells the word. No cut is tried after another: block by block, it marks the positions of the word up to
// which the blocks so far spell it, in two arrays by turns.
#[tactic(auto, using(std::proofs::lemmas::Grind::common_steps, crate::proofs::Comparing::marks_more, crate::proofs::Comparing::marks_end))]
pub fn spells(mask: Mask, word: &[u8]) -> bool
    requires short { (length word.now ≤ 1024) × Letters 64 word.now }
    ensures { result ≡ spec.spells (blocks_of mask.entry) word.now }
{
    let mut marks = [false; 1025];
    let mut others = [false; 1025];
    let (mut from, mut to) = (&mut marks, &mut others);
    from[0] = true;
    for block in mask.blocks() {
        extend(word, block, from, to);
        std::mem::swap(&mut from, &mut to);
    }
    from[word.len()]
}

// Whether the book accepts the word.
#[tactic(auto, using(crate::proofs::Moving::accepts_there))]
pub fn accepts(book: Book, word: &[u8]) -> bool
    requires letters { Letters book.table.letters word.now }
    ensures { result ≡ spec.accepts (automaton book.entry) word.now }
{
    bitset::has(book.accepting, following::run(book.table, book.start, word))
}
