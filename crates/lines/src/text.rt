// The text of a line, in a buffer of its own. No line is longer than 92 bytes.
ghost use Rattle.std.specs.Prelude.{◌≡◌, ◌++◌, ◌+◌, ◌≤◌, [], length, take, slice_index};
ghost use Rattle.lines.specs.Text.{decimal};
ghost use Rattle.model.specs.Verdict.{word};
ghost use Rattle.lines.specs.Line.{spaced, line, refused_line, book_line};

use crate::answer::Sums;
use model::{Refusal, Verdict};
use std::marker::Model;

pub(crate) const LONGEST: usize = 92;

// A line as far as it is made.
#[derive(Drop)]
pub struct Line {
    bytes: [u8; LONGEST],
    size: usize,
}

impl Model for Line {
    ghost use Rattle.std.specs.Prelude.{ℕ, List, ◌≤◌, take};

    ghost Value = { List ℕ };

    ghost view = { λ l. take l.size l.bytes };

    ghost invariant = { λ l. l.size ≤ 92 };
}

impl Line {
    // No text.
    pub(crate) fn new() -> Line
        ensures { result ≡ [] }
    {
        Line {
            bytes: [0; LONGEST],
            size: 0,
        }
    }

    // Its bytes.
    pub fn as_slice(&self) -> &[u8]
        ensures text { result.now ≡ self.now }
        ensures fits { length result.now ≤ 92 }
    {
        &self.bytes[..self.size]
    }

    // Copies its bytes to the start of `out`, and returns how many they are.
    pub(crate) fn copy_to(&self, out: &mut [u8]) -> usize
        requires { 92 ≤ length out.old }
        ensures { (result ≡ length self.now) × (take result out.new ≡ self.now) }
    {
        let text = self.as_slice();
        out[..text.len()].copy_from_slice(text);
        text.len()
    }

    // Puts bytes behind it.
    fn put(&mut self, text: &[u8])
        requires { length self.old + length text.now ≤ 92 }
        ensures { self.new ≡ self.old ++ text.now }
    {
        let end = self.size + text.len();
        self.bytes[self.size..end].copy_from_slice(text);
        self.size = end;
    }

    // Puts a number in decimal.
    #[tactic(auto, using(crate::proofs::Appending::decimal_put))]
    fn put_decimal(&mut self, n: u64)
        requires { length self.old + 20 ≤ 92 }
        ensures { self.new ≡ self.old ++ decimal n }
    {
        let mut digits = [0u8; 20];
        let count = io::decimal(n, &mut digits);
        self.put(&digits[..count]);
    }

    // Puts a blank and a number.
    fn put_next(&mut self, n: u64)
        requires { length self.old + 21 ≤ 92 }
        ensures { self.new ≡ self.old ++ spaced n }
    {
        self.put(b" ");
        self.put_decimal(n);
    }
}

// A mask's line: its number, a word and three numbers.
#[tactic(auto, using(std::proofs::lemmas::Grind::common_steps, crate::proofs::Appending::decimal_few, crate::proofs::Appending::spaced_few))]
fn numbered(number: u64, word: &[u8], numbers: [u64; 3]) -> Line
    requires { length word.now ≤ 7 }
    ensures { result ≡ line number word.now (slice_index numbers 0) (slice_index numbers 1) (slice_index numbers 2) }
{
    let [a, b, c] = numbers;
    let mut line = Line::new();
    line.put_decimal(number);
    line.put(b" ");
    line.put(word);
    line.put_next(a);
    line.put_next(b);
    line.put_next(c);
    line.put(b"\n");
    line
}

// The line of a mask that is not refused: its number, the verdict, and three numbers of the answer.
pub(crate) fn verdict_line(number: u64, verdict: Verdict, sums: Sums) -> Line
    ensures { result ≡ line number (word verdict) sums.blocks sums.lowers sums.uppers }
{
    numbered(
        number,
        verdict.word(),
        [sums.blocks, sums.lowers, sums.uppers],
    )
}

// The line of a refused mask.
pub(crate) fn refused_line(number: u64, refusal: Refusal) -> Line
    ensures { result ≡ refused_line number refusal }
{
    numbered(number, b"refused", [u64::from(refusal.number()), 0, 0])
}

// The line of a refused book.
#[tactic(auto, using(crate::proofs::Appending::digits_few))]
pub fn book_line(refusal: Refusal) -> Line
    ensures { result ≡ book_line refusal }
{
    let mut line = Line::new();
    line.put(b"book refused");
    line.put_next(u64::from(refusal.number()));
    line.put(b"\n");
    line
}
