// Reading the text of a case.
ghost use Rattle.std.specs.Prelude.{ℕ, ◌≡◌, ◌<◌, Some, ◌↔◌, IsTrue, IfSome, All, decimal};
ghost use Rattle.std.specs.Char.{IsAsciiDigit};
ghost use Rattle.case_text.specs.Split.{SplitAt};

use std::str;

// The text before the first such byte and the text behind it; all of it and none where there is no such byte.
pub fn split_at(text: &[u8], byte: u8) -> (&[u8], &[u8])
    ensures { SplitAt byte text.now result.0.now result.1.now }
{
    match text.iter().position(|other| *other == byte) {
        Some(at) => (&text[..at], &text[at + 1..]),
        None => (text, &[]),
    }
}

// The number that decimal digits say; 0 for text that is no number below 100,000.
pub fn number(digits: &[u8]) -> usize
    ensures below { result < 100000 }
    ensures shown { (n : ℕ) → n < 100000 → digits.now ≡ decimal n → result ≡ n }
{
    read_number(digits).map_or(0, |n| n as usize)
}

// The number that decimal digits say; none for text that is no number below 100,000.
#[tactic(auto, using(crate::proofs::Decimal::decimals))]
pub fn read_number(digits: &[u8]) -> Option<u32>
    ensures below { IfSome result (λ n. n < 100000) }
    ensures shown { (n : ℕ) → n < 100000 → digits.now ≡ decimal n → result ≡ Some n }
{
    if !are_digits(digits) {
        return None;
    }
    let n = str::from_utf8(digits).ok()?.parse::<u32>().ok()?;
    if n < 100000 { Some(n) } else { None }
}

// Whether each byte is a decimal digit.
fn are_digits(text: &[u8]) -> bool
    ensures { IsTrue result ↔ All IsAsciiDigit text.now }
{
    text.iter().all(u8::is_ascii_digit)
}
