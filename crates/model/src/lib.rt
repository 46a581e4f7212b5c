// The types that definitions and code share, and the numbers and words by which others know them. What they mean stands in
// specs/.
#![tactic(auto)]

ghost use Rattle.std.specs.Prelude.{◌≡◌};
ghost use Rattle.model.specs.Refusal.{number as refusal_number_of, refusal_number};
ghost use Rattle.model.specs.Verdict.{number as verdict_number, word};

// Document 01's verdicts.
#[derive(Clone, Copy)]
pub enum Verdict {
    None = 1,
    All = 2,
    One = 3,
    Some = 4,
}

impl Verdict {
    // Its number at the host.
    pub fn number(self) -> u32
        ensures { result ≡ verdict_number self }
    {
        self as u32
    }

    // Its word in the line program.
    pub fn word(self) -> &'static [u8]
        ensures { result.now ≡ word self }
    {
        match self {
            Verdict::None => b"none",
            Verdict::All => b"all",
            Verdict::One => b"one",
            Verdict::Some => b"some",
        }
    }
}

// A block: at least `lower` and at most `upper` letters of `base` (document 01: S, l, u).
#[repr(C)]
#[derive(Clone, Copy)]
pub struct Block {
    pub base: u64,
    pub lower: u16,
    pub upper: u16,
}

impl Block {
    // The block that spells the empty code alone, of no letter.
    pub const EMPTY: Block = Block {
        base: 0,
        lower: 0,
        upper: 0,
    };
}

// The check that failed first, by document 01's number.
#[derive(Clone, Copy)]
pub enum Refusal {
    // Fewer than 4 bytes, or a length field that isn't the number of bytes lent.
    Unframed = 1,
    // A kind other than the one asked for.
    Kind = 2,
    // Shorter than its head.
    Head = 3,
    // States, letters or blocks outside their range.
    OutOfRange = 4,
    // A length that the head does not ask for.
    Size = 5,
    // A start, an accepting bit or a move that names no state.
    Unnamed = 6,
    // A lower bound above its upper bound.
    Crossed = 7,
    // Upper bounds that sum to more than 1,024.
    Uppers = 8,
    // A set with a letter that the book lacks.
    Foreign = 9,
    // An answer buffer shorter than the answer.
    Room = 10,
    // A block number of 0 or above the blocks, or a place above its block's lower bound.
    Missing = 11,
    // A code over 1,024 letters.
    TooLong = 12,
    // A code with a letter that the book lacks.
    Strange = 13,
}

impl Refusal {
    // Its number.
    pub fn number(self) -> u32
        ensures { result ≡ refusal_number_of self }
    {
        self as u32
    }
}

// The refusal number of an answer, 0 for none.
pub fn refusal_number<T>(answer: &Result<T, Refusal>) -> u32
    ensures { result ≡ refusal_number answer.now }
{
    match answer {
        Ok(_) => 0,
        Err(refusal) => refusal.number(),
    }
}
