// Letters and their printed signs (document 01, "Letters, codes, blocks"): each way by a function.
#![tactic(auto)]

ghost use Rattle.std.specs.Prelude.{◌≡◌};
ghost use Rattle.alphabet.specs.Alphabet.{sign_of, letter_of};

// The signs of letters 0 to 63, by letter number.
const SIGNS: [u8; 64] = *b"+-0123456789ABCDEFGHIJKLMNOPQRSTUVWXYZabcdefghijklmnopqrstuvwxyz";

// The sign of a letter; 0, which is no sign, for a number that is no letter.
#[tactic(auto, using(crate::proofs::Table::sign_at, crate::proofs::Undo::sign_past))]
pub fn sign_of(letter: u8) -> u8
    ensures { result ≡ sign_of letter }
{
    if letter < 64 {
        SIGNS[usize::from(letter)]
    } else {
        0
    }
}

// The letter whose sign the byte is, by the byte's range; none for a byte that is no sign.
#[tactic(auto, unfolding(crate::specs::Alphabet::letter_of))]
pub fn letter_of(byte: u8) -> Option<u8>
    ensures { result ≡ letter_of byte }
{
    match byte {
        b'+' => Some(0),
        b'-' => Some(1),
        b'0'..=b'9' => Some(byte - b'0' + 2),
        b'A'..=b'Z' => Some(byte - b'A' + 12),
        b'a'..=b'z' => Some(byte - b'a' + 38),
        _ => None,
    }
}
