// The numbers and the parts of a case's text.
ghost use Rattle.std.specs.Prelude.{◌≤◌, ◌<◌, length, IfSome};

use crate::books;
use case_text::{hex, text};

// What lies behind the first `i` such bytes, up to the next; nothing where there are fewer.
fn part(case: &[u8], i: usize, byte: u8) -> &[u8] {
    case.split(|other| *other == byte)
        .nth(i)
        .unwrap_or_default()
}

// Number `i` of the command, from 1: the word behind as many blanks. A word that is no number says 0.
pub fn number(case: &[u8], i: usize) -> u32
    ensures { result < 100000 }
{
    text::number(part(case, i, b' ')) as u32
}

// The bytes of part `i`, from 1, put at the start of the room: those of a book's sign, or those in hex; none for text that
// cannot be read. A part that is not there has none.
pub fn read<'a>(case: &[u8], i: usize, room: &'a mut [u8]) -> Option<&'a [u8]>
    ensures { IfSome result (λ bytes. length bytes.now ≤ length room.old) }
{
    let tokens = match part(case, i, b';') {
        b" A " => books::A,
        b" B " => books::B,
        b" C " => books::C,
        part => part,
    };
    hex::read_bytes(tokens, room)
}
