// Bytes from hex text: tokens with blanks between, each two hex digits, or `*N` behind a byte that stands N times in all.
ghost use Rattle.std.specs.Prelude.{◌≤◌, ◌<◌, length, IfSome};

use crate::text;

// The bytes that the text says, put at the start of the room; none for text that cannot be read, or that says more than fit.
pub fn read_bytes<'a>(tokens: &[u8], room: &'a mut [u8]) -> Option<&'a [u8]>
    ensures { IfSome result (λ bytes. length bytes.now ≤ length room.old) }
{
    let mut count = 0;
    let mut last = None;
    for token in tokens
        .split(|byte| *byte == b' ')
        .filter(|token| !token.is_empty())
    {
        let (byte, times) = read_token(token, last)?;
        let end = count + times as usize;
        room.get_mut(count..end)?.fill(byte);
        (count, last) = (end, Some(byte));
    }
    Some(&room[..count])
}

// The byte that a token says, and how many times; `last` is the byte before.
fn read_token(token: &[u8], last: Option<u8>) -> Option<(u8, u32)>
    ensures { IfSome result (λ said. said.1 < 100000) }
{
    match token {
        [b'*', digits @ ..] => Some((last?, text::read_number(digits)?.checked_sub(1)?)),
        [high, low] => Some((byte(*high, *low)?, 1)),
        _ => None,
    }
}

// The byte that two hex digits say, of either case.
fn byte(high: u8, low: u8) -> Option<u8> {
    let high = char::from(high).to_digit(16)?;
    let low = char::from(low).to_digit(16)?;
    Some((high * 16 + low) as u8)
}
