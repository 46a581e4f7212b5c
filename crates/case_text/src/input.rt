// The input of a program that runs cases.
ghost use Rattle.std.specs.Prelude.{◌≤◌, length};

use std::io::Read;

// Reads until the room is full, or to the end of the input or a read that fails, and returns what was read.
pub fn read_full<'a>(reader: &mut impl Read, room: &'a mut [u8]) -> &'a [u8]
    ensures { length result.now ≤ length room.old }
{
    let mut size = 0;
    while size < room.len() {
        match reader.read(&mut room[size..]) {
            Ok(0) | Err(_) => break,
            Ok(more) => size += more,
        }
    }
    &room[..size]
}
