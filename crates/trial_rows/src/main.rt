// Runs the cases of standard input, one a line, through the operations of document 01, and writes a line for each. A case is
// `NAME: COMMAND`, with the command's numbers, and its parts, each behind a `;`:
//
//   narrow ROOM ; BOOK ; MASK            ROOM is how many bytes of answer buffer are lent
//   tidy ROOM ; MASK
//   place BLOCK PLACE ; BOOK ; MASK
//   try ; BOOK ; MASK ; CODE
//
// A part is bytes in hex; a book may be one of 01's, `A`, `B` or `C`. An empty line and a line that starts with `#` are none.
#![tactic(auto)]

mod books;
mod calls;
mod masks;
mod parts;

use case_text::{case, input, show, text};
use std::io;
use std::io::Write;

// Reads the cases and runs them.
fn main(rt: HostRuntime) -> io::Result<()> {
    let mut text = [0u8; 65536];
    let input = input::read_full(&mut rt.stdin(), &mut text);
    let lines = input.split(|byte| *byte == b'\n');
    case::run_lines(&mut rt.stdout(), lines, answer)
}

// Answers the case whose text behind the name is lent, with room for its parts.
fn answer(out: &mut impl Write, case: &[u8]) -> io::Result<()> {
    let mut first = [0u8; 70000];
    let mut second = [0u8; 70000];
    let mut third = [0u8; 2000];
    let parts = (
        parts::read(case, 1, &mut first),
        parts::read(case, 2, &mut second),
        parts::read(case, 3, &mut third),
    );
    match parts {
        (Some(first), Some(second), Some(third)) => run_command(out, case, first, second, third),
        _ => show::unreadable(out),
    }
}

// Answers a command on the parts of its case; one that it does not take is left alone.
fn run_command(
    out: &mut impl Write,
    case: &[u8],
    first: &[u8],
    second: &[u8],
    third: &[u8],
) -> io::Result<()> {
    let (command, _) = text::split_at(case, b' ');
    let (one, two) = (parts::number(case, 1), parts::number(case, 2));
    let mut answer = [0xEEu8; 12300];
    match command {
        b"narrow" => calls::narrow(out, one as usize, first, second, &mut answer),
        b"tidy" => calls::tidy(out, one as usize, first, &mut answer),
        b"place" => calls::place(out, one, two, first, second),
        b"try" => calls::try_word(out, first, second, third),
        _ => show::unreadable(out),
    }
}
