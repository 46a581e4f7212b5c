// Runs the cases of standard input, one a line, through the crates records and alphabet, and writes a line for each. A
// case is `NAME: COMMAND HEX HEX ..`; an empty line and a line that starts with `#` are none.
#![tactic(auto)]

mod books;
mod letters;
mod masks;

use case_text::{case, hex, input, show, text};
use std::io;
use std::io::Write;

// Reads the cases and runs them.
fn main(rt: HostRuntime) -> io::Result<()> {
    let mut text = [0u8; 65536];
    let mut room = [0u8; 70000];
    let input = input::read_full(&mut rt.stdin(), &mut text);
    let lines = input.split(|byte| *byte == b'\n');
    case::run_lines(&mut rt.stdout(), lines, |out, case| {
        answer(out, case, &mut room)
    })
}

// Answers the case whose text behind the name is lent: the command and the bytes in hex, for which there is room.
fn answer(out: &mut impl Write, case: &[u8], room: &mut [u8]) -> io::Result<()> {
    let (command, tokens) = text::split_at(case, b' ');
    match hex::read_bytes(tokens, room) {
        None => show::unreadable(out),
        Some(bytes) => run_command(out, command, bytes),
    }
}

// Answers a command on the bytes of its case.
fn run_command(out: &mut impl Write, command: &[u8], bytes: &[u8]) -> io::Result<()> {
    match command {
        b"book" => books::book(out, bytes),
        b"moves" => books::moves(out, bytes),
        b"mask" => masks::mask(out, bytes),
        b"letters" => masks::letters(out, bytes),
        b"signs" => letters::signs(out, bytes),
        b"bytes" => letters::numbers(out, bytes),
        _ => show::unreadable(out),
    }
}
