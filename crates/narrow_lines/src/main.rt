// Document 01's line program: one book and then masks from standard input, a line for each mask. What is printed stands in
// the crate lines; here bytes are read, handed over and written.
#![tactic(auto)]

ghost use Rattle.std.specs.Prelude.{◌≡◌, [], false, OnOk};
ghost use Rattle.narrow_lines.specs.Held.{held, ended, Ends, NoFailure};
ghost use Rattle.narrow_lines.specs.Prints.{Begins, PrintsMasks, PrintsOutput};

mod input;

use input::{Input, SIZE};
use lines::{Pause, Progress};
use model::Refusal;
use std::io;
use std::io::{Read, Write};

// Reads until it is known what the input begins with: a book of so many bytes, or a refused one.
fn begin<R: Read>(reader: &mut R, input: &mut Input) -> Result<usize, Refusal>
    requires { (held input.old ≡ []) × (ended input.old ≡ false) }
    ensures { Begins input.new result (R.remaining reader.old) (R.remaining reader.new) }
{
    loop {
        if let Some(size) = lines::open(input.part())? {
            return Ok(size);
        }
        input.read_from(reader);
    }
}

// Prints the lines of the masks, up to the end or to a write that fails. What there is to print is written before each read,
// so that who sends a mask and waits gets its line.
fn print_masks<R: Read, W: Write>(
    reader: &mut R,
    writer: &mut W,
    book: &[u8],
    input: &mut Input,
) -> io::Result<()>
    ensures sound { NoFailure input.new → NoFailure input.old }
    ensures prints { OnOk result (NoFailure input.new → Ends (ended input.old) (R.remaining reader.old)
        → PrintsMasks book.now 1 (held input.old) (R.remaining reader.old)
        (W.contents writer.old) (W.contents writer.new)) }
{
    let mut answer = [0u8; 12294];
    let mut out = [0u8; SIZE];
    let mut number = 1;
    for _ in 0..u64::MAX {
        let Progress {
            taken,
            size,
            number: next,
            pause,
        } = lines::run(book, input.part(), number, &mut answer, &mut out);
        writer.write_all(&out[..size])?;
        input.take(taken);
        number = next;
        match pause {
            Pause::Full => {}
            Pause::More => input.read_from(reader),
            Pause::Done => return Ok(()),
        }
    }
    Err(io::Error::other("gave up after 2^64 - 1 turns"))
}

// Reads the book, and prints the lines of the masks or of a refused book. A read that failed is told once all is printed.
fn print_lines<R: Read, W: Write>(reader: &mut R, writer: &mut W) -> io::Result<()>
    ensures { OnOk result (PrintsOutput (R.remaining reader.old) (W.contents writer.old) (W.contents writer.new)) }
{
    let mut input = Input::new();
    match begin(reader, &mut input) {
        Ok(size) => {
            let mut book = [0u8; 4047];
            book[..size].copy_from_slice(&input.part().bytes[..size]);
            input.take(size);
            print_masks(reader, writer, &book[..size], &mut input)?;
        }
        Err(refusal) => writer.write_all(lines::book_line(refusal).as_slice())?,
    }
    input.finish()
}

fn main(rt: HostRuntime) {
    // A read or a write that fails ends the input or the output, and the program in good order.
    let _ = print_lines(&mut rt.stdin(), &mut rt.stdout());
}
