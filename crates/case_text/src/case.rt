// A line of the input: a case, `NAME: TEXT`, or none.
ghost use Rattle.std.specs.Prelude.{◌↔◌, IfOk, OnOk, IsTrue};
ghost use Rattle.std.specs.Iterator.{IsFinite};
ghost use Rattle.case_text.specs.Case.{IsCase, CaseOf, Ran};

use crate::text;
use std::io;
use std::io::Write;

// Runs the cases among the lines, and writes a line for each: its name, and what `answer` writes of the text behind the
// name. A line that is no case writes nothing.
pub fn run_lines<'a, W, I, F>(out: &mut W, lines: I, mut answer: F) -> io::Result<()>
where
    W: Write,
    I: Iterator<Item = &'a [u8]> + Drop,
    F: FnMut(&mut W, &[u8]) -> io::Result<()>,
    requires can { I.can_next lines }
    requires finite { IsFinite (I.remaining lines) }
    requires callable { F.IsAlwaysCallable answer }
    ensures { OnOk result (Ran I.next_gives F.step lines answer) }
{
    for line in lines {
        if is_case(line) {
            let case = write_name(out, line)?;
            answer(out, case)?;
            out.write_all(b"\n")?;
        }
    }
    Ok(())
}

// Whether a line is a case: an empty one and one that starts with `#` are none.
pub fn is_case(line: &[u8]) -> bool
    ensures { IsTrue result ↔ IsCase line.now }
{
    line.first().is_some_and(|byte| *byte != b'#')
}

// Writes the name, all up to the colon, and returns the text behind `: `; none where there is none.
pub fn write_name<'a>(out: &mut impl Write, line: &'a [u8]) -> io::Result<&'a [u8]>
    ensures { IfOk result (λ case. CaseOf line.now case.now) }
{
    let (name, rest) = text::split_at(line, b':');
    out.write_all(name)?;
    out.write_all(b": ")?;
    Ok(rest.strip_prefix(b" ").unwrap_or_default())
}
