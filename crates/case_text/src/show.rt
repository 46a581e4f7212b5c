// What is written to standard output, through the writer that is lent.
ghost use Rattle.std.specs.Prelude.{◌++◌, ◌<◌, nat_lt, [], OnOk, codes, decimal, if◌then◌else◌};
ghost use Rattle.std.specs.Io.KnownBytes.{Appends};

use std::io;
use std::io::Write;

// Writes the text between entry `i` and the one before it; nothing before the first, which is entry 0.
pub fn between<W: Write>(out: &mut W, i: usize, text: &[u8]) -> io::Result<()>
    ensures { OnOk result (Appends (W.contents out.old) (W.contents out.new) (if nat_lt 0 i then text.now else [])) }
{
    if 0 < i { out.write_all(text) } else { Ok(()) }
}

// Writes a refusal.
pub fn refused<W: Write>(out: &mut W, n: u32) -> io::Result<()>
    ensures { OnOk result (Appends (W.contents out.old) (W.contents out.new) (codes "refused " ++ decimal n)) }
{
    write!(out, "refused {n}")
}

// Writes the answer to a line that cannot be read as a case.
pub fn unreadable<W: Write>(out: &mut W) -> io::Result<()>
    ensures { OnOk result (Appends (W.contents out.old) (W.contents out.new) (codes "unreadable")) }
{
    out.write_all(b"unreadable")
}
