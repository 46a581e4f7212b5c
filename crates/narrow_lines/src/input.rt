// The input of a program: what is read and not yet taken, and how it ended.
ghost use Rattle.std.specs.Prelude.{◌≡◌, ◌≤◌, ◌<◌, ◌↔◌, [], false, length, drop, IsOk};

use lines::Part;
use std::io;
use std::io::Read;

pub(crate) const SIZE: usize = 65536;

// The first `size` bytes of a buffer are held. `end` is none as long as more may come, and then says whether a read failed.
#[derive(Drop)]
pub(crate) struct Input {
    bytes: [u8; SIZE],
    size: usize,
    end: Option<io::Result<()>>,
    ghost within: { size ≤ 65536 },
}

impl Input {
    ghost use Rattle.narrow_lines.specs.Held.{held, ended, NoFailure, Brings};

    // Nothing is read.
    pub(crate) fn new() -> Input
        ensures held { held result ≡ [] }
        ensures ended { ended result ≡ false }
    {
        Input {
            bytes: [0; SIZE],
            size: 0,
            end: None,
        }
    }

    // The bytes held, and whether nothing comes behind them.
    pub(crate) fn part(&self) -> Part<'_>
        ensures bytes { result.bytes.now ≡ held self.now }
        ensures ended { result.ended ≡ ended self.now }
    {
        Part {
            bytes: &self.bytes[..self.size],
            ended: self.end.is_some(),
        }
    }

    // Takes the first bytes held.
    pub(crate) fn take(&mut self, count: usize)
        requires { count ≤ length (held self.old) }
        ensures held { held self.new ≡ drop count (held self.old) }
        ensures end { self.new.end ≡ self.old.end }
    {
        self.size = stream::shift(&mut self.bytes, count, self.size);
    }

    // Reads once. A read that brings nothing is the end of the input, and so is one that fails.
    pub(crate) fn read_from<R: Read>(&mut self, reader: &mut R)
        requires { (ended self.old ≡ false) × (length (held self.old) < 65536) }
        ensures { Brings self.old self.new (R.remaining reader.old) (R.remaining reader.new) }
    {
        match reader.read(&mut self.bytes[self.size..]) {
            Ok(0) => self.end = Some(Ok(())),
            Ok(more) => self.size += more,
            Err(error) => self.end = Some(Err(error)),
        }
    }

    // The error of the read that failed, if one did.
    pub(crate) fn finish(self) -> io::Result<()>
        ensures { IsOk result ↔ NoFailure self }
    {
        self.end.unwrap_or(Ok(()))
    }
}
