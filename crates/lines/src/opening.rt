// The book that an input begins with.
ghost use Rattle.lines.specs.Parts.{Opens};

use crate::Part;
use crate::next::settled;
use model::Refusal;
use stream::Next;

// How many bytes the book has that `input` begins with, or its refusal; `None` where more input is wanted.
#[tactic(auto, using(crate::proofs::Openings::openings))]
pub fn open(input: Part) -> Result<Option<usize>, Refusal>
    ensures { Opens input.entry.bytes.now input.entry.ended result }
{
    let Some(next) = settled(input) else {
        return Ok(None);
    };
    match next {
        Next::Whole(size) => {
            records::read_book(&input.bytes[..size])?;
            Ok(Some(size))
        }
        Next::Short | Next::Cut | Next::End => Err(Refusal::Unframed),
    }
}
