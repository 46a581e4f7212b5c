// What stands next in a part of the input.
ghost use Rattle.lines.specs.Parts.{Settles};

use crate::Part;
use stream::Next;

// What stands next, or `None` where more input can change that.
pub(crate) fn settled(input: Part) -> Option<Next>
    ensures { Settles input.entry.bytes.now input.entry.ended result }
{
    match stream::next_record(input.bytes) {
        Next::Cut | Next::End if !input.ended => None,
        next => Some(next),
    }
}
