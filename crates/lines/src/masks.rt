// The lines of the masks that a part of the input holds.
ghost use Rattle.std.specs.Prelude.{◌+◌, ◌≤◌, length};
ghost use Rattle.lines.specs.Parts.{Advances, Steps};

use crate::answer::mask_line;
use crate::next::settled;
use crate::text::{LONGEST, Line, refused_line};
use crate::{Part, Pause, Progress};
use model::Refusal;
use stream::Next;

// The last mask that is read.
const LAST: u64 = u32::MAX as u64;

// What one mask adds: its line, the mask being of so many bytes; or the last line, behind which nothing is printed.
#[derive(Drop)]
pub(crate) enum Step {
    Passed { taken: usize, line: Line },
    Last(Line),
}

// What the mask that stands next in `rest` adds; `None` where more input is wanted. `answer` is room for narrow's answer.
#[tactic(auto, using(crate::proofs::Stepping::next_lines))]
pub(crate) fn next_line(book: &[u8], rest: Part, number: u64, answer: &mut [u8]) -> Option<Step>
    requires { (number ≤ 4294967295) × (12294 ≤ length answer.old) }
    ensures { Steps book.now rest.entry.bytes.now rest.entry.ended number result }
{
    Some(match settled(rest)? {
        Next::Whole(taken) => Step::Passed {
            taken,
            line: mask_line(book, &rest.bytes[..taken], number, answer),
        },
        Next::Short | Next::Cut => Step::Last(refused_line(number, Refusal::Unframed)),
        Next::End => Step::Last(Line::new()),
    })
}

// Puts the lines of the masks of `input`, from number `first` on, at the start of `out`, as far as they go: up to a buffer
// that has no room for another line, an input of which more is wanted, or the end. `answer` is room for narrow's answer.
pub fn run(book: &[u8], input: Part, first: u64, answer: &mut [u8], out: &mut [u8]) -> Progress
    requires { 12294 ≤ length answer.old }
    ensures { Advances book.now input.entry.bytes.now input.entry.ended first out.new result }
{
    let mut progress = Progress {
        taken: 0,
        size: 0,
        number: first,
        pause: Pause::Full,
    };
    while LONGEST <= out.len() - progress.size {
        if progress.number > LAST {
            progress.pause = Pause::Done;
            return progress;
        }
        let rest = Part {
            bytes: &input.bytes[progress.taken..],
            ..input
        };
        match next_line(book, rest, progress.number, answer) {
            Some(Step::Passed { taken, line }) => {
                progress.taken += taken;
                progress.size += line.copy_to(&mut out[progress.size..]);
                progress.number += 1;
            }
            Some(Step::Last(line)) => {
                progress.size += line.copy_to(&mut out[progress.size..]);
                progress.pause = Pause::Done;
                return progress;
            }
            None => {
                progress.pause = Pause::More;
                return progress;
            }
        }
    }
    progress
}
