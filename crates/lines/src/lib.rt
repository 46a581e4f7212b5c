// What document 01's line program prints, over slices: its lines as text, and how far a part of the input settles them.
// What is printed stands in specs/.
#![tactic(auto)]

mod answer;
mod masks;
mod next;
mod opening;
mod text;

pub use masks::run;
pub use opening::open;
pub use text::{Line, book_line};

// A part of the input, and whether nothing comes behind it.
#[derive(Clone, Copy)]
pub struct Part<'a> {
    pub bytes: &'a [u8],
    pub ended: bool,
}

// Why the lines pause: the buffer is full, more input is wanted, or nothing more is to be printed.
#[derive(Clone, Copy)]
pub enum Pause {
    Full,
    More,
    Done,
}

// How far the input was worked: bytes taken, bytes of text, the next mask's number, and why no further.
#[derive(Clone, Copy)]
pub struct Progress {
    pub taken: usize,
    pub size: usize,
    pub number: u64,
    pub pause: Pause,
}
