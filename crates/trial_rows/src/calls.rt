// The operations of document 01, called as any host calls them, and their answers.
use crate::masks;
use case_text::buffer::untouched;
use case_text::show;
use model::Refusal;
use operations::{Narrowed, Tried};
use std::io;
use std::io::Write;

// Narrow, with the first `room` bytes of `answer` as the answer buffer.
pub fn narrow(
    out: &mut impl Write,
    room: usize,
    book: &[u8],
    mask: &[u8],
    answer: &mut [u8],
) -> io::Result<()> {
    let Some(lent) = answer.get_mut(..room) else {
        return show::unreadable(out);
    };
    match operations::narrow(book, mask, lent) {
        Ok(got) => narrowed(out, got, answer),
        Err(refusal) => refused(out, refusal, answer),
    }
}

// Tidy, with the first `room` bytes of `answer` as the answer buffer.
pub fn tidy(out: &mut impl Write, room: usize, mask: &[u8], answer: &mut [u8]) -> io::Result<()> {
    let Some(lent) = answer.get_mut(..room) else {
        return show::unreadable(out);
    };
    match operations::tidy(mask, lent) {
        Ok(bytes) => written(out, bytes as usize, answer),
        Err(refusal) => refused(out, refusal, answer),
    }
}

// Place.
pub fn place(
    out: &mut impl Write,
    block: u32,
    place: u32,
    book: &[u8],
    mask: &[u8],
) -> io::Result<()> {
    match operations::place(book, mask, block, place) {
        Ok(entry) => masks::block(out, entry),
        Err(refusal) => show::refused(out, refusal.number()),
    }
}

// Try.
pub fn try_word(out: &mut impl Write, book: &[u8], mask: &[u8], code: &[u8]) -> io::Result<()> {
    match operations::try_word(book, mask, code) {
        Ok(Tried { mask, book }) => {
            write!(out, "mask {}, book {}", yes_or_no(mask), yes_or_no(book))
        }
        Err(refusal) => show::refused(out, refusal.number()),
    }
}

// Writes narrow's answer: the verdict, and the blocks of what was written, if anything was.
fn narrowed(out: &mut impl Write, got: Narrowed, answer: &[u8]) -> io::Result<()> {
    out.write_all(got.verdict.word())?;
    if got.bytes == 0 {
        return touched(out, answer);
    }
    out.write_all(b" ")?;
    written(out, got.bytes as usize, answer)
}

// Writes the blocks of the record that the first `size` bytes are, and whether those behind them were touched.
fn written(out: &mut impl Write, size: usize, answer: &[u8]) -> io::Result<()> {
    let Some((record, behind)) = answer.split_at_checked(size) else {
        return out.write_all(b"unreadable answer");
    };
    masks::mask(out, record)?;
    touched(out, behind)
}

// Writes a refusal, and whether the answer buffer was touched.
fn refused(out: &mut impl Write, refusal: Refusal, answer: &[u8]) -> io::Result<()> {
    show::refused(out, refusal.number())?;
    touched(out, answer)
}

// Says so, where a byte that is to be left alone was changed.
fn touched(out: &mut impl Write, answer: &[u8]) -> io::Result<()> {
    if untouched(answer) {
        return Ok(());
    }
    out.write_all(b" touched")
}

// The word for a yes or a no.
fn yes_or_no(answer: bool) -> &'static str {
    if answer { "yes" } else { "no" }
}
