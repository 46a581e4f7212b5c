// The commands on a kind 1 record (a book).
use case_text::show;
use records::Table;
use std::io;
use std::io::Write;

// Writes the numbers of a book, or its refusal.
pub fn book(out: &mut impl Write, bytes: &[u8]) -> io::Result<()> {
    match records::read_book(bytes) {
        Err(refusal) => show::refused(out, refusal.number()),
        Ok(book) => {
            out.write_all(b"book")?;
            write!(
                out,
                " {} {} {} {}",
                book.table.states, book.table.letters, book.start, book.accepting
            )
        }
    }
}

// Writes the next states of a book, or its refusal.
pub fn moves(out: &mut impl Write, bytes: &[u8]) -> io::Result<()> {
    match records::read_book(bytes) {
        Err(refusal) => show::refused(out, refusal.number()),
        Ok(book) => next_states(out, book.table),
    }
}

// Writes the next states, state by state and letter by letter.
fn next_states(out: &mut impl Write, table: Table) -> io::Result<()> {
    for i in 0..table.states * table.letters {
        let next = table.next(i / table.letters, i % table.letters);
        show::between(out, i, b" ")?;
        write!(out, "{next}")?;
    }
    Ok(())
}
