// The commands on letters and their signs.
use case_text::show;
use std::io;
use std::io::Write;

// Writes the sign of each letter.
pub fn signs(out: &mut impl Write, numbers: &[u8]) -> io::Result<()> {
    for number in numbers {
        sign(out, *number)?;
    }
    Ok(())
}

// Writes the sign of a letter, `.` for a number that is no letter.
fn sign(out: &mut impl Write, number: u8) -> io::Result<()> {
    match alphabet::sign_of(number) {
        0 => out.write_all(b"."),
        sign => out.write_all(&[sign]),
    }
}

// Writes the letter whose sign each byte is, `none` for a byte that is no sign.
pub fn numbers(out: &mut impl Write, bytes: &[u8]) -> io::Result<()> {
    for (i, byte) in bytes.iter().enumerate() {
        show::between(out, i, b" ")?;
        match alphabet::letter_of(*byte) {
            Some(letter) => write!(out, "{letter}")?,
            None => out.write_all(b"none")?,
        }
    }
    Ok(())
}
