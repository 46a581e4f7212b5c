// Masks in 01's notation: `{0,1} 1-1, {2} 1-1`, letters as numbers.
use case_text::show;
use model::Block;
use records::Mask;
use std::io;
use std::io::Write;

// Writes the blocks of a kind 2 record.
pub fn mask(out: &mut impl Write, bytes: &[u8]) -> io::Result<()> {
    match records::read_mask(bytes) {
        Err(_) => out.write_all(b"unreadable answer"),
        Ok((mask, _)) if mask.len() == 0 => out.write_all(b"no blocks"),
        Ok((mask, _)) => blocks(out, mask),
    }
}

// Writes each block.
#[tactic(auto, using(records::proofs::Offsets::blocks_counted))]
fn blocks(out: &mut impl Write, mask: Mask) -> io::Result<()> {
    for (i, item) in mask.blocks().enumerate() {
        show::between(out, i, b", ")?;
        block(out, item)?;
    }
    Ok(())
}

// Writes the set and the bounds of a block.
pub fn block(out: &mut impl Write, block: Block) -> io::Result<()> {
    out.write_all(b"{")?;
    letters(out, block.base)?;
    write!(out, "}} {}-{}", block.lower, block.upper)
}

// Writes the letters of a set.
#[tactic(auto, using(crate::proofs::Letters::few_listed))]
fn letters(out: &mut impl Write, set: u64) -> io::Result<()> {
    for (i, letter) in bitset::members(set).enumerate() {
        show::between(out, i, b",")?;
        write!(out, "{letter}")?;
    }
    Ok(())
}
