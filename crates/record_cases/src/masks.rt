// The commands on a kind 2 record (a mask).
ghost use Rattle.std.specs.Prelude.{◌≤◌, length};
ghost use Rattle.records.specs.Read.{blocks_of};

use case_text::buffer::untouched;
use case_text::show;
use model::Block;
use records::Mask;
use std::io;
use std::io::Write;

// Writes the numbers of a mask, its blocks where they are few, and whether it comes back as it was; or its refusal.
pub fn mask(out: &mut impl Write, bytes: &[u8]) -> io::Result<()> {
    match records::read_mask(bytes) {
        Err(refusal) => show::refused(out, refusal.number()),
        Ok((mask, totals)) => {
            out.write_all(b"mask")?;
            write!(out, " {} {}", mask.len(), totals.uppers)?;
            if mask.len() <= 8 {
                blocks(out, mask)?;
            }
            out.write_all(if comes_back(mask) {
                b" same"
            } else {
                b" differs"
            })
        }
    }
}

// Writes 9 where some set of a mask has a letter that is the first byte or above, else 0; or the mask's refusal.
pub fn letters(out: &mut impl Write, bytes: &[u8]) -> io::Result<()> {
    let Some((least, record)) = bytes.split_first() else {
        return show::unreadable(out);
    };
    match records::read_mask(record) {
        Err(refusal) => show::refused(out, refusal.number()),
        Ok((_, totals)) => {
            let foreign = totals.some_foreign(usize::from(*least));
            out.write_all(if foreign { b"9" } else { b"0" })
        }
    }
}

// Writes each block.
fn blocks(out: &mut impl Write, mask: Mask) -> io::Result<()> {
    for item in mask.blocks() {
        block(out, item)?;
    }
    Ok(())
}

// Writes the set and the bounds of a block.
fn block(out: &mut impl Write, block: Block) -> io::Result<()> {
    write!(out, " {}-{}-{}", block.base, block.lower, block.upper)
}

// Whether the blocks of a mask, read and written again, give the mask's bytes and leave what lies behind them.
fn comes_back(mask: Mask) -> bool
    requires { length (blocks_of mask) ≤ 1024 }
{
    let mut room = [Block::EMPTY; 1024];
    let blocks = &mut room[..mask.len()];
    mask.copy_to(blocks);
    let mut out = [0xEEu8; 12300];
    let size = records::write_mask(blocks, &mut out);
    let (record, behind) = out.split_at(size);
    mask.bytes == record && untouched(behind)
}
