// An answer written into the lent buffer, where it has room.
ghost use Rattle.std.specs.Prelude.{◌≡◌, ◌+◌, ◌*◌, ◌≤◌, length};
ghost use Rattle.model.specs.NormalForm.{normal};
ghost use Rattle.model.specs.Size.{Fits, Room};
ghost use Rattle.records.specs.Bytes.{over};
ghost use Rattle.records.specs.Written.{blocks_bytes, mask_bytes};
ghost use Rattle.records.specs.Read.{blocks_of};
ghost use Rattle.operations.specs.Buffer.{Puts};
ghost use Rattle.operations.specs.Tidy.{tidy_record};

use crate::joined::Joined;
use model::{Block, Refusal};
use records::Mask;

// Writes blocks as a record over the first bytes of `out`, and returns how many bytes that is. Check 10: where the buffer is
// shorter it writes nothing.
pub(crate) fn write_answer(blocks: &[Block], out: &mut [u8]) -> Result<u32, Refusal>
    requires { length blocks.now ≤ 2048 }
    ensures { Puts (mask_bytes blocks.now) out.old out.new result }
{
    if out.len() < 6 + 12 * blocks.len() {
        return Err(Refusal::Room);
    }
    Ok(records::write_mask(blocks, out) as u32)
}

// Writes the blocks of a mask's normal form over the first bytes of `out`.
fn write_joined(mask: Mask, out: &mut [u8])
    requires formed { Room 64 (blocks_of mask) }
    requires room { 12 * length (normal (blocks_of mask)) ≤ length out.old }
    ensures { out.new ≡ over (blocks_bytes (normal (blocks_of mask.entry))) out.old }
{
    for (i, block) in Joined::of(mask).enumerate() {
        records::write_block(out, 12 * i, block);
    }
}

// Writes the normal form of a mask over the first bytes of `out`, where they have room for it: one walk counts its blocks, a
// second writes them.
#[tactic(auto, using(crate::proofs::Joining::joined_few))]
pub(crate) fn write_tidied(mask: Mask, out: &mut [u8]) -> Result<u32, Refusal>
    requires { Fits 64 (blocks_of mask) }
    ensures { Puts (tidy_record mask.entry.bytes.now) out.old out.new result }
{
    let count = Joined::of(mask).count();
    if out.len() < 6 + 12 * count {
        return Err(Refusal::Room);
    }
    records::write_head(count, out);
    write_joined(mask, &mut out[6..]);
    Ok((6 + 12 * count) as u32)
}
