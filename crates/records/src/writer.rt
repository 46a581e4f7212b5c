// Blocks written as bytes.
ghost use Rattle.std.specs.Prelude.{◌≡◌, ◌+◌, ◌*◌, ◌≤◌, length};
ghost use Rattle.std.proofs.lemmas.List.Edits.{sets};
ghost use Rattle.records.specs.Bytes.{over};
ghost use Rattle.records.specs.Written.{block_bytes, blocks_bytes};

use crate::number;
use model::Block;

// Writes the 12 bytes of a block from byte `at` on.
#[tactic(auto, using(crate::proofs::Stores::three_stored), unfolding(crate::specs::Written::block_bytes))]
pub fn write_block(out: &mut [u8], at: usize, block: Block)
    requires { at + 12 ≤ length out.old }
    ensures { out.new ≡ sets out.old at (block_bytes block) }
{
    number::write(out, at, 8, block.base);
    number::write(out, at + 8, 2, u64::from(block.lower));
    number::write(out, at + 10, 2, u64::from(block.upper));
}

// Writes blocks over the first bytes of `out`.
#[tactic(auto, using(crate::proofs::Stores::stored_more), unfolding(crate::specs::Written::blocks_bytes))]
pub(crate) fn write_blocks(blocks: &[Block], out: &mut [u8])
    requires { 12 * length blocks.now ≤ length out.old }
    ensures { out.new ≡ over (blocks_bytes blocks.now) out.old }
{
    for (i, block) in blocks.iter().enumerate() {
        write_block(out, 12 * i, *block);
    }
}
