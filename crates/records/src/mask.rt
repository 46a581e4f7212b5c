// A mask, in the bytes of its record.
ghost use Rattle.std.specs.Prelude.{◌≡◌, ◌+◌, ◌*◌, ◌<◌, ◌≤◌, length, take, drop};
ghost use Rattle.model.specs.DashedString.{block_at};
ghost use Rattle.records.specs.Mask.{count};

use crate::block::block_behind;
use crate::{Blocks, frame};
use model::Block;

// The record holds as many blocks as it says.
#[derive(Clone, Copy)]
pub struct Mask<'a> {
    pub bytes: &'a [u8],
    pub ghost whole: { 6 + 12 * count bytes.now ≤ length bytes.now },
}

impl<'a> Mask<'a> {
    ghost use Rattle.records.specs.Read.{blocks_of};

    // How many blocks it has.
    #[tactic(auto, using(crate::proofs::Offsets::blocks_counted))]
    pub fn len(self) -> usize
        ensures { result ≡ length (blocks_of self.entry) }
    {
        frame::count_field(self.bytes)
    }

    // Block `i`, from 0.
    #[tactic(auto, using(crate::proofs::Offsets::blocks_counted, crate::proofs::Offsets::block_of_mask))]
    pub fn block(self, i: usize) -> Block
        requires { i < length (blocks_of self) }
        ensures { result ≡ block_at (blocks_of self.entry) i }
    {
        block_behind(self.bytes, i)
    }

    // Its blocks, from the first on.
    pub fn blocks(self) -> Blocks<'a>
        ensures { result ≡ blocks_of self.entry }
    {
        Blocks::of(self.bytes)
    }

    // Copies its blocks over the first entries of a slice.
    pub fn copy_to(self, blocks: &mut [Block])
        requires { length (blocks_of self) ≤ length blocks.old }
        ensures copied { take (length (blocks_of self.entry)) blocks.new ≡ blocks_of self.entry }
        ensures rest { drop (length (blocks_of self.entry)) blocks.new ≡ drop (length (blocks_of self.entry)) blocks.old }
        ensures size { length blocks.new ≡ length blocks.old }
    {
        for i in 0..self.len() {
            blocks[i] = self.block(i);
        }
    }
}
