// An iterator over the blocks of a mask, from the first on.
ghost use Rattle.std.specs.Prelude.{◌≡◌, ◌+◌, ◌*◌, ◌/◌, ◌≤◌, List, length};
ghost use Rattle.std.specs.Iterator.{YieldsFirst, item_count};
ghost use Rattle.model.specs.declared.Block.{Block};
ghost use Rattle.records.specs.Mask.{count, blocks_from, mask_of};

use crate::block::block_from;
use crate::frame::count_field;
use model::Block;
use std::marker::Model;

// The blocks that are still to come: those in the bytes that are left.
#[derive(Drop)]
pub struct Blocks<'a> {
    rest: &'a [u8],
}

impl<'a> Model for Blocks<'a> {
    ghost Value = { List Block };

    ghost view = { λ s. blocks_from (length s.rest.now / 12) s.rest.now 0 };
}

impl<'a> Blocks<'a> {
    // All blocks of a mask.
    #[tactic(auto, using(crate::proofs::Offsets::blocks_behind_head))]
    pub(crate) fn of(bytes: &'a [u8]) -> Blocks<'a>
        requires { 6 + 12 * count bytes.now ≤ length bytes.now }
        ensures { result ≡ mask_of bytes.now }
    {
        let end = 6 + 12 * count_field(bytes);
        Blocks {
            rest: &bytes[6..end],
        }
    }
}

impl<'a> Iterator for Blocks<'a> {
    type Item = Block;

    ghost next_gives = { YieldsFirst (λ s. s) };

    ghost remaining = { item_count (λ s. s) };

    #[tactic(auto, using(crate::proofs::Offsets::no_block, crate::proofs::Offsets::first_block))]
    fn next(&mut self) -> Option<Block> {
        let (bytes, rest) = self.rest.split_at_checked(12)?;
        self.rest = rest;
        Some(block_from(bytes, 0))
    }
}
