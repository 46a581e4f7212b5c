// The normal form of a mask's blocks, one after the other, which needs no room for them.
ghost use Rattle.std.specs.Prelude.{◌≡◌};
ghost use Rattle.std.specs.Iterator.{YieldsFirst, item_count};
ghost use Rattle.model.specs.declared.Block.{Block};
ghost use Rattle.model.specs.NormalForm.{normal};
ghost use Rattle.model.specs.Size.{Room};
ghost use Rattle.records.specs.Read.{blocks_of};
ghost use Rattle.normal_form.specs.Joining.{perhaps};

use model::Block;
use normal_form::Joiner;
use records::{Blocks, Mask};

// The blocks of the normal form that are still to come.
#[derive(Drop)]
pub(crate) struct Joined<'a> {
    blocks: Blocks<'a>,
    joiner: Joiner,
}

impl<'a> Joined<'a> {
    // All blocks of the normal form of a mask.
    pub(crate) fn of(mask: Mask<'a>) -> Joined<'a>
        ensures { perhaps result.joiner.held result.blocks ≡ blocks_of mask.entry }
    {
        Joined {
            blocks: mask.blocks(),
            joiner: Joiner::new(),
        }
    }
}

impl<'a> Iterator for Joined<'a> {
    type Item = Block;

    ghost can_next = { λ s. Room 64 (perhaps s.joiner.held s.blocks) };

    ghost next_gives = { YieldsFirst (λ s. normal (perhaps s.joiner.held s.blocks)) };

    ghost remaining = { item_count (λ s. normal (perhaps s.joiner.held s.blocks)) };

    fn next(&mut self) -> Option<Block> {
        while let Some(block) = self.blocks.next() {
            let done = self.joiner.take(block);
            if done.is_some() {
                return done;
            }
        }
        self.joiner.end()
    }
}
