// The normal form made from the first block to the last, with no room but for one block.
ghost use Rattle.std.specs.Prelude.{◌≡◌, [], ◌∷◌, None, false, List};
ghost use Rattle.std.specs.Option.{ForSome};
ghost use Rattle.model.specs.declared.Block.{Block};
ghost use Rattle.model.specs.NormalForm.{idle, normal};
ghost use Rattle.model.specs.Size.{Room};
ghost use Rattle.normal_form.specs.Joining.{perhaps};

use crate::idle;
use model::Block;
use std::mem;

// Takes blocks one by one and gives those of their normal form. It holds one back, which the next may join.
#[derive(Clone, Copy)]
pub struct Joiner {
    held: Option<Block>,
    pub ghost kept: { ForSome held (λ x. idle x ≡ false) },
}

impl Joiner {
    // It has taken no block.
    pub fn new() -> Joiner
        ensures { result.held ≡ None }
    {
        Joiner { held: None }
    }

    // Takes a block, and gives the one that it held back where no other can join that.
    #[tactic(auto, unfolding(model::specs::NormalForm::normal, model::specs::NormalForm::dropped, model::specs::NormalForm::joined, model::specs::NormalForm::join))]
    pub fn take(&mut self, block: Block) -> Option<Block>
        requires { Room 64 (perhaps self.old.held (block ∷ [])) }
        ensures made { (xs : List Block) → normal (perhaps self.old.held (block ∷ xs)) ≡ perhaps result (normal (perhaps self.new.held xs)) }
        ensures room { (xs : List Block) → Room 64 (perhaps self.old.held (block ∷ xs)) → Room 64 (perhaps self.new.held xs) }
    {
        if idle(block) {
            return None;
        }
        match &mut self.held {
            None => self.held.replace(block),
            Some(held) if held.base == block.base => {
                held.lower += block.lower;
                held.upper += block.upper;
                None
            }
            Some(held) => Some(mem::replace(held, block)),
        }
    }

    // Gives the block that it holds back, when there is no other to take, and holds none then.
    #[tactic(auto, unfolding(model::specs::NormalForm::normal, model::specs::NormalForm::dropped, model::specs::NormalForm::joined, model::specs::NormalForm::join))]
    pub fn end(&mut self) -> Option<Block>
        ensures made { perhaps result [] ≡ normal (perhaps self.old.held []) }
        ensures none { self.new.held ≡ None }
    {
        self.held.take()
    }
}
