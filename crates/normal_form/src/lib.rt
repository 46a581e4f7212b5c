// The normal form of document 01, "The passes", made in place: blocks that can only be empty are dropped, then neighbours with
// equal sets become one. What it is stands in model's specs/.
#![tactic(auto)]

ghost use Rattle.std.specs.Prelude.{◌≡◌, [], ◌∷◌, ◌≤◌, ◌<◌, length, drop};
ghost use Rattle.model.specs.DashedString.{block_at};
ghost use Rattle.model.specs.Size.{Room};
ghost use Rattle.model.specs.NormalForm.{idle, normal};
ghost use Rattle.normal_form.specs.Pushed.{Pushed};

mod joiner;

pub use joiner::Joiner;
use model::Block;

// Makes the normal form of the blocks, from the last to the first. It stands at their end: from the entry whose number is
// returned on.
#[tactic(auto, using(crate::proofs::Turns::room_at, crate::proofs::Turns::room_normal), unfolding(model::specs::NormalForm::normal, model::specs::NormalForm::dropped, model::specs::NormalForm::joined))]
pub fn normalize(blocks: &mut [Block]) -> usize
    requires { Room 64 blocks.old }
    ensures { (result ≤ length blocks.old) × (length blocks.new ≡ length blocks.old) × (drop result blocks.new ≡ normal blocks.old) }
{
    let mut at = blocks.len();
    for i in (0..blocks.len()).rev() {
        at = push(blocks, i, at);
    }
    at
}

// Puts block `i` in front of the normal form in the entries from `at` on, and returns where that begins then.
#[tactic(auto, unfolding(model::specs::NormalForm::join))]
fn push(blocks: &mut [Block], i: usize, at: usize) -> usize
    requires order { (i < at) × (at ≤ length blocks.old) }
    requires own { Room 64 (block_at blocks.old i ∷ []) }
    requires behind { Room 64 (drop at blocks.old) }
    ensures { Pushed blocks.old i at blocks.new result }
{
    let block = blocks[i];
    if idle(block) {
        at
    } else if at < blocks.len() && block.base == blocks[at].base {
        let first = &mut blocks[at];
        first.lower += block.lower;
        first.upper += block.upper;
        at
    } else {
        blocks[at - 1] = block;
        at - 1
    }
}

// Whether a block is dropped: u = 0, or an empty set and l = 0.
pub(crate) fn idle(block: Block) -> bool
    ensures { result ≡ idle block }
{
    block.upper == 0 || block.base == 0 && block.lower == 0
}
