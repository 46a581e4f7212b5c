// The totals of a mask's blocks, which checks 8 and 9 look at, gathered from block after block.
ghost use Rattle.std.specs.Prelude.{◌≡◌, ℕ, ◌+◌, ◌^◌, ◌<◌, ◌≤◌};
ghost use Rattle.model.specs.declared.Block.{Block};
ghost use Rattle.model.specs.DashedString.{values};
ghost use Rattle.records.specs.Mask.{read_blocks};
ghost use Rattle.records.specs.Gathered as spec;

use crate::Totals;
use model::{Block, Refusal};

// The totals with those of one block more. Check 7.
#[tactic(auto, unfolding(model::specs::Refusal::refuse))]
fn with_block(totals: Totals, block: Block) -> Result<Totals, Refusal>
    requires { totals.uppers + 2 ^ 16 ≤ 2 ^ 64 }
    ensures { result ≡ spec.with_block totals block }
{
    if block.upper < block.lower {
        return Err(Refusal::Crossed);
    }
    Ok(Totals {
        uppers: totals.uppers + usize::from(block.upper),
        used: bitset::union(totals.used, block.base),
    })
}

// The totals of the first `count` blocks that `block_at` gives, or the first check that fails: 7 and 8.
pub(crate) fn totals_of<F: Fn(usize) -> Block>(count: usize, block_at: F) -> Result<Totals, Refusal>
    requires few { count ≤ 1024 }
    requires given { (i : ℕ) → i < count → F.pre block_at i }
    ensures { (f : ℕ → Block) → ((i : ℕ) (x : Block) → i < count → F.post block_at i x → x ≡ f i)
        → result ≡ read_blocks (values f count) }
{
    let mut totals = Totals { uppers: 0, used: 0 };
    for i in 0..count {
        totals = with_block(totals, block_at(i))?;
    }
    if 1024 < totals.uppers {
        return Err(Refusal::Uppers);
    }
    Ok(totals)
}
