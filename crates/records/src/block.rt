// A block of a kind 2 record.
ghost use Rattle.std.specs.Prelude.{◌≡◌, ◌+◌, ◌*◌, ◌≤◌, length};
ghost use Rattle.records.specs.Mask.{block_from};

use crate::number;
use model::Block;

// The block in the 12 bytes from byte `at` on.
#[tactic(auto, unfolding(crate::specs::Mask::block_from))]
pub(crate) fn block_from(bytes: &[u8], at: usize) -> Block
    requires { at + 12 ≤ length bytes.now }
    ensures { result ≡ block_from bytes.now at }
{
    let base = number::read(bytes, at, 8);
    let lower = number::read(bytes, at + 8, 2) as u16;
    let upper = number::read(bytes, at + 10, 2) as u16;
    Block { base, lower, upper }
}

// The block behind the head and `i` blocks.
pub(crate) fn block_behind(bytes: &[u8], i: usize) -> Block
    requires { 6 + 12 * i + 12 ≤ length bytes.now }
    ensures { result ≡ block_from bytes.now (6 + 12 * i) }
{
    block_from(bytes, 6 + 12 * i)
}
