// Sets of numbers below 64 as u64, bit i for i: each function gives what the model's definition says.
#![tactic(auto)]

pub mod iter;

ghost use Rattle.std.specs.Prelude.{◌≡◌, ℕ, ◌<◌, ◌^◌};
ghost use Rattle.model.specs.Set.{has as member, both, either, some_from, one_member};
ghost use Rattle.bitset.specs.Difference as spec;
ghost use Rattle.bitset.specs.First.{First};

// `i` is in `set`.
#[tactic(auto, unfolding(model::specs::Set::has))]
pub fn has(set: u64, i: usize) -> bool
    requires { i < 64 }
    ensures { result ≡ member set i }
{
    (set >> i) % 2 == 1
}

// `set` with `i`.
pub fn add(set: u64, i: usize) -> u64
    requires { i < 64 }
    ensures { result ≡ either set (2 ^ i) }
{
    set | (1 << i)
}

// What is in either set.
pub fn union(a: u64, b: u64) -> u64
    ensures { result ≡ either a b }
{
    a | b
}

// What is in both sets.
pub fn intersection(a: u64, b: u64) -> u64
    ensures { result ≡ both a b }
{
    a & b
}

// What is in `a` and not in `b`.
#[tactic(auto, using(crate::proofs::Laws::difference_test))]
pub fn difference(a: u64, b: u64) -> u64
    ensures { result ≡ spec.difference a b }
{
    a ^ intersection(a, b)
}

// The least member of `set`.
#[tactic(auto, using(crate::proofs::Laws::trailing_first))]
pub fn first_member(set: u64) -> usize
    requires { 0 < set }
    ensures { First result set }
{
    u64::trailing_zeros(set) as usize
}

// `set` without its least member.
#[tactic(auto, using(crate::proofs::Laws::without_first_lem, crate::proofs::Laws::without_first_less))]
pub fn without_first(set: u64) -> u64
    requires { 0 < set }
    ensures { ((i : ℕ) → First i set → result ≡ spec.difference set (2 ^ i)) × (result < set) }
{
    set & (set - 1)
}

// The members of `set`, from the least on.
pub fn members(set: u64) -> iter::Members
    ensures { result ≡ set }
{
    iter::Members::of(set)
}

// `set` has exactly one member.
#[tactic(auto, using(crate::proofs::Laws::one_member_test), unfolding(model::specs::Set::some_below, model::specs::Set::one_member))]
pub fn one_member(set: u64) -> bool
    ensures { result ≡ one_member set }
{
    set != 0 && set & (set - 1) == 0
}

// Some member of `set` is `k` or above.
#[tactic(auto, using(crate::proofs::Laws::some_from_test, crate::proofs::Laws::some_from_past))]
pub fn some_from(set: u64, k: usize) -> bool
    ensures { result ≡ some_from set k }
{
    k < 64 && set >> k != 0
}
