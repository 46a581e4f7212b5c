// The row of sets that the way forward leaves: of each block Q1 to Ql and, where l < u, R.
ghost use Rattle.std.specs.Prelude.{◌≡◌, ◌∷◌, ◌≤◌, ◌<◌, length, take, drop, get_or};
ghost use Rattle.propagator.specs.Rows.{sets_of};

use model::Block;

// Sets one after another, and the set before the first of them.
#[derive(Clone, Copy)]
pub(crate) struct Row<'a> {
    pub first: u64,
    pub sets: &'a [u64],
}

impl<'a> Row<'a> {
    // The set before set `j`, from 0.
    pub(crate) fn set_before(self, j: usize) -> u64
        requires { j ≤ length self.sets.now }
        ensures { result ≡ get_or (self.entry.first ∷ self.entry.sets.now) j 0 }
    {
        if j == 0 { self.first } else { self.sets[j - 1] }
    }

    // The row up to set `at`, and the row from there on.
    pub(crate) fn split_at(self, at: usize) -> (Row<'a>, Row<'a>)
        requires { at ≤ length self.sets.now }
        ensures front { (result.0.first ≡ self.entry.first) × (result.0.sets.now ≡ take at self.entry.sets.now) }
        ensures behind { (result.1.first ≡ get_or (self.entry.first ∷ self.entry.sets.now) at 0) × (result.1.sets.now ≡ drop at self.entry.sets.now) }
    {
        let front = Row {
            first: self.first,
            sets: &self.sets[..at],
        };
        let behind = Row {
            first: self.set_before(at),
            sets: &self.sets[at..],
        };
        (front, behind)
    }
}

// How many sets of the row are a block's.
pub(crate) fn sets_of(block: Block) -> usize
    ensures { result ≡ sets_of block }
{
    usize::from(block.upper).min(usize::from(block.lower) + 1)
}
