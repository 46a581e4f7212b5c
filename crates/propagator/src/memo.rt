// Numbers that were worked out once, each for an index below 64.
ghost use Rattle.std.specs.Prelude.{◌≡◌, ℕ, ◌<◌};
ghost use Rattle.propagator.specs.Known.{Remembers};

// Element i of `values` is what was worked out for i, for each i of `known`.
#[derive(Drop)]
pub(crate) struct Memo {
    pub values: [u64; 64],
    pub known: u64,
}

impl Memo {
    // Nothing is known.
    pub(crate) fn new() -> Memo
        ensures { result.known ≡ 0 }
    {
        Memo {
            values: [0; 64],
            known: 0,
        }
    }

    // The number of `i`, which `make` works out where it is not known.
    pub(crate) fn recall<F: Fn(usize) -> u64>(&mut self, i: usize, make: F) -> u64
        requires index { i < 64 }
        requires callable { F.pre make i }
        ensures { (f : ℕ → ℕ) → Remembers self.old f → ((x : ℕ) → F.post make i x → x ≡ f i) → (result ≡ f i) × Remembers self.new f }
    {
        if bitset::has(self.known, i) {
            return self.values[i];
        }
        let found = make(i);
        self.values[i] = found;
        self.known = bitset::add(self.known, i);
        found
    }

    // Nothing is known any more.
    pub(crate) fn forget(&mut self)
        ensures { self.new.known ≡ 0 }
    {
        self.known = 0;
    }
}
