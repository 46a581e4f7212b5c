// What checks 8 and 9 ask of all blocks of a mask.
ghost use Rattle.std.specs.Prelude.{◌≡◌};
ghost use Rattle.model.specs.Set.{some_from};

// The sum of their upper bounds, and the letters that some set has.
#[derive(Clone, Copy)]
pub struct Totals {
    pub uppers: usize,
    pub used: u64,
}

impl Totals {
    // Check 9: whether some set has a letter that is `letters` or above.
    pub fn some_foreign(self, letters: usize) -> bool
        ensures { result ≡ some_from self.used letters }
    {
        bitset::some_from(self.used, letters)
    }
}
