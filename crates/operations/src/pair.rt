// A book and a mask taken together: the checks that narrow, place and try begin with.
ghost use Rattle.std.specs.Prelude.{◌≡◌, ◌≤◌, ◌↔◌, T, length};
ghost use Rattle.std.proofs.Props.{props};
ghost use Rattle.model.specs.Refusal.{accepted, refuse, unless};
ghost use Rattle.model.specs.Set.{some_from};
ghost use Rattle.model.specs.Size.{Fits, uppers};
ghost use Rattle.records.specs.Mask.{totals_of};
ghost use Rattle.records.specs.Read.{blocks_of};
ghost use Rattle.operations.specs.Props.{each_one};

use model::Refusal;
use records::{Book, Mask, Totals};

// A book, and a mask whose blocks fit a record with the book's letters; and the mask's totals.
#[derive(Clone, Copy)]
pub(crate) struct Pair<'a> {
    pub book: Book<'a>,
    pub mask: Mask<'a>,
    pub totals: Totals,
    pub ghost fits: { Fits book.table.letters (blocks_of mask) } by { Prim.hlevel (props, each_one) },
    pub ghost summed: { totals ≡ totals_of (blocks_of mask) },
}

impl<'a> Pair<'a> {
    ghost use Rattle.operations.specs.Pair.{ReadsPair};

    // A book and a mask, or the first check that fails: book checks, mask checks, 9.
    pub(crate) fn read(book: &'a [u8], mask: &'a [u8]) -> Result<Pair<'a>, Refusal>
        ensures { ReadsPair book.now mask.now result }
    {
        let book = records::read_book(book)?;
        let (mask, totals) = records::read_mask(mask)?;
        check_letters(book, totals)?;
        Ok(Pair { book, mask, totals })
    }

    // Whether the mask has at most 64 blocks, whose upper bounds sum to at most 64: then little room is cleared for it.
    pub(crate) fn is_small(self) -> bool
        ensures { T result ↔ ((length (blocks_of self.entry.mask) ≤ 64) × (uppers (blocks_of self.entry.mask) ≤ 64)) }
    {
        self.mask.len() <= 64 && self.totals.uppers <= 64
    }
}

// Check 9, of a book and the totals of blocks.
#[tactic(auto, unfolding(model::specs::Refusal::refuse))]
pub(crate) fn check_letters(book: Book, totals: Totals) -> Result<(), Refusal>
    ensures { result ≡ unless (refuse (some_from totals.used book.entry.table.letters) Refusal.Foreign accepted) tt }
{
    if totals.some_foreign(book.table.letters) {
        return Err(Refusal::Foreign);
    }
    Ok(())
}
