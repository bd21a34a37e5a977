// Masks of lots.
ghost use Rattle.packages.specs.Lots.{mask_lots, highest_mask_lot};
ghost use Rattle.packages.specs.Masks.{mask_has};

use crate::package::Package;
use crate::relation::Relation;

// The lots whose bits are 1: lot k is the bit of value 2^(k - 1).
#[derive(Clone, Copy, PartialEq, Eq, Debug)]
pub struct Mask {
    pub bits: u64,
}

impl Package for Mask {
    const HIGHEST: u32 = 64;

    ghost HIGHEST = { highest_mask_lot };

    ghost meaning = { λ m. mask_lots m.bits };

    ghost bounded = { λ p k e. (mask_has p.bits k e).1 };

    // No mask has a bit beyond 64 lots, and there the shift has no answer.
    fn fits(&self, lots: u32) -> bool {
        self.bits != 0 && self.bits.checked_shr(lots).unwrap_or(0) == 0
    }

    fn compare(&self, other: &Mask) -> Relation {
        let shared = self.bits & other.bits;
        Relation::first_true(shared == self.bits, shared == other.bits, shared == 0)
    }

    fn size(&self) -> u32 {
        self.bits.count_ones()
    }
}
