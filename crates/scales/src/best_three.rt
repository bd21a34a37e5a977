// BestThree: the three greatest amounts of all choices, repeats counted.
ghost use Rattle.std.specs.Prelude.{◌≡◌, [], Some};
ghost use Rattle.std.proofs.Common.{sym};
ghost use Rattle.scales.specs.BestThree.{BestThrees, best_threes, best_three, held, best_of, best_worth, no_amounts, InOrder};
ghost use Rattle.scales.specs.Places.{in_front, somes, Packed};
ghost use Rattle.scales.specs.Cut.{top_amount};
ghost use Rattle.scales.specs.BestLaws.{bests_laws, same_best};
ghost use Rattle.scales.specs.PlacesLaws.{cut_same};

use crate::amount::{cut, together};
use crate::{PricedScale, Scale};

// Up to three amounts. They are read in falling order, and a number above the greatest amount as the greatest amount.
#[derive(Clone, Copy)]
pub struct BestThree {
    places: [Option<u64>; 3],
}

impl BestThree {
    // The value with these amounts, in any order.
    pub fn new(amounts: [Option<u64>; 3]) -> BestThree
        ensures { best_of result ≡ best_three (somes amounts) }
    {
        BestThree { places: amounts }
    }

    // The amounts in falling order, and then the empty places.
    pub fn amounts(self) -> [Option<u64>; 3]
        ensures amounts { somes result ≡ (best_of self).amounts }
        ensures packed { Packed result }
    {
        let mut amounts = self.places;
        amounts.sort_unstable_by(|a, b| b.cmp(a));
        amounts.map(cut)
    }

    // The three greatest of these amounts and one more. Each place keeps the greater and hands on the lesser, so the least of
    // the four is dropped, in whatever order they are.
    fn with(mut self, amount: Option<u64>) -> BestThree
        ensures means { best_of result ≡ best_three (in_front amount (held self)) }
        ensures order { InOrder self → InOrder result }
    {
        // An empty place adds nothing, and most lists that are added have only one amount.
        if amount.is_none() {
            return self;
        }
        let mut rest = amount;
        for place in self.places.iter_mut() {
            (*place, rest) = (rest.max(*place), rest.min(*place));
        }
        self
    }
}

impl Scale for BestThree {
    ghost Meaning = { BestThrees };

    ghost meaning = { best_of };

    ghost ring = { best_threes };

    ghost zero = { no_amounts };

    ghost laws = { bests_laws 3 top_amount };

    fn nought() -> BestThree {
        BestThree { places: [None; 3] }
    }

    fn unit() -> BestThree {
        BestThree {
            places: [Some(0), None, None],
        }
    }

    fn sum(self, other: BestThree) -> BestThree {
        let mut all = self;
        for amount in other.places {
            all = all.with(amount);
        }
        all
    }

    fn product(self, other: BestThree) -> BestThree {
        let mut all = BestThree::nought();
        for a in self.places {
            for b in other.places {
                all = all.with(together(a, b));
            }
        }
        all
    }
}

impl PricedScale for BestThree {
    ghost worth = { best_worth };

    ghost cuts = { λ price. sym (same_best (cut_same (Some price) [])) };

    fn worth(price: u64) -> BestThree {
        BestThree {
            places: [Some(price), None, None],
        }
    }
}
