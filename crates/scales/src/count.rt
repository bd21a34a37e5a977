// Count: how many choices there are.
ghost use Rattle.std.specs.Prelude.{◌≡◌, min};
ghost use Rattle.scales.specs.Count.{Counts, counts, count_of, count_worth, no_count};
ghost use Rattle.scales.specs.Cut.{top_count};
ghost use Rattle.scales.specs.CountLaws.{counting_laws};
ghost use Rattle.std.proofs.Common.{rules};

use crate::{PricedScale, Scale};

// The greatest count.
pub const TOP_COUNT: u64 = 999_999_999;

// A whole number. One above the greatest count is read as the greatest count.
#[derive(Clone, Copy)]
pub struct Count {
    pub number: u64,
}

impl Count {
    // The count that a number means.
    fn cut(number: u64) -> Count
        ensures { result.number ≡ min top_count number }
    {
        Count {
            number: number.min(TOP_COUNT),
        }
    }

    // The number that is meant.
    pub fn value(self) -> u64
        ensures { result ≡ (count_of self).number }
    {
        self.number.min(TOP_COUNT)
    }
}

#[tactic(auto, using(crate::specs::Numbers::cut_path, crate::specs::Numbers::cut_factors))]
impl Scale for Count {
    ghost Meaning = { Counts };

    ghost meaning = { count_of };

    ghost ring = { counts };

    ghost zero = { no_count };

    ghost laws = { counting_laws top_count };

    fn nought() -> Count {
        Count { number: 0 }
    }

    fn unit() -> Count {
        Count { number: 1 }
    }

    fn sum(self, other: Count) -> Count {
        Count::cut(self.number.saturating_add(other.number))
    }

    fn product(self, other: Count) -> Count {
        Count::cut(self.number.saturating_mul(other.number))
    }
}

impl PricedScale for Count {
    ghost worth = { count_worth };

    ghost cuts = { Prim.search rules };

    fn worth(_price: u64) -> Count {
        Count::unit()
    }
}
