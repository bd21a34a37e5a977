// Lowest: the lowest bid number of any choice, by which ties are broken.
ghost use Rattle.std.specs.Prelude.{Option};
ghost use Rattle.scales.specs.Lowest.{lowest_of, no_lowest, First, lowests, firsts};
ghost use Rattle.scales.specs.AdjoinedLaws.{adjoined_laws};
ghost use Rattle.scales.specs.LowestLaws.{firsts_laws};

use crate::Scale;

// None, no bid yet, or the lowest bid number so far.
#[derive(Clone, Copy)]
pub enum Lowest {
    Nothing,
    NoBid,
    Bid(usize),
}

impl Scale for Lowest {
    ghost Meaning = { Option First };

    ghost meaning = { lowest_of };

    ghost ring = { lowests };

    ghost zero = { no_lowest };

    ghost laws = { adjoined_laws firsts firsts_laws };

    fn nought() -> Lowest {
        Lowest::Nothing
    }

    fn unit() -> Lowest {
        Lowest::NoBid
    }

    fn sum(self, other: Lowest) -> Lowest {
        match (self, other) {
            (Lowest::Nothing, _) => other,
            (_, Lowest::Nothing) => self,
            (Lowest::NoBid, _) => other,
            (_, Lowest::NoBid) => self,
            (Lowest::Bid(a), Lowest::Bid(b)) => Lowest::Bid(a.min(b)),
        }
    }

    // Where neither is none, the product is the lowest too.
    fn product(self, other: Lowest) -> Lowest {
        match (self, other) {
            (Lowest::Nothing, _) | (_, Lowest::Nothing) => Lowest::Nothing,
            _ => self.sum(other),
        }
    }
}
