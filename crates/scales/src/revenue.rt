// Revenue: the greatest amount of any choice.
ghost use Rattle.std.specs.Prelude.{◌≡◌, Some};
ghost use Rattle.std.proofs.Common.{ap, arith};
ghost use Rattle.scales.specs.Revenue.{Revenues, revenues, revenue_of, revenue_worth, crowns, no_revenue, greatest};
ghost use Rattle.scales.specs.Cut.{top_amount};
ghost use Rattle.scales.specs.AdjoinedLaws.{adjoined_laws};
ghost use Rattle.scales.specs.RevenueLaws.{greatest_laws};
ghost use Rattle.scales.specs.Numbers.{cut_path};

use crate::amount::{cut, together};
use crate::{PricedScale, Scale};

// None, or an amount. A number above the greatest amount is read as the greatest amount.
#[derive(Clone, Copy)]
pub struct Revenue {
    pub held: Option<u64>,
}

impl Revenue {
    // The amount, if there is one.
    pub fn amount(self) -> Option<u64>
        ensures { result ≡ crowns (revenue_of self) }
    {
        cut(self.held)
    }
}

impl Scale for Revenue {
    ghost Meaning = { Revenues };

    ghost meaning = { revenue_of };

    ghost ring = { revenues };

    ghost zero = { no_revenue };

    ghost laws = { adjoined_laws (greatest top_amount) (greatest_laws top_amount) };

    fn nought() -> Revenue {
        Revenue { held: None }
    }

    fn unit() -> Revenue {
        Revenue { held: Some(0) }
    }

    #[tactic(auto, using(crate::proofs::Amounts::cut_max))]
    fn sum(self, other: Revenue) -> Revenue {
        Revenue {
            held: self.held.max(other.held),
        }
    }

    fn product(self, other: Revenue) -> Revenue {
        Revenue {
            held: together(self.held, other.held),
        }
    }
}

impl PricedScale for Revenue {
    ghost worth = { revenue_worth };

    ghost cuts = { λ price. ap Some (cut_path top_amount _ _ (omega arith)) };

    fn worth(price: u64) -> Revenue {
        Revenue { held: Some(price) }
    }
}
