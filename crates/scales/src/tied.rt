// Tied: the greatest amount of any choice, with an inner value of the choices that tie for it.
ghost use Rattle.std.specs.Prelude.{◌≡◌, Some};
ghost use Rattle.std.proofs.Common.{ap};
ghost use Rattle.scales.specs.Tied.{TiedOver, tied_over, tied_of, tied_worth, settled, settled_of, no_tied, tie, ties};
ghost use Rattle.scales.specs.Cut.{top_amount};
ghost use Rattle.scales.specs.AdjoinedLaws.{adjoined_laws};
ghost use Rattle.scales.specs.TieLaws.{ties_laws, tie_cut};

use crate::amount::cut_sum;
use crate::{PricedScale, Scale, TOP_AMOUNT};
use std::cmp::Ordering;

// None, over, or an amount with an inner value. An amount from the greatest amount on is read as over.
#[derive(Clone, Copy)]
pub enum Tied<S> {
    Nothing,
    Over,
    Amount(u64, S),
}

impl<S: Scale> Tied<S> {
    // The amount with an inner value, or over from the greatest amount on.
    fn tie(amount: u64, inner: S) -> Tied<S>
        ensures { tied_of S.Scale.meaning result ≡ Some (tie top_amount amount (S.Scale.meaning inner)) }
    {
        if amount < TOP_AMOUNT {
            Tied::Amount(amount, inner)
        } else {
            Tied::Over
        }
    }

    // The amount with its inner value, if there is one and it is not over.
    pub fn best(self) -> Option<(u64, S)>
        ensures { settled_of S.Scale.meaning result ≡ settled (tied_of S.Scale.meaning self) }
    {
        match self {
            Tied::Amount(a, x) if a < TOP_AMOUNT => Some((a, x)),
            _ => None,
        }
    }
}

impl<S: Scale> Scale for Tied<S> {
    ghost Meaning = { TiedOver S.Scale.Meaning };

    ghost meaning = { tied_of S.Scale.meaning };

    ghost ring = { tied_over S.Scale.ring };

    ghost zero = { no_tied };

    ghost laws = { let r = S.Scale.ring in
        adjoined_laws (ties top_amount r) (ties_laws top_amount r S.Scale.laws) };

    fn nought() -> Tied<S> {
        Tied::Nothing
    }

    fn unit() -> Tied<S> {
        Tied::Amount(0, S::unit())
    }

    fn sum(self, other: Tied<S>) -> Tied<S> {
        match (self, other) {
            (Tied::Nothing, _) => other,
            (_, Tied::Nothing) => self,
            (Tied::Amount(a, x), Tied::Amount(b, y)) => match a.cmp(&b) {
                Ordering::Less => other,
                Ordering::Equal => Tied::Amount(a, x.sum(y)),
                Ordering::Greater => self,
            },
            _ => Tied::Over,
        }
    }

    fn product(self, other: Tied<S>) -> Tied<S> {
        match (self, other) {
            (Tied::Nothing, _) | (_, Tied::Nothing) => Tied::Nothing,
            (Tied::Amount(a, x), Tied::Amount(b, y)) => Tied::tie(cut_sum(a, b), x.product(y)),
            _ => Tied::Over,
        }
    }
}

impl<S: PricedScale> PricedScale for Tied<S> {
    ghost worth = { tied_worth S.PricedScale.worth };

    ghost cuts = { λ price. ap Some (tie_cut top_amount (λ p. S.Scale.meaning (S.PricedScale.worth p)) price) };

    fn worth(price: u64) -> Tied<S> {
        Tied::tie(price, S::worth(price))
    }
}
