// The best choices inside the packages of a nest, and which packages they leave open.
ghost use Rattle.std.specs.Prelude.{◌≡◌, ℕ, ◌≤◌, length, vec_len, unwrap_or};
ghost use Rattle.contest.specs.Descent.{taken, Descends, flag};
ghost use Rattle.bids.specs.Limits.{max_packages};
ghost use Rattle.nest.specs.Contests.{parent_in, on_in};
ghost use Rattle.nest.specs.Choosing.{low_in, lowest_inside};

use crate::nest::Nest;
use bids::limits::MAX_PACKAGES;
use scales::lowest::Lowest;
use scales::tied::Tied;

// For each package of a nest the best choice of the bids inside it, with the lowest bid number in any such choice. An array, since what
// is asked of a nest does not fail for want of memory; it is lent, since to hand it on would copy it.
#[derive(Drop)]
pub(crate) struct Choices<'a> {
    nest: &'a Nest,
    best: &'a [Tied<Lowest>; MAX_PACKAGES],
    ghost lowest: { (g : ℕ) → 1 ≤ g → g ≤ vec_len nest.now.parents → low_in best.now g ≡ lowest_inside nest.now g },
}

impl<'a> Choices<'a> {
    // The total of the bids' prices with their numbers leaves the best choices in its workspace.
    pub(crate) fn of(nest: &'a Nest, best: &'a mut [Tied<Lowest>; MAX_PACKAGES]) -> Choices<'a>
        ensures { result.nest.now ≡ nest.now }
    {
        nest.total_from(
            |number, bid| Tied::Amount(u64::from(bid.price), Lowest::Bid(number)),
            best,
        );
        Choices { nest, best }
    }

    // The lowest bid number in the best choices on and inside package `g`; the definitions write 0 for none.
    pub(crate) fn lowest_in(&self, g: usize) -> Option<usize>
        requires low { 1 ≤ g }
        requires high { g ≤ max_packages }
        ensures { unwrap_or result 0 ≡ low_in self.now.best.now g }
    {
        match self.best[g - 1].best() {
            Some((_, Lowest::Bid(number))) => Some(number),
            _ => None,
        }
    }

    // Whether the bid with the lowest number in any best choice inside package `g` lies on `g` itself.
    fn is_taken(&self, g: usize) -> bool
        requires low { 1 ≤ g }
        requires high { g ≤ max_packages }
        ensures { result ≡ taken (length self.now.nest.now.bids.items) (on_in self.now.nest.now.bids.items) (low_in self.now.best.now) g }
    {
        self.lowest_in(g)
            .and_then(|number| number.checked_sub(1))
            .and_then(|i| self.nest.bids.get(i))
            .is_some_and(|bid| bid.package == g)
    }

    // Whether each package is open, from the outermost down: it is open if no bid has taken a package around it.
    pub(crate) fn opened(&self) -> [bool; MAX_PACKAGES]
        ensures { Descends (length self.now.nest.now.bids.items) (vec_len self.now.nest.now.parents) (on_in self.now.nest.now.bids.items) (parent_in self.now.nest.now.parents.items) (low_in self.now.best.now) (flag result) }
    {
        let mut opened = [false; MAX_PACKAGES];
        for (g, parent) in self.nest.parents.iter().enumerate() {
            opened[g] = match *parent {
                None => true,
                Some(p) => opened[p - 1] && !self.is_taken(p),
            };
        }
        opened
    }
}
