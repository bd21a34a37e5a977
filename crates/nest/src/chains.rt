// The standing bids of each package, so that they need not be searched for.
ghost use Rattle.std.specs.Prelude.{◌≡◌, ℕ, ◌+◌, ◌<◌, vec_len};
ghost use Rattle.bids.specs.Limits.{max_packages};
ghost use Rattle.nest.specs.Asking.{Askable, Answers};
ghost use Rattle.nest.specs.Chains.{Chained, own_in};
ghost use Rattle.nest.specs.Choosing.{worth_by};

use crate::nest::Nest;
use bids::Bid;
use bids::limits::{MAX_BIDS, MAX_PACKAGES};
use scales::Scale;

// The standing bids of each package, chained from the last one down by their numbers; 0 ends a chain. So a total needs the same memory in
// every scale, where a list of the packages' own worths would grow with the values of the scale. The lists are arrays, since a total does
// not fail for want of memory, and hold numbers, since with Options a total in a plain scale took a third more time.
#[derive(Drop)]
pub(crate) struct Chains<'a> {
    nest: &'a Nest,
    // For each package its last standing bid.
    last: [u16; MAX_PACKAGES],
    // For each standing bid the one before it on its package.
    before: [u16; MAX_BIDS],
    ghost chained: { Chained max_packages nest.now.bids.items last before (vec_len nest.now.bids) },
}

impl<'a> Chains<'a> {
    pub(crate) fn of(nest: &'a Nest) -> Chains<'a>
        ensures { result.nest.now ≡ nest.now }
    {
        let mut last = [0; MAX_PACKAGES];
        let mut before = [0; MAX_BIDS];
        for (i, bid) in nest.bids.iter().enumerate() {
            if !bid.withdrawn {
                let place = bid.package - 1;
                before[i] = last[place];
                last[place] = i as u16 + 1;
            }
        }
        Chains { nest, last, before }
    }

    // The sum of the worths of the standing bids on the package at this place.
    pub(crate) fn own_worth<S: Scale, F: Fn(usize, Bid) -> S>(&self, worth: &F, place: usize) -> S
        requires askable { Askable (F.pre worth.now) self.now.nest.now.bids.items }
        requires within { place < max_packages }
        ensures { (at : ℕ → Bid → S) → Answers S.Scale.meaning (F.post worth.now) self.now.nest.now.bids.items at → S.Scale.meaning result ≡ own_in S.Scale.ring self.now.nest.now.bids.items (worth_by S.Scale.meaning at self.now.nest.now.bids.items) (place + 1) }
    {
        let mut sum = S::nought();
        let mut number = usize::from(self.last[place]);
        while number > 0 {
            sum = sum.sum(worth(number, self.nest.bids[number - 1]));
            number = usize::from(self.before[number - 1]);
        }
        sum
    }
}
