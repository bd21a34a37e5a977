// What a buyer's bids cost the others.
ghost use Rattle.std.specs.Prelude.{◌≡◌};
ghost use Rattle.contest.specs.Contest.{has_bid as has_bid_in, charge as charge_in, award as award_in, bids_of, sum_over};
ghost use Rattle.nest.specs.Contests.{contest_of_nest, price_in};
ghost use Rattle.nest.specs.Charges.{Charged};

use crate::fault::ChargeFault;
use crate::nest::Nest;
use crate::winners::Winners;
use bids::Bid;
use bids::limits::{MAX_PACKAGES, is_buyer};
use scales::revenue::Revenue;
use scales::{PricedScale, Scale};

impl Nest {
    // Whether the buyer has a numbered bid.
    fn has_bid(&self, buyer: u32) -> bool
        ensures { result ≡ has_bid_in (contest_of_nest self.now) buyer }
    {
        self.bids.iter().any(|bid| bid.buyer == buyer)
    }

    // What the others could have fetched without the buyer, less what they fetch.
    fn charge_from(&self, buyer: u32) -> u64
        ensures { result ≡ charge_in (contest_of_nest self.now) buyer }
    {
        let others = Winners::of(self).sum(|_, bid| if bid.buyer == buyer { 0 } else { bid.price });
        // An array, since a charge does not fail for want of memory.
        let mut work = [Revenue::nought(); MAX_PACKAGES];
        let best = self.total_from(
            |_, bid| {
                if bid.buyer == buyer {
                    Revenue::nought()
                } else {
                    Revenue::worth(u64::from(bid.price))
                }
            },
            &mut work,
        );
        best.amount().unwrap_or(0) - others
    }

    // The greatest revenue without the buyer's bids, less the prices of the others' winning bids.
    pub fn charge(&self, buyer: u32) -> Result<u64, ChargeFault>
        ensures { Charged (contest_of_nest self.now) buyer result }
    {
        if !is_buyer(u64::from(buyer)) {
            return Err(ChargeFault::Buyer);
        }
        if !self.has_bid(buyer) {
            return Err(ChargeFault::NoBid);
        }
        Ok(self.charge_from(buyer))
    }

    // What the buyer's winning bids come to at other prices, those of `prices` by number; a bid beyond the list counts 0.
    pub fn winnings(&self, prices: &[Bid], buyer: u32) -> u64
        ensures { result ≡ sum_over (contest_of_nest self.now).count (bids_of (contest_of_nest self.now) buyer (award_in (contest_of_nest self.now))) (price_in prices.now) }
    {
        Winners::of(self).sum(|number, bid| {
            if bid.buyer == buyer {
                prices.get(number - 1).map_or(0, |other| other.price)
            } else {
                0
            }
        })
    }
}
