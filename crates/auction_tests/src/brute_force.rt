// What the rules say of a small sale, found by going through all sets of its bids.

// A bid as the brute force sees it. Bid k has the bit of value 2^(k - 1) in a set of bids, and lot k the like in a set of lots.
#[derive(Clone, Copy)]
pub struct Offer {
    pub bit: u32,
    pub buyer: u32,
    pub price: u64,
    pub lots: u64,
    pub stands: bool,
}

// The most bids of a sale that is gone through.
pub const MOST_OFFERS: usize = 6;

// The number of sets of so many bids.
const SETS: u32 = 64;

// Some of the bids of a sale.
#[derive(Clone, Copy)]
pub struct BidSet<'a> {
    pub offers: &'a [Offer],
    pub bits: u32,
}

impl<'a> BidSet<'a> {
    // The bids that pass a test.
    pub(crate) fn of<F: Fn(Offer) -> bool>(offers: &'a [Offer], passes: F) -> BidSet<'a>
        requires { F.IsAlwaysCallable passes }
    {
        let mut bits = 0;
        for offer in offers {
            if passes(*offer) {
                bits |= offer.bit;
            }
        }
        BidSet { offers, bits }
    }

    pub(crate) fn has(self, offer: &Offer) -> bool {
        self.bits & offer.bit != 0
    }

    // Whether all bids of the set stand, and no two of them share a lot.
    fn is_clash_free(self) -> bool {
        let mut taken: u64 = 0;
        for offer in self.offers {
            if self.has(offer) {
                if !offer.stands || taken & offer.lots != 0 {
                    return false;
                }
                taken |= offer.lots;
            }
        }
        true
    }

    // Whether the lowest bid that is in only one of the two sets is in this one.
    fn is_preferred(self, other: BidSet<'a>) -> bool {
        let lowest = self
            .offers
            .iter()
            .find(|offer| self.has(offer) != other.has(offer));
        lowest.is_some_and(|offer| self.has(offer))
    }

    // The prices, added.
    pub(crate) fn revenue(self) -> u64 {
        self.offers
            .iter()
            .filter(|offer| self.has(offer))
            .fold(0, |sum: u64, offer| sum.saturating_add(offer.price))
    }

    // The prices, multiplied.
    fn product(self) -> u64 {
        self.offers.iter().filter(|offer| self.has(offer)).fold(
            1,
            |product: u64, offer| product.saturating_mul(offer.price),
        )
    }

    // The lots that the bids have together.
    pub(crate) fn lots(self) -> u64 {
        self.offers
            .iter()
            .filter(|offer| self.has(offer))
            .fold(0, |lots: u64, offer| lots | offer.lots)
    }
}

// The appraisals of a sale, over its clash-free sets.
#[derive(Clone, Copy, PartialEq)]
pub struct Appraisals {
    // How many there are.
    pub count: u64,
    // The greatest revenue, and how many sets have it.
    pub revenue: u64,
    pub ways: u64,
    // The three greatest revenues, repeats counted.
    pub top: [Option<u64>; 3],
}

// What is found over the clash-free sets.
#[derive(Clone, Copy)]
pub struct Found<'a> {
    pub appraisals: Appraisals,
    // Their products of prices, added.
    pub products: u64,
    // Of the sets with the greatest revenue, the preferred one.
    pub award: BidSet<'a>,
}

// Three amounts in falling order, with one more put into its place.
fn with_amount(top: [Option<u64>; 3], amount: u64) -> [Option<u64>; 3] {
    let [first, second, third] = top;
    let new = Some(amount);
    if new > first {
        [new, first, second]
    } else if new > second {
        [first, new, second]
    } else if new > third {
        [first, second, new]
    } else {
        top
    }
}

impl<'a> BidSet<'a> {
    // Goes through the clash-free sets of these bids.
    pub(crate) fn go_through(self) -> Found<'a> {
        let mut found = Found {
            appraisals: Appraisals {
                count: 0,
                revenue: 0,
                ways: 0,
                top: [None, None, None],
            },
            products: 0,
            award: BidSet { bits: 0, ..self },
        };
        for bits in 0..SETS {
            let set = BidSet { bits, ..self };
            if bits & self.bits == bits && set.is_clash_free() {
                found = found.with_set(set);
            }
        }
        found
    }
}

impl<'a> Found<'a> {
    // With one more clash-free set.
    fn with_set(self, set: BidSet<'a>) -> Found<'a> {
        let revenue = set.revenue();
        let best = self.appraisals.revenue;
        let is_new = revenue > best;
        let is_tied = revenue == best;
        let ways = self.appraisals.ways;
        Found {
            appraisals: Appraisals {
                count: self.appraisals.count.saturating_add(1),
                revenue: revenue.max(best),
                ways: if is_new {
                    1
                } else {
                    ways.saturating_add(u64::from(is_tied))
                },
                top: with_amount(self.appraisals.top, revenue),
            },
            products: self.products.saturating_add(set.product()),
            award: if is_new || is_tied && set.is_preferred(self.award) {
                set
            } else {
                self.award
            },
        }
    }
}

// What is found over the clash-free sets of all bids.
pub(crate) fn go_through<'a>(offers: &'a [Offer]) -> Found<'a> {
    BidSet::of(offers, |_| true).go_through()
}

// What the buyer pays: the greatest revenue without his bids, less what the others' winning bids bring, which is never more.
// None where he has no numbered bid.
pub(crate) fn charge(offers: &[Offer], buyer: u32) -> Option<u64> {
    let others = BidSet::of(offers, |offer| offer.buyer != buyer);
    if offers.iter().all(|offer| others.has(offer)) {
        return None;
    }
    let without = others.go_through().appraisals.revenue;
    let award = go_through(offers).award;
    let kept = BidSet {
        bits: award.bits & others.bits,
        ..award
    };
    Some(without.wrapping_sub(kept.revenue()))
}
