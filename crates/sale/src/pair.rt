// Two sales compared, and what is promised of any two.
ghost use Rattle.std.specs.Prelude.{◌≡◌, ◌<◌, true, false, ◌↔◌, map, vec_len, pos, ◌-ℤ◌};
ghost use Rattle.contest.specs.Telling.{Same};
ghost use Rattle.books.specs.Contests.{contest_at};
ghost use Rattle.books.specs.History.{History, book_of};
ghost use Rattle.books.specs.Promises.{Promises};
ghost use Rattle.sale.specs.Compared.{clash_in, AlikeAt, Compared};
ghost use Rattle.sale.specs.Holds.{permitted, Holds};

use crate::state::Sale;
use nest::ChargeFault;
use packages::{Package, Relation};
use scales::Scale;

// What is found of two sales for one buyer.
#[derive(Clone, Copy, PartialEq, Eq, Debug)]
pub struct Comparison {
    // Whether the same bids stand in both, and the same pairs of standing bids clash.
    pub same: bool,
    // What the buyer gains at the first sale, and at the second, if his bids are worth to him what they cost in the first.
    pub first_gain: i128,
    pub second_gain: i128,
}

impl<P: Package> Sale<P> {
    // Whether the packages of the bids with places `j` and `k` share a lot. Neither package is empty.
    fn clash(&self, j: usize, k: usize) -> bool
        requires first { j < vec_len self.now.nest.bids }
        requires second { k < vec_len self.now.nest.bids }
        ensures { result ≡ clash_in (map P.Package.meaning (permitted self.now)) self.now.nest.bids.items j k }
    {
        let packages = self.packages();
        let one = packages[self.nest.bids[j].package - 1];
        let other = packages[self.nest.bids[k].package - 1];
        one.compare(&other) != Relation::Apart
    }

    // Whether the bid with place `k` stands in both sales or in none, and clashes with the same standing bids before it.
    fn is_alike<Q: Package>(&self, other: &Sale<Q>, k: usize) -> bool
        requires first { k < vec_len self.now.nest.bids }
        requires second { k < vec_len other.now.nest.bids }
        ensures yes { result ≡ true → AlikeAt (map P.Package.meaning (permitted self.now)) (map Q.Package.meaning (permitted other.now)) self.now.nest.bids.items other.now.nest.bids.items k }
        ensures no { result ≡ false → AlikeAt (map P.Package.meaning (permitted self.now)) (map Q.Package.meaning (permitted other.now)) self.now.nest.bids.items other.now.nest.bids.items k → ⊥ }
    {
        let bids = self.nest.bids.as_slice();
        if bids[k].withdrawn || other.nest.bids[k].withdrawn {
            return bids[k].withdrawn == other.nest.bids[k].withdrawn;
        }
        for (j, bid) in bids[0..k].iter().enumerate() {
            if !bid.withdrawn && self.clash(j, k) != other.clash(j, k) {
                return false;
            }
        }
        true
    }

    // Whether the same bids stand in both sales, and the same pairs of standing bids clash.
    fn is_same_contest<Q: Package>(&self, other: &Sale<Q>) -> bool
        ensures { (h k : History) → Holds P.Package.meaning self.now (book_of h) → Holds Q.Package.meaning other.now (book_of k) → (result ≡ true) ↔ Same (contest_at h) (contest_at k) }
    {
        let bids = self.nest.bids.len();
        bids == other.nest.bids.len() && (0..bids).all(|k| self.is_alike(other, k))
    }
}

// What is left of a worth after a charge; it may be below 0.
fn gain(worth: u64, charge: u64) -> i128
    ensures { result ≡ (pos worth -ℤ pos charge) }
{
    worth as i128 - charge as i128
}

// Compares two sales for a buyer. He has a charge at each, or the refusal of the first that he has not is the answer.
// What is promised of any two histories stands on this call, for every kind of package and every scale.
pub fn compare_sales<P: Package, Q: Package, S: Scale>(
    first: &Sale<P>,
    second: &Sale<Q>,
    buyer: u32,
) -> Result<Comparison, ChargeFault>
    ensures answer { (h k : History) → Holds P.Package.meaning first.now (book_of h) → Holds Q.Package.meaning second.now (book_of k) → Compared (contest_at h) (contest_at k) buyer result }
    ensures promises { Promises S.Scale.meaning S.Scale.ring }
{
    let paid = first.charge(buyer)?;
    let owed = second.charge(buyer)?;
    let prices = first.bids();
    Ok(Comparison {
        same: first.is_same_contest(second),
        first_gain: gain(first.nest.winnings(prices, buyer), paid),
        second_gain: gain(second.nest.winnings(prices, buyer), owed),
    })
}
