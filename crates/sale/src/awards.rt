// The award of a sale, and what each buyer is charged.
ghost use Rattle.std.specs.Prelude.{◌≡◌, ◌≤◌, map, length, if◌then◌else◌, vec_len};
ghost use Rattle.packages.specs.Lots.{size_of};
ghost use Rattle.packages.specs.Places.{package_at};
ghost use Rattle.contest.specs.Contest.{sum_over};
ghost use Rattle.contest.specs.Descent.{marked};
ghost use Rattle.nest.specs.Charges.{Charged};
ghost use Rattle.books.specs.Contests.{contest_of};
ghost use Rattle.sale.specs.Awards.{Awarded, size_in};
ghost use Rattle.sale.specs.Holds.{permitted};
ghost use Rattle.sale.specs.Questions.{ByBook};

use crate::state::Sale;
use bids::Bid;
use nest::{AwardFault, ChargeFault};
use packages::Package;

// The number of lots of a winning bid's package, else 0.
fn lots_of<P: Package>(packages: &[P], bid: Bid, wins: bool) -> u64
    requires low { 1 ≤ bid.«package» }
    requires high { bid.«package» ≤ length packages.now }
    ensures value { result ≡ (if wins then size_of (package_at (map P.Package.meaning packages.now) bid.«package») else 0) }
    ensures most { result ≤ 4294967295 }
{
    if wins {
        u64::from(packages[bid.package - 1].size())
    } else {
        0
    }
}

impl<P: Package> Sale<P> {
    // The sizes of the marked bids' packages, together. The nest knows no sizes, and says by bytes which bids win, as the rules ask.
    fn sizes(&self, marks: &[u8]) -> u64
        requires { vec_len self.now.nest.bids ≤ length marks.now }
        ensures { result ≡ sum_over (vec_len self.now.nest.bids) (marked marks.now) (size_in (map P.Package.meaning (permitted self.now)) self.now.nest.bids.items) }
    {
        let packages = self.packages();
        let mut lots: u64 = 0;
        for (bid, mark) in self.nest.bids.iter().zip(marks) {
            lots += lots_of(packages, *bid, *mark == 1);
        }
        lots
    }

    // Writes 1 for each winning bid and 0 for each other, bid 1 first, and answers the revenue, the number of winning bids and the lots
    // sold.
    pub fn award(&self, out: &mut [u8]) -> Result<(u64, usize, u64), AwardFault>
        ensures { ByBook P.Package.meaning self.now (λ b. Awarded b out.old out.new result) }
    {
        let (revenue, winners) = self.nest.award(out)?;
        Ok((revenue, winners, self.sizes(out)))
    }

    // What the bids of `buyer` cost the others.
    pub fn charge(&self, buyer: u32) -> Result<u64, ChargeFault>
        ensures { ByBook P.Package.meaning self.now (λ b. Charged (contest_of b) buyer result) }
    {
        self.nest.charge(buyer)
    }
}
