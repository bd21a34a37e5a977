// Totals and appraisals of a sale.
ghost use Rattle.std.specs.Prelude.{length};
ghost use Rattle.nest.specs.Totals.{Totalled, total_check, appraise_check, listed_worths, price_worths};
ghost use Rattle.books.specs.Contests.{contest_of, contest_within};
ghost use Rattle.sale.specs.Questions.{ByBook};

use crate::state::Sale;
use nest::TotalFault;
use packages::Package;
use scales::{PricedScale, Scale};

impl<P: Package> Sale<P> {
    // The sum, over the clash-free sets of standing bids, of the products of their worths. There is one worth for each numbered bid.
    // Afterwards place g of the workspace holds the same over the bids on package g and inside it only.
    pub fn total<S: Scale>(&self, worths: &[S], work: &mut [S]) -> Result<S, TotalFault>
        ensures { ByBook P.Package.meaning self.now (λ b. Totalled S.Scale.meaning S.Scale.ring (contest_of b) (contest_within b) (length b.packages) (total_check (length b.bids) (length b.packages) (length worths.now) (length work.old)) (listed_worths S.Scale.meaning S.Scale.ring worths.now) work.old work.new result) }
    {
        self.nest.total(worths, work)
    }

    // The total with the worths of the bids' own prices.
    pub fn appraise<S: PricedScale>(&self, work: &mut [S]) -> Result<S, TotalFault>
        ensures { ByBook P.Package.meaning self.now (λ b. Totalled S.Scale.meaning S.Scale.ring (contest_of b) (contest_within b) (length b.packages) (appraise_check (length b.packages) (length work.old)) (price_worths S.Scale.meaning S.PricedScale.worth (contest_of b)) work.old work.new result) }
    {
        self.nest.appraise(work)
    }
}
