// Totals over the clash-free sets of standing bids, by one way up the nest.
ghost use Rattle.std.specs.Prelude.{◌≡◌, ℕ, ◌<◌, ◌≤◌, length, vec_len, slice_index_or};
ghost use Rattle.nest.specs.Choosing.{worth_by};
ghost use Rattle.nest.specs.Asking.{Askable, Answers};
ghost use Rattle.nest.specs.Totals.{NestTotal, TotalOf, AppraisalOf};

use crate::chains::Chains;
use crate::fault::TotalFault;
use crate::nest::Nest;
use bids::Bid;
use scales::{PricedScale, Scale};

// Writes the unit into each place. (`fill` asks for a clone that cannot fail, which a scale does not promise.)
fn clear<S: Scale>(places: &mut [S])
    ensures { (k : ℕ) (d : S) → k < length places.old → S.Scale.meaning (slice_index_or places.new k d) ≡ S.Scale.ring.unit }
{
    for place in places.iter_mut() {
        *place = S::unit();
    }
}

impl Nest {
    // One way up the nest, from the last package to the first: each package's own worths are added to the product of its children, which
    // is then multiplied into its parent's place.
    pub(crate) fn total_from<S: Scale, F: Fn(usize, Bid) -> S>(&self, worth: F, work: &mut [S]) -> S
        requires askable { Askable (F.pre worth) self.now.bids.items }
        requires room { vec_len self.now.parents ≤ length work.old }
        ensures { (at : ℕ → Bid → S) → Answers S.Scale.meaning (F.post worth) self.now.bids.items at → NestTotal S.Scale.meaning S.Scale.ring self.now (worth_by S.Scale.meaning at self.now.bids.items) work.old work.new result }
    {
        let chains = Chains::of(self);
        clear(&mut work[..self.parents.len()]);
        let mut result = S::unit();
        for (g, parent) in self.parents.iter().enumerate().rev() {
            let whole = work[g].sum(chains.own_worth(&worth, g));
            work[g] = whole;
            match *parent {
                None => result = result.product(whole),
                Some(p) => {
                    let place = &mut work[p - 1];
                    *place = place.product(whole);
                }
            }
        }
        result
    }

    // The total of the clash-free sets of standing bids, with one worth for each numbered bid.
    pub fn total<S: Scale>(&self, worths: &[S], work: &mut [S]) -> Result<S, TotalFault>
        ensures { TotalOf S.Scale.meaning S.Scale.ring self.now worths.now work.old work.new result }
    {
        if worths.len() != self.bids.len() {
            return Err(TotalFault::Worths);
        }
        if work.len() < self.parents.len() {
            return Err(TotalFault::Workspace);
        }
        Ok(self.total_from(|number, _| worths[number - 1], work))
    }

    // The total with the worths of the bids' own prices.
    pub fn appraise<S: PricedScale>(&self, work: &mut [S]) -> Result<S, TotalFault>
        ensures { AppraisalOf S.Scale.meaning S.Scale.ring S.PricedScale.worth self.now work.old work.new result }
    {
        if self.parents.len() > work.len() {
            return Err(TotalFault::Workspace);
        }
        Ok(self.total_from(|_, bid| S::worth(u64::from(bid.price)), work))
    }
}
