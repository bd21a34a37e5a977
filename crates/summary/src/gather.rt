// What is gathered for a report: the winning bids, who pays what for his, and what appraisals say.
ghost use Rattle.std.specs.Prelude.{◌≡◌, ◌&&◌, ◌==◌, if◌then◌else◌, IfOk};
ghost use Rattle.std.specs.List.{list_any};
ghost use Rattle.bids.specs.Limits.{is_buyer};
ghost use Rattle.contest.specs.Contest.{Contest, best_revenue};
ghost use Rattle.contest.specs.Total.{total_by};
ghost use Rattle.nest.specs.Totals.{price_worths};
ghost use Rattle.summary.specs.Marked.{AwardMarked};
ghost use Rattle.summary.specs.Reports.{winners_of, wins_some, payment_of, payments_of, said, report_of};
ghost use Rattle.scales.specs.Places.{Packed};
ghost use Rattle.books.specs.Contests.{contest_of};
ghost use Rattle.sale.specs.Questions.{ByBook};

use crate::contents::{Payment, Summary, Winner};
use bids::Bid;
use bids::limits::HIGHEST_BUYER;
use packages::Package;
use sale::Sale;
use scales::PricedScale;
use scales::best_three::BestThree;
use scales::count::Count;
use scales::tied::Tied;
use std::alloc::{AllocError, Global};

// The bids whose byte is 1, by number. Where the bytes mark the award of a contest, they are its winning bids. The award is a list
// of bytes by the rules; of this crate only this function reads it.
fn marked_bids(heap: Global, bids: &[Bid], marks: &[u8]) -> Result<Vec<Winner>, AllocError>
    ensures { IfOk result (λ v. (c : Contest) → AwardMarked c bids.now marks.now → v.items ≡ winners_of c) }
{
    bids.iter()
        .zip(marks)
        .enumerate()
        .filter(|(_, (_, mark))| **mark == 1)
        .map(|(i, (bid, _))| Winner {
            number: i + 1,
            buyer: bid.buyer,
            price: bid.price,
        })
        .collect(heap)
}

// The award's revenue, and its bids by number. There is a byte for each bid, so the award is not refused.
fn award<P: Package>(heap: Global, sale: &Sale<P>) -> Result<(u64, Vec<Winner>), AllocError>
    ensures { IfOk result (λ r. ByBook P.Package.meaning sale.now (λ b. (r.0 ≡ best_revenue (contest_of b)) × (r.1.items ≡ winners_of (contest_of b)))) }
{
    let bids = sale.bids();
    let mut marks = vec![in heap; 0u8; bids.len()]?;
    let revenue = sale
        .award(marks.as_mut_slice())
        .map_or(0, |(revenue, _, _)| revenue);
    let winners = marked_bids(heap, bids, marks.as_slice())?;
    Ok((revenue, winners))
}

// Whether one of the winning bids is the buyer's.
fn wins(winners: &[Winner], buyer: u32) -> bool
    ensures { result ≡ list_any (λ (w : _). w.buyer == buyer) winners.now }
{
    winners.iter().any(|winner| winner.buyer == buyer)
}

// What a buyer pays, if he has a winning bid; he is then never refused.
fn payment<P: Package>(sale: &Sale<P>, winners: &[Winner], buyer: u32) -> Option<Payment>
    ensures { ByBook P.Package.meaning sale.now (λ b. let c = contest_of b in winners.now ≡ winners_of c → result ≡ (if is_buyer buyer && wins_some c buyer then Some (payment_of c buyer) else None)) }
{
    if !wins(winners, buyer) {
        return None;
    }
    let amount = sale.charge(buyer).ok()?;
    Some(Payment { buyer, amount })
}

// What each buyer with a winning bid pays, in rising order of buyer.
fn payments<P: Package>(
    heap: Global,
    sale: &Sale<P>,
    winners: &[Winner],
) -> Result<Vec<Payment>, AllocError>
    ensures { IfOk result (λ v. ByBook P.Package.meaning sale.now (λ b. winners.now ≡ winners_of (contest_of b) → v.items ≡ payments_of (contest_of b))) }
{
    (1..=HIGHEST_BUYER as u32)
        .filter_map(|buyer| payment(sale, winners, buyer))
        .collect(heap)
}

// The total of the bids' own prices in a scale. The workspace has a place for each package, so the total is not refused.
fn appraisal<P: Package, S: PricedScale>(heap: Global, sale: &Sale<P>) -> Result<S, AllocError>
    ensures { IfOk result (λ s. ByBook P.Package.meaning sale.now (λ b. S.Scale.meaning s ≡ total_by S.Scale.ring (contest_of b) (price_worths S.Scale.meaning S.PricedScale.worth (contest_of b)))) }
{
    let mut work = vec![in heap; S::nought(); sale.packages().len()]?;
    Ok(sale.appraise(work.as_mut_slice()).unwrap_or(S::nought()))
}

impl Summary {
    // The report of a sale. Only want of memory is an error.
    pub fn of<P: Package>(heap: Global, sale: &Sale<P>) -> Result<Summary, AllocError>
        ensures report { IfOk result (λ s. ByBook P.Package.meaning sale.now (λ b. said s ≡ report_of (contest_of b))) }
        ensures packed { IfOk result (λ s. Packed s.top) }
    {
        let (revenue, winners) = award(heap, sale)?;
        let payments = payments(heap, sale, winners.as_slice())?;
        let tied: Tied<Count> = appraisal(heap, sale)?;
        let best: BestThree = appraisal(heap, sale)?;
        Ok(Summary {
            revenue,
            winners,
            payments,
            ways: tied.best().map_or(0, |(_, count)| count.value()),
            top: best.amounts(),
        })
    }
}
