// What a sale answers, held against the brute force.
use crate::brute_force::{Appraisals, BidSet, Found, Offer, charge, go_through};
use crate::opening::{Case, as_masks, as_runs};
use bids::limits::MAX_PACKAGES;
use packages::{Mask, Package};
use sale::Sale;
use scales::{BestThree, Count, Revenue, Scale, TOP_COUNT, Tied};
use std::alloc::Global;
use std::process::Abort;
use std::test::Fail;

// The places of a workspace for a small sale, of which the last is never used.
const PLACES: usize = 9;

// What stands in a place beforehand.
const MARK: u64 = 77;

// What stands in a byte of the award beforehand.
const BYTE: u8 = 9;

// Appraisals in each scale.
pub(crate) fn check_appraisals<P: Package>(
    rt: &impl Abort,
    sale: &Sale<P>,
    found: &Appraisals,
) -> Result<(), Fail> {
    let count = sale.appraise(&mut [Count::nought(); MAX_PACKAGES])?;
    assert_eq!(rt; count.value(), found.count);
    let revenue = sale.appraise(&mut [Revenue::nought(); MAX_PACKAGES])?;
    assert_eq!(rt; revenue.amount(), Some(found.revenue));
    let top = sale.appraise(&mut [BestThree::nought(); MAX_PACKAGES])?;
    assert!(rt; top.amounts() == found.top);
    let tied: Tied<Count> = sale.appraise(&mut [Tied::Nothing; MAX_PACKAGES])?;
    let Some((amount, ways)) = tied.best() else {
        return Err(Fail::new("no best set"));
    };
    assert_eq!(rt; amount, found.revenue);
    assert_eq!(rt; ways.value(), found.ways);
    Ok(())
}

// A small sale, and the same for the brute force: its bids, and its packages as sets of lots.
#[derive(Clone, Copy)]
struct Checked<'a, P: Package> {
    sale: &'a Sale<P>,
    offers: &'a [Offer],
    packages: &'a [Mask],
}

impl<P: Package> Checked<'_, P> {
    // The places of a workspace: for each package what is expected of the bids on it and inside it, and then what stood there before.
    fn check_places<F: Fn(Found) -> u64>(self, rt: &impl Abort, work: &[Count], expected: F)
        requires { F.IsAlwaysCallable expected }
    {
        for (place, package) in work.iter().zip(self.packages) {
            let lots = package.bits;
            let within = BidSet::of(self.offers, |offer| offer.lots & lots == offer.lots);
            assert_eq!(rt; place.value(), expected(within.go_through()));
        }
        for place in work.iter().skip(self.packages.len()) {
            assert_eq!(rt; place.value(), MARK);
        }
    }

    // The total in Count of the prices as worths, and the workspaces of this total and of the appraisal, in which each bid is worth 1.
    fn check_totals(self, rt: &impl Abort, heap: Global, found: &Found) -> Result<(), Fail> {
        let worths: Vec<Count> = self
            .offers
            .iter()
            .map(|offer| Count {
                number: offer.price,
            })
            .collect(heap)?;
        let mut work = [Count { number: MARK }; PLACES];
        let total = self.sale.total(worths.as_slice(), &mut work)?;
        assert_eq!(rt; total.value(), found.products.min(TOP_COUNT));
        self.check_places(rt, &work, |found| found.products.min(TOP_COUNT));
        let mut work = [Count { number: MARK }; PLACES];
        self.sale.appraise(&mut work)?;
        self.check_places(rt, &work, |found| found.appraisals.count);
        Ok(())
    }

    // The bytes of the award and its three numbers.
    fn check_award(self, rt: &impl Abort, found: &Found) -> Result<(), Fail> {
        let mut bytes = [BYTE; 8];
        let (revenue, winners, lots) = self.sale.award(&mut bytes)?;
        for (byte, offer) in bytes.iter().zip(self.offers) {
            assert_eq!(rt; *byte, u8::from(found.award.has(offer)));
        }
        for byte in bytes.iter().skip(self.offers.len()) {
            assert_eq!(rt; *byte, BYTE);
        }
        assert_eq!(rt; revenue, found.appraisals.revenue);
        assert_eq!(rt; winners, found.award.bits.count_ones() as usize);
        assert_eq!(rt; lots, u64::from(found.award.lots().count_ones()));
        Ok(())
    }

    // The charges of buyers with bids and without.
    fn check_charges(self, rt: &impl Abort) {
        for buyer in 1..=6 {
            let answer = self.sale.charge(buyer).map_err(|fault| fault.refusal());
            assert_eq!(rt; answer, charge(self.offers, buyer).ok_or((32, 0)));
        }
    }

    // All that a sale answers.
    fn check(self, rt: &impl Abort, heap: Global) -> Result<(), Fail> {
        let found = go_through(self.offers);
        check_appraisals(rt, self.sale, &found.appraisals)?;
        self.check_totals(rt, heap, &found)?;
        self.check_award(rt, &found)?;
        self.check_charges(rt);
        Ok(())
    }
}

// A small sale, held against the brute force, to which its packages are sets of lots.
fn check_on<P: Package>(
    rt: &impl Abort,
    heap: Global,
    case: Case<'_, P>,
    packages: &[Mask],
) -> Result<(), Fail> {
    let sale = case.open(heap)?;
    let offers = case.on(packages).offers(heap)?;
    let checked = Checked {
        sale: &sale,
        offers: offers.as_slice(),
        packages,
    };
    checked.check(rt, heap)
}

// A small sale of masks.
pub(crate) fn check_masks(rt: &impl Abort, heap: Global, case: Case<'_, Mask>) -> Result<(), Fail> {
    check_on(rt, heap, case, case.packages)
}

// A small sale, as one of runs and as one of masks.
pub(crate) fn check_case(
    rt: &impl Abort,
    heap: Global,
    case: Case<'_, (u16, u16)>,
) -> Result<(), Fail> {
    let masks = as_masks(heap, case.packages)?;
    let runs = as_runs(heap, case.packages)?;
    check_on(rt, heap, case.on(runs.as_slice()), masks.as_slice())?;
    check_masks(rt, heap, case.on(masks.as_slice()))
}
