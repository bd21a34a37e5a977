// The largest sales: 256 packages, and 512 bids at the highest price, of which bids k and 256 + k are on package k.
// Two bids on one package clash, so no more than 256 of them can win together.
use crate::agreement::check_appraisals;
use crate::brute_force::Appraisals;
use bids::limits::{HIGHEST_BUYER, HIGHEST_PRICE, MAX_BIDS, MAX_PACKAGES};
use packages::Run;
use sale::{LodgeFault, PermitFault, Sale};
use scales::{BestThree, PricedScale, Revenue, Scale, TOP_COUNT};
use std::process::Abort;
use std::test::Fail;

// Buyer 1 has the first bid on each package, and the highest buyer the second.
const SECOND: u32 = HIGHEST_BUYER as u32;

// Lots 1 to 256, and packages that are one lot each, or each inside the one before.
fn largest(rt: &HostRuntime, deep: bool) -> Result<Sale<Run>, Fail> {
    let heap = rt.alloc();
    let table = vec![in heap; Run { first: 0, last: 0 }; MAX_PACKAGES]?;
    let mut sale = Sale::new(heap, 256, table).map_err(|_| Fail::new("no memory"))?;
    for first in 1..=256 {
        let last = if deep { 256 } else { first };
        sale.permit(Run { first, last })?;
    }
    for buyer in [1, SECOND] {
        for package in 1..=MAX_PACKAGES {
            sale.lodge(buyer, HIGHEST_PRICE as u32, package)?;
        }
    }
    Ok(sale)
}

// What is expected of a largest sale.
#[derive(Clone, Copy)]
struct Expected {
    deep: bool,
    appraisals: Appraisals,
    // How many of the first bids win, all of the first buyer, and how many lots they have.
    winners: usize,
    lots: u64,
}

const CASES: [Expected; 2] = [
    // Each package is left out, or has one of two bids: 3^256 sets, and 2^256 best ones.
    Expected {
        deep: false,
        appraisals: Appraisals {
            count: TOP_COUNT,
            revenue: 256_000_000_000,
            ways: TOP_COUNT,
            top: [Some(256_000_000_000); 3],
        },
        winners: 256,
        lots: 256,
    },
    // All bids clash: the empty set and 512 sets of one bid.
    Expected {
        deep: true,
        appraisals: Appraisals {
            count: 513,
            revenue: 1_000_000_000,
            ways: 512,
            top: [Some(1_000_000_000); 3],
        },
        winners: 1,
        lots: 256,
    },
];

fn check_award(rt: &impl Abort, sale: &Sale<Run>, expected: &Expected) -> Result<(), Fail> {
    let mut bytes = [9; MAX_BIDS];
    let answers = sale.award(&mut bytes)?;
    assert!(rt; answers == (expected.appraisals.revenue, expected.winners, expected.lots));
    for byte in bytes.iter().take(expected.winners) {
        assert_eq!(rt; *byte, 1);
    }
    for byte in bytes.iter().skip(expected.winners) {
        assert_eq!(rt; *byte, 0);
    }
    // without the first buyer the second brings as much, and without the second the first
    assert_eq!(rt; sale.charge(1)?, expected.appraisals.revenue);
    assert_eq!(rt; sale.charge(SECOND)?, 0);
    Ok(())
}

#[test]
fn largest_sales(rt: HostRuntime) -> Result<(), Fail> {
    for expected in CASES {
        let mut sale = largest(&rt, expected.deep)?;
        check_appraisals(&rt, &sale, &expected.appraisals)?;
        check_award(&rt, &sale, &expected)?;
        let package_more = sale.permit(Run { first: 2, last: 2 });
        assert_eq!(rt; package_more.map_err(PermitFault::refusal), Err((24, 0)));
        let bid_more = sale.lodge(1, 1, 1);
        assert_eq!(rt; bid_more.map_err(LodgeFault::refusal), Err((29, 0)));
        check_award(&rt, &sale, &expected)?;
    }
    Ok(())
}

// The 512 prices come to 512,000,000,000 crowns together. No clash-free set fetches as much as that, but a total with twice the
// price as the worth of each bid does, and no scale cuts it.
#[test]
fn sum_of_all_prices_is_not_cut(rt: HostRuntime) -> Result<(), Fail> {
    const DOUBLE: u64 = 2 * HIGHEST_PRICE;
    const ALL: u64 = MAX_BIDS as u64 * HIGHEST_PRICE;
    assert_eq!(rt; ALL, 512_000_000_000);
    let sale = largest(&rt, false)?;
    let mut work = [Revenue::nought(); MAX_PACKAGES];
    let best = sale.total(&[Revenue::worth(DOUBLE); MAX_BIDS], &mut work)?;
    assert_eq!(rt; best.amount(), Some(ALL));
    assert_eq!(rt; work[MAX_PACKAGES - 1].amount(), Some(DOUBLE));
    let mut work = [BestThree::nought(); MAX_PACKAGES];
    let top = sale.total(&[BestThree::worth(DOUBLE); MAX_BIDS], &mut work)?;
    assert!(rt; top.amounts() == [Some(ALL); 3]);
    Ok(())
}
