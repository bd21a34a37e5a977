// The worked sales of the rules, with the answers that the rules give or that follow from them by hand.
// The brute force has to find these answers, and the library those of the brute force.
use crate::agreement::{check_case, check_masks};
use crate::brute_force::{Appraisals, charge, go_through};
use crate::opening::{Case, PAIR, as_masks, as_runs};
use packages::Mask;
use scales::{Count, Scale, TOP_COUNT};
use std::alloc::Global;
use std::process::Abort;
use std::test::Fail;

// A sale's bids as buyer, price and package, and its withdrawn bids; and what it answers.
#[derive(Clone, Copy)]
struct Worked<'a> {
    bids: &'a [(u32, u32, usize)],
    withdrawn: &'a [usize],
    appraisals: Appraisals,
    // The winning bids, bid 1 last.
    award: u32,
    lots_sold: u32,
    // What buyers 1, 2 and 3 pay; none without a numbered bid.
    charges: [Option<u64>; 3],
}

impl<'a> Worked<'a> {
    // Its bids on these packages.
    fn on<P>(&self, packages: &'a [P]) -> Case<'a, P> {
        Case {
            packages,
            bids: self.bids,
            withdrawn: self.withdrawn,
        }
    }
}

const SALE_1: Worked<'static> = Worked {
    bids: &[(1, 10, 1), (2, 6, 2), (3, 5, 3)],
    withdrawn: &[],
    appraisals: Appraisals {
        count: 5,
        revenue: 11,
        ways: 1,
        top: [Some(11), Some(10), Some(6)],
    },
    award: 0b110,
    lots_sold: 2,
    charges: [Some(0), Some(5), Some(4)],
};

const SALE_2: Worked<'static> = Worked {
    bids: &[(1, 11, 1), (2, 6, 2), (3, 5, 3)],
    withdrawn: &[],
    appraisals: Appraisals {
        count: 5,
        revenue: 11,
        ways: 2,
        top: [Some(11), Some(11), Some(6)],
    },
    award: 0b001,
    lots_sold: 2,
    charges: [Some(11), Some(0), Some(0)],
};

const SALE_3: Worked<'static> = Worked {
    bids: &[(1, 10, 1), (1, 6, 2), (3, 5, 3)],
    withdrawn: &[],
    appraisals: Appraisals {
        count: 5,
        revenue: 11,
        ways: 1,
        top: [Some(11), Some(10), Some(6)],
    },
    award: 0b110,
    lots_sold: 2,
    charges: [Some(0), None, Some(4)],
};

const SALE_4: Worked<'static> = Worked {
    bids: &[(1, 10, 1), (2, 6, 2), (3, 5, 3)],
    withdrawn: &[3],
    appraisals: Appraisals {
        count: 3,
        revenue: 10,
        ways: 1,
        top: [Some(10), Some(6), Some(0)],
    },
    award: 0b001,
    lots_sold: 2,
    charges: [Some(6), Some(0), Some(0)],
};

const SALE_5: Worked<'static> = Worked {
    bids: &[],
    withdrawn: &[],
    appraisals: Appraisals {
        count: 1,
        revenue: 0,
        ways: 1,
        top: [Some(0), None, None],
    },
    award: 0b000,
    lots_sold: 0,
    charges: [None, None, None],
};

const SALE_6: Worked<'static> = Worked {
    bids: &[(1, 7, 2), (2, 7, 2)],
    withdrawn: &[],
    appraisals: Appraisals {
        count: 3,
        revenue: 7,
        ways: 2,
        top: [Some(7), Some(7), Some(0)],
    },
    award: 0b01,
    lots_sold: 1,
    charges: [Some(7), Some(0), None],
};

// Sale 1 where buyer 2 lodges 9, and where he lodges 4.
const SALE_7_HIGHER: Worked<'static> = Worked {
    bids: &[(1, 10, 1), (2, 9, 2), (3, 5, 3)],
    withdrawn: &[],
    appraisals: Appraisals {
        count: 5,
        revenue: 14,
        ways: 1,
        top: [Some(14), Some(10), Some(9)],
    },
    award: 0b110,
    lots_sold: 2,
    charges: [Some(0), Some(5), Some(1)],
};

const SALE_7_LOWER: Worked<'static> = Worked {
    bids: &[(1, 10, 1), (2, 4, 2), (3, 5, 3)],
    withdrawn: &[],
    appraisals: Appraisals {
        count: 5,
        revenue: 10,
        ways: 1,
        top: [Some(10), Some(9), Some(5)],
    },
    award: 0b001,
    lots_sold: 2,
    charges: [Some(9), Some(0), Some(0)],
};

// Masks: package 1 has lots 1 and 3, package 2 lot 3 and package 3 lot 2, so that only bids 1 and 2 clash.
const WITH_GAP: [Mask; 3] = [Mask { bits: 5 }, Mask { bits: 4 }, Mask { bits: 2 }];

const SALE_WITH_GAP: Worked<'static> = Worked {
    bids: &[(1, 10, 1), (2, 6, 2), (3, 5, 3)],
    withdrawn: &[],
    appraisals: Appraisals {
        count: 6,
        revenue: 15,
        ways: 1,
        top: [Some(15), Some(11), Some(10)],
    },
    award: 0b101,
    lots_sold: 3,
    charges: [Some(6), Some(0), Some(0)],
};

// The brute force finds what was worked out.
fn check_found(
    rt: &impl Abort,
    heap: Global,
    masks: &[Mask],
    worked: &Worked<'_>,
) -> Result<(), Fail> {
    let offers = worked.on(masks).offers(heap)?;
    let offers = offers.as_slice();
    let found = go_through(offers);
    assert!(rt; found.appraisals == worked.appraisals);
    assert_eq!(rt; found.award.bits, worked.award);
    assert_eq!(rt; found.award.lots().count_ones(), worked.lots_sold);
    assert!(rt; [1, 2, 3].map(|buyer| charge(offers, buyer)) == worked.charges);
    Ok(())
}

#[test]
fn worked_sales(rt: HostRuntime) -> Result<(), Fail> {
    let heap = rt.alloc();
    let masks = as_masks(heap, &PAIR)?;
    for worked in [
        SALE_1,
        SALE_2,
        SALE_3,
        SALE_4,
        SALE_5,
        SALE_6,
        SALE_7_HIGHER,
        SALE_7_LOWER,
    ] {
        check_found(&rt, heap, masks.as_slice(), &worked)?;
        check_case(&rt, heap, worked.on(&PAIR))?;
    }
    check_found(&rt, heap, &WITH_GAP, &SALE_WITH_GAP)?;
    check_masks(&rt, heap, SALE_WITH_GAP.on(&WITH_GAP))
}

// Worked sale 7: what buyer 2, who has bid 2, gains where it is worth 6 to him.
#[test]
fn gains_of_a_buyer(rt: HostRuntime) {
    for (worked, gain) in [(SALE_1, 1), (SALE_7_HIGHER, 1), (SALE_7_LOWER, 0)] {
        let won: u64 = if worked.award & 0b010 != 0 { 6 } else { 0 };
        let [_, paid, _] = worked.charges;
        assert_eq!(rt; won.checked_sub(paid.unwrap_or(0)), Some(gain));
    }
}

// Worked sale 9, by a total: two bids that do not clash, each with as many ways to be left out or taken as its worth and one.
#[test]
fn counts_are_cut(rt: HostRuntime) -> Result<(), Fail> {
    let heap = rt.alloc();
    let runs = as_runs(heap, &PAIR)?;
    let case = Case {
        packages: runs.as_slice(),
        bids: &[(1, 1, 2), (2, 1, 3)],
        withdrawn: &[],
    };
    let sale = case.open(heap)?;
    for (worths, total) in [
        ([39_999, 39_999], TOP_COUNT),
        ([31_621, 31_621], 999_950_884),
        ([999_999_998, 0], TOP_COUNT),
        ([999_999_997, 0], TOP_COUNT - 1),
        ([u64::MAX, u64::MAX], TOP_COUNT),
    ] {
        let worths = worths.map(|number| Count { number });
        let value = sale.total(&worths, &mut [Count::nought(); 3])?;
        assert_eq!(rt; value.value(), total);
    }
    Ok(())
}
