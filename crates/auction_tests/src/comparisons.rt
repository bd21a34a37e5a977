// Two sales compared for a buyer: whether the same bids stand and clash, and what he gains at each.
use crate::opening::{Case, PAIR, as_masks, as_runs};
use nest::ChargeFault;
use packages::{Mask, Run};
use sale::{Comparison, compare_sales};
use scales::Count;
use std::test::Fail;

// Buyer 2, to whom his bid is worth 6, bids 6 in a sale of runs and another price in one of masks.
fn compared(
    rt: &HostRuntime,
    price: u32,
    here: &[usize],
    there: &[usize],
    buyer: u32,
) -> Result<Result<Comparison, ChargeFault>, Fail> {
    let runs = as_runs(rt.alloc(), &PAIR)?;
    let masks = as_masks(rt.alloc(), &PAIR)?;
    let first = Case {
        packages: runs.as_slice(),
        bids: &[(1, 10, 1), (2, 6, 2), (3, 5, 3)],
        withdrawn: here,
    };
    let second = Case {
        packages: masks.as_slice(),
        bids: &[(1, 10, 1), (2, price, 2), (3, 5, 3)],
        withdrawn: there,
    };
    let first = first.open(rt.alloc())?;
    let second = second.open(rt.alloc())?;
    Ok(compare_sales::<Run, Mask, Count>(&first, &second, buyer))
}

// the other price, the bids withdrawn in each sale, whether the contests are the same, and the two gains
const COMPARED: [(u32, &[usize], &[usize], bool, i128, i128); 6] = [
    (6, &[], &[], true, 1, 1),
    (9, &[], &[], true, 1, 1),
    (4, &[], &[], true, 1, 0),
    (6, &[], &[2], false, 1, 0),
    (6, &[1], &[], false, 6, 1),
    // with bid 3 withdrawn he wins at 12, and pays 10 for what is worth 6
    (12, &[3], &[3], true, 0, -4),
];

#[test]
fn gains_are_at_the_first_prices(rt: HostRuntime) -> Result<(), Fail> {
    for (price, here, there, same, first, second) in COMPARED {
        let expected = Comparison {
            same,
            first_gain: first,
            second_gain: second,
        };
        assert_eq!(rt; compared(&rt, price, here, there, 2)?, Ok(expected));
    }
    Ok(())
}

#[test]
fn a_buyer_without_a_charge_is_refused(rt: HostRuntime) -> Result<(), Fail> {
    for (buyer, fault) in [
        (0, ChargeFault::Buyer),
        (1000, ChargeFault::Buyer),
        (4, ChargeFault::NoBid),
    ] {
        assert_eq!(rt; compared(&rt, 6, &[], &[], buyer)?, Err(fault));
    }
    Ok(())
}
