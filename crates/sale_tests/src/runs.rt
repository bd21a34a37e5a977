// Sales of runs: permits, bids and withdrawals, in the order of the checks.
use crate::answers::{ANY, Answer, made, run};
use bids::Bid;
use sale::{LodgeFault, PermitFault, WithdrawFault};
use std::test::Fail;

// a run, and what permitting it answers, in a sale of 6 lots with 4 places
const PERMITS: [((u16, u16), Answer); 13] = [
    ((0, 2), Err((11, 0))),
    ((3, 2), Err((11, 0))),
    ((1, 7), Err((11, 0))),
    ((2, 5), Ok(1)),
    ((1, 6), Err((27, 1))),
    ((2, 5), Err((25, 1))),
    ((1, 2), Err((26, 1))),
    ((2, 3), Ok(2)),
    ((3, 4), Err((26, 2))),
    ((6, 6), Ok(3)),
    ((4, 5), Ok(4)),
    ((1, 1), Err((24, 0))),
    ((0, 1), Err((11, 0))),
];

// a buyer, a price and a package, and what lodging the bid answers, with 4 packages
const LODGES: [((u32, u32, usize), Answer); 16] = [
    ((0, 0, 0), Err((12, 0))),
    ((1000, 0, 0), Err((12, 0))),
    ((4_294_967_295, 5, 1), Err((12, 0))),
    ((1, 0, 0), Err((13, 0))),
    ((999, 1_000_000_001, 5), Err((13, 0))),
    ((1, 4_294_967_295, 1), Err((13, 0))),
    ((1, 1, 0), Err((28, 0))),
    ((999, 1_000_000_000, 5), Err((28, 0))),
    ((1, 1, 18_446_744_073_709_551_615), Err((28, 0))),
    ((1, 1, 1), Ok(1)),
    ((999, 1, 4), Ok(2)),
    ((1, 1_000_000_000, 2), Ok(3)),
    ((999, 1_000_000_000, 3), Ok(4)),
    ((1000, 1, 1), Err((12, 0))),
    ((1, 1, 5), Err((28, 0))),
    ((7, 9, 1), Ok(5)),
];

// a bid's number, and what withdrawing it answers, of these 5 bids
const WITHDRAWALS: [(usize, Result<u32, (u8, usize)>); 8] = [
    (0, Err((30, 0))),
    (6, Err((30, 0))),
    (5, Ok(9)),
    (5, Err((31, 0))),
    (3, Ok(1_000_000_000)),
    (1, Ok(1)),
    (1, Err((31, 0))),
    (18_446_744_073_709_551_615, Err((30, 0))),
];

#[test]
fn calls_on_a_sale_of_runs(rt: HostRuntime) -> Result<(), Fail> {
    let mut sale = made(&rt, 6, 4, ANY)?;
    for ((first, last), expected) in PERMITS {
        assert_eq!(rt;
            sale.permit(run(first, last)).map_err(PermitFault::refusal),
            expected
        );
    }
    for ((buyer, price, package), expected) in LODGES {
        assert_eq!(rt;
            sale.lodge(buyer, price, package)
                .map_err(LodgeFault::refusal),
            expected
        );
    }
    for (number, expected) in WITHDRAWALS {
        assert_eq!(rt;
            sale.withdraw(number).map_err(WithdrawFault::refusal),
            expected
        );
    }
    assert_eq!(rt; sale.lots(), 6);
    assert!(rt; sale.packages() == [run(2, 5), run(2, 3), run(6, 6), run(4, 5)].as_slice());
    assert!(rt;
        sale.bids()
            == [
                Bid::new(1, 1, 1).marked_withdrawn(),
                Bid::new(999, 1, 4),
                Bid::new(1, 1_000_000_000, 2).marked_withdrawn(),
                Bid::new(999, 1_000_000_000, 3),
                Bid::new(7, 9, 1).marked_withdrawn(),
            ]
            .as_slice()
    );
    assert!(rt; sale.bid(4) == Some(Bid::new(999, 1_000_000_000, 3)));
    assert!(rt; sale.bid(0).is_none() && sale.bid(6).is_none());
    Ok(())
}
