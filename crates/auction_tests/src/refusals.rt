// Refused calls, the memory that they leave, and the lengths that are just enough and more than enough.
// The sale has three packages and three bids; every place of a list and of a workspace holds a number of its own beforehand.
use crate::opening::{Case, PAIR, as_runs};
use nest::{AwardFault, ChargeFault, TotalFault};
use packages::Run;
use sale::Sale;
use scales::Count;
use std::test::Fail;

const BEFORE: [u64; 4] = [71, 72, 73, 74];

fn opened(rt: &HostRuntime) -> Result<Sale<Run>, Fail> {
    let heap = rt.alloc();
    let runs = as_runs(heap, &PAIR)?;
    let case = Case {
        packages: runs.as_slice(),
        bids: &[(1, 10, 1), (2, 6, 2), (3, 5, 3)],
        withdrawn: &[],
    };
    case.open(heap)
}

fn counts(numbers: [u64; 4]) -> [Count; 4] {
    numbers.map(|number| Count { number })
}

fn numbers(values: [Count; 4]) -> [u64; 4] {
    values.map(Count::value)
}

// The total, or the number and place by which it is refused.
fn answer(total: Result<Count, TotalFault>) -> Result<u64, (u8, usize)> {
    total.map(Count::value).map_err(TotalFault::refusal)
}

// Total with so many worths 1, 2, 3, 4 and so many places: its answer, and the places afterwards.
// The sets of bids are none, 1, 2, 3, and 2 with 3.
const TOTALS: [(usize, usize, Result<u64, (u8, usize)>, [u64; 4]); 9] = [
    (3, 3, Ok(13), [13, 3, 4, 74]),
    (3, 4, Ok(13), [13, 3, 4, 74]),
    (3, 2, Err((15, 0)), BEFORE),
    (3, 0, Err((15, 0)), BEFORE),
    (2, 3, Err((14, 0)), BEFORE),
    (4, 3, Err((14, 0)), BEFORE),
    (0, 4, Err((14, 0)), BEFORE),
    (2, 2, Err((14, 0)), BEFORE),
    (4, 2, Err((14, 0)), BEFORE),
];

#[test]
fn total_is_refused(rt: HostRuntime) -> Result<(), Fail> {
    let sale = opened(&rt)?;
    let worths = counts([1, 2, 3, 4]);
    for (listed, places, expected, after) in TOTALS {
        let mut work = counts(BEFORE);
        assert!(rt; listed <= 4 && places <= 4);
        let result = sale.total(&worths[0..listed], &mut work[0..places]);
        assert!(rt; answer(result) == expected);
        assert!(rt; numbers(work) == after);
    }
    Ok(())
}

// Appraise with so many places.
const APPRAISALS: [(usize, Result<u64, (u8, usize)>, [u64; 4]); 4] = [
    (3, Ok(5), [5, 2, 2, 74]),
    (4, Ok(5), [5, 2, 2, 74]),
    (2, Err((15, 0)), BEFORE),
    (0, Err((15, 0)), BEFORE),
];

#[test]
fn appraise_is_refused(rt: HostRuntime) -> Result<(), Fail> {
    let sale = opened(&rt)?;
    for (places, expected, after) in APPRAISALS {
        let mut work = counts(BEFORE);
        assert!(rt; places <= 4);
        let result = sale.appraise(&mut work[0..places]);
        assert!(rt; answer(result) == expected);
        assert!(rt; numbers(work) == after);
    }
    Ok(())
}

// Award with a list of so many bytes.
const AWARDS: [(usize, Result<(u64, usize, u64), (u8, usize)>, [u8; 4]); 4] = [
    (3, Ok((11, 2, 2)), [0, 1, 1, 9]),
    (4, Ok((11, 2, 2)), [0, 1, 1, 9]),
    (2, Err((16, 0)), [6, 7, 8, 9]),
    (0, Err((16, 0)), [6, 7, 8, 9]),
];

#[test]
fn award_is_refused(rt: HostRuntime) -> Result<(), Fail> {
    let sale = opened(&rt)?;
    for (length, expected, after) in AWARDS {
        let mut bytes = [6, 7, 8, 9];
        assert!(rt; length <= 4);
        let result = sale.award(&mut bytes[0..length]);
        assert!(rt; result.map_err(AwardFault::refusal) == expected);
        assert!(rt; bytes == after);
    }
    Ok(())
}

// Charge of buyers who are none, or have no numbered bid, or have one.
const CHARGES: [(u32, Result<u64, (u8, usize)>); 8] = [
    (0, Err((12, 0))),
    (1000, Err((12, 0))),
    (u32::MAX, Err((12, 0))),
    (999, Err((32, 0))),
    (4, Err((32, 0))),
    (1, Ok(0)),
    (2, Ok(5)),
    (3, Ok(4)),
];

#[test]
fn charge_is_refused(rt: HostRuntime) -> Result<(), Fail> {
    let sale = opened(&rt)?;
    for (buyer, expected) in CHARGES {
        assert!(rt; sale.charge(buyer).map_err(ChargeFault::refusal) == expected);
    }
    Ok(())
}
