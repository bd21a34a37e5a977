// Many sales from a simple generator, with few different prices, so that ties are frequent.
use crate::agreement::check_case;
use crate::brute_force::MOST_OFFERS;
use crate::opening::Case;
use std::process::Abort;
use std::test::Fail;

// The packages of each nest.
const PACKAGES: u64 = 7;

// The sales over each nest.
const SALES: u64 = 200;

// A nest of halves, a deep one, and one that is both deep and wide.
const NESTS: [[(u16, u16); 7]; 3] = [
    [(1, 8), (1, 4), (5, 8), (1, 2), (3, 4), (5, 5), (6, 8)],
    [(1, 9), (1, 8), (2, 8), (2, 7), (3, 7), (4, 6), (5, 5)],
    [(1, 3), (4, 9), (4, 4), (5, 8), (6, 7), (6, 6), (11, 16)],
];

// One step of a linear congruential generator.
fn step(state: u64) -> u64 {
    state
        .wrapping_mul(6_364_136_223_846_793_005)
        .wrapping_add(1_442_695_040_888_963_407)
}

// A bid by one of three buyers, at a price from 1 to 4. The upper bits of a state are the better drawn ones.
fn made_bid(state: u64) -> (u32, u32, usize) {
    let drawn = state >> 40;
    let buyer = drawn % 3 + 1;
    let price = drawn / 3 % 4 + 1;
    let package = drawn / 12 % PACKAGES + 1;
    (buyer as u32, price as u32, package as usize)
}

// One sale, of which up to two bids are withdrawn.
fn check_made(rt: &(impl Abort + AllocGlobal), runs: &[(u16, u16)], seed: u64) -> Result<(), Fail> {
    let mut state = step(seed);
    let mut bids = [(0, 0, 0); MOST_OFFERS];
    for bid in bids.iter_mut() {
        state = step(state);
        *bid = made_bid(state);
    }
    let withdrawn: &[usize] = match step(state) >> 61 {
        0 => &[1],
        1 => &[4],
        2 => &[6, 2],
        _ => &[],
    };
    check_case(
        rt,
        rt.alloc(),
        Case {
            packages: runs,
            bids: &bids,
            withdrawn,
        },
    )
}

#[test]
fn made_sales_agree(rt: HostRuntime) -> Result<(), Fail> {
    for runs in NESTS {
        for seed in 0..SALES {
            check_made(&rt, &runs, seed)?;
        }
    }
    Ok(())
}
