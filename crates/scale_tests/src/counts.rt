// Count.
use crate::pairs::check_pair;
use scales::{Count, PricedScale, Scale, TOP_COUNT};

// Two numbers, their sum and their product.
const CASES: [[u64; 4]; 12] = [
    [0, 0, 0, 0],
    [0, 7, 7, 0],
    [1, 7, 8, 7],
    [40_000, 40_000, 80_000, TOP_COUNT],
    [31_622, 31_622, 63_244, 999_950_884],
    [31_623, 31_623, 63_246, TOP_COUNT],
    [TOP_COUNT - 1, 1, TOP_COUNT, TOP_COUNT - 1],
    [TOP_COUNT, 1, TOP_COUNT, TOP_COUNT],
    [TOP_COUNT, 0, TOP_COUNT, 0],
    [TOP_COUNT + 1, 1, TOP_COUNT, TOP_COUNT],
    [u64::MAX, 0, TOP_COUNT, 0],
    [u64::MAX, u64::MAX, TOP_COUNT, TOP_COUNT],
];

#[test]
fn counts_add_and_multiply(rt: HostRuntime) {
    for [a, b, sum, product] in CASES {
        let a = Count { number: a };
        let b = Count { number: b };
        check_pair(&rt, Count::value, a, b, sum, product);
    }
    assert_eq!(rt; Count::nought().value(), 0);
    assert_eq!(rt; Count::unit().value(), 1);
    for price in [0, 1, 1_000_000_000, u64::MAX] {
        assert_eq!(rt; Count::worth(price).value(), 1);
    }
}
