// Revenue and BestThree.
use crate::pairs::check_pair;
use scales::{BestThree, PricedScale, Revenue, Scale, TOP_AMOUNT};

// Two values of Revenue, their sum and their product.
const REVENUES: [[Option<u64>; 4]; 10] = [
    [None, None, None, None],
    [None, Some(0), Some(0), None],
    [None, Some(u64::MAX), Some(TOP_AMOUNT), None],
    [Some(0), Some(6), Some(6), Some(6)],
    [Some(6), Some(5), Some(6), Some(11)],
    [
        Some(TOP_AMOUNT - 2),
        Some(1),
        Some(TOP_AMOUNT - 2),
        Some(TOP_AMOUNT - 1),
    ],
    [
        Some(TOP_AMOUNT - 1),
        Some(1),
        Some(TOP_AMOUNT - 1),
        Some(TOP_AMOUNT),
    ],
    [
        Some(TOP_AMOUNT),
        Some(1),
        Some(TOP_AMOUNT),
        Some(TOP_AMOUNT),
    ],
    [
        Some(TOP_AMOUNT + 1),
        Some(0),
        Some(TOP_AMOUNT),
        Some(TOP_AMOUNT),
    ],
    [
        Some(u64::MAX),
        Some(u64::MAX),
        Some(TOP_AMOUNT),
        Some(TOP_AMOUNT),
    ],
];

// Prices, and the amounts that they are worth.
const PRICES: [(u64, u64); 5] = [
    (0, 0),
    (TOP_AMOUNT - 1, TOP_AMOUNT - 1),
    (TOP_AMOUNT, TOP_AMOUNT),
    (TOP_AMOUNT + 1, TOP_AMOUNT),
    (u64::MAX, TOP_AMOUNT),
];

#[test]
fn revenues_compare_and_add(rt: HostRuntime) {
    for [a, b, sum, product] in REVENUES {
        let a = Revenue { held: a };
        let b = Revenue { held: b };
        check_pair(&rt, Revenue::amount, a, b, sum, product);
    }
    assert_eq!(rt; Revenue::nought().amount(), None);
    assert_eq!(rt; Revenue::unit().amount(), Some(0));
    for (price, amount) in PRICES {
        assert_eq!(rt; Revenue::worth(price).amount(), Some(amount));
    }
}

// Two values of BestThree, the amounts of their sum and those of their product.
const LISTS: [[[Option<u64>; 3]; 4]; 10] = [
    [
        [None, None, None],
        [None, None, None],
        [None, None, None],
        [None, None, None],
    ],
    [
        [Some(5), None, None],
        [None, None, None],
        [Some(5), None, None],
        [None, None, None],
    ],
    [
        [Some(0), None, None],
        [Some(7), Some(6), Some(5)],
        [Some(7), Some(6), Some(5)],
        [Some(7), Some(6), Some(5)],
    ],
    [
        [Some(11), Some(6), Some(5)],
        [Some(11), Some(10), None],
        [Some(11), Some(11), Some(10)],
        [Some(22), Some(21), Some(17)],
    ],
    [
        [Some(5), Some(11), Some(6)],
        [None, Some(10), Some(11)],
        [Some(11), Some(11), Some(10)],
        [Some(22), Some(21), Some(17)],
    ],
    [
        [Some(4), Some(4), Some(4)],
        [Some(4), None, None],
        [Some(4), Some(4), Some(4)],
        [Some(8), Some(8), Some(8)],
    ],
    [
        [None, Some(3), None],
        [None, None, Some(4)],
        [Some(4), Some(3), None],
        [Some(7), None, None],
    ],
    [
        [Some(0), Some(1), Some(TOP_AMOUNT)],
        [Some(1), None, None],
        [Some(TOP_AMOUNT), Some(1), Some(1)],
        [Some(TOP_AMOUNT), Some(2), Some(1)],
    ],
    [
        [Some(TOP_AMOUNT - 1), Some(u64::MAX), Some(TOP_AMOUNT + 1)],
        [None, Some(1), None],
        [Some(TOP_AMOUNT), Some(TOP_AMOUNT), Some(TOP_AMOUNT - 1)],
        [Some(TOP_AMOUNT), Some(TOP_AMOUNT), Some(TOP_AMOUNT)],
    ],
    [
        [Some(u64::MAX), None, None],
        [Some(u64::MAX), None, None],
        [Some(TOP_AMOUNT), Some(TOP_AMOUNT), None],
        [Some(TOP_AMOUNT), None, None],
    ],
];

#[test]
fn lists_keep_the_three_greatest(rt: HostRuntime) {
    for [a, b, sum, product] in LISTS {
        let a = BestThree::new(a);
        let b = BestThree::new(b);
        check_pair(&rt, BestThree::amounts, a, b, sum, product);
    }
    assert_eq!(rt; BestThree::nought().amounts(), [None, None, None]);
    assert_eq!(rt; BestThree::unit().amounts(), [Some(0), None, None]);
    for (price, amount) in PRICES {
        assert_eq!(rt;
            BestThree::worth(price).amounts(),
            [Some(amount), None, None]
        );
    }
}
