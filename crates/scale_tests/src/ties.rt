// Tied, over Count, over itself and over Lowest; and Lowest.
use crate::pairs::check_pair;
use scales::{Count, Lowest, PricedScale, Scale, TOP_AMOUNT, TOP_COUNT, Tied};

// What a value of Tied over Count means: none, over, or an amount with so many ways.
#[derive(Clone, Copy, PartialEq, Debug)]
enum Ways {
    Nothing,
    Over,
    Amount(u64, u64),
}

use Ways::{Amount, Nothing, Over};

impl Ways {
    // A value that means it.
    fn value(self) -> Tied<Count> {
        match self {
            Nothing => Tied::Nothing,
            Over => Tied::Over,
            Amount(amount, number) => Tied::Amount(amount, Count { number }),
        }
    }
}

impl From<Tied<Count>> for Ways {
    fn from(value: Tied<Count>) -> Ways {
        match value {
            Tied::Nothing => Nothing,
            Tied::Amount(amount, number) if amount < TOP_AMOUNT => {
                Amount(amount, number.value())
            }
            _ => Over,
        }
    }
}

// The amount of a value and what its inner value means, if it has them.
fn best<S: Scale, M: From<S>>(value: Tied<S>) -> Option<(u64, M)> {
    value.best().map(|(amount, inner)| (amount, M::from(inner)))
}

// Two values, their sum and their product.
const CASES: [[Ways; 4]; 14] = [
    [Nothing, Nothing, Nothing, Nothing],
    [Nothing, Over, Over, Nothing],
    [Nothing, Amount(6, 2), Amount(6, 2), Nothing],
    [Nothing, Amount(TOP_AMOUNT, 2), Over, Nothing],
    [Over, Over, Over, Over],
    [Over, Amount(6, 2), Over, Over],
    [Amount(0, 1), Amount(6, 2), Amount(6, 2), Amount(6, 2)],
    [Amount(5, 3), Amount(6, 2), Amount(6, 2), Amount(11, 6)],
    [Amount(6, 3), Amount(6, 2), Amount(6, 5), Amount(12, 6)],
    [
        Amount(6, TOP_COUNT + 1),
        Amount(6, 2),
        Amount(6, TOP_COUNT),
        Amount(12, TOP_COUNT),
    ],
    [
        Amount(TOP_AMOUNT - 2, 1),
        Amount(1, 1),
        Amount(TOP_AMOUNT - 2, 1),
        Amount(TOP_AMOUNT - 1, 1),
    ],
    [
        Amount(TOP_AMOUNT - 1, 1),
        Amount(1, 1),
        Amount(TOP_AMOUNT - 1, 1),
        Over,
    ],
    [Amount(TOP_AMOUNT, 1), Amount(0, 1), Over, Over],
    [Amount(u64::MAX, 1), Amount(u64::MAX - 1, 1), Over, Over],
];

// Prices, and what they are worth.
const WORTHS: [(u64, Ways); 5] = [
    (0, Amount(0, 1)),
    (TOP_AMOUNT - 1, Amount(TOP_AMOUNT - 1, 1)),
    (TOP_AMOUNT, Over),
    (TOP_AMOUNT + 1, Over),
    (u64::MAX, Over),
];

#[test]
fn ties_over_count(rt: HostRuntime) {
    for [a, b, sum, product] in CASES {
        check_pair(&rt, Ways::from, a.value(), b.value(), sum, product);
    }
    assert_eq!(rt; Ways::from(Tied::nought()), Nothing);
    assert_eq!(rt; Ways::from(Tied::unit()), Amount(0, 1));
    for (price, worth) in WORTHS {
        let value: Tied<Count> = Tied::worth(price);
        assert_eq!(rt; Ways::from(value), worth);
        assert_eq!(rt; value.best().is_some(), price < TOP_AMOUNT);
    }
}

// An amount with a value of Tied over Count, and what the sum and the product with 5 and 2 ways at 4 hold inside.
const INNER: [[Ways; 3]; 4] = [
    [Nothing, Amount(4, 2), Nothing],
    [Over, Over, Over],
    [Amount(4, 1), Amount(4, 3), Amount(8, 2)],
    [Amount(7, 1), Amount(7, 1), Amount(11, 2)],
];

#[test]
fn ties_over_ties(rt: HostRuntime) {
    let other = Tied::Amount(5, Amount(4, 2).value());
    for [inner, sum, product] in INNER {
        let value = Tied::Amount(5, inner.value());
        assert_eq!(rt; best(value.sum(other)), Some((5, sum)));
        assert_eq!(rt; best(value.product(other)), Some((10, product)));
    }
    for (price, worth) in WORTHS {
        let value: Tied<Tied<Count>> = Tied::worth(price);
        let expected = if worth == Over {
            None
        } else {
            Some((price, worth))
        };
        assert_eq!(rt; best(value), expected);
    }
}

// What a value of Lowest means: none, no bid yet, or a number. Beside Lowest, since scales have no equality but that of what they
// mean.
#[derive(Clone, Copy, PartialEq, Debug)]
enum Number {
    Nothing,
    NoBid,
    Bid(usize),
}

impl Number {
    // A value that means it.
    fn value(self) -> Lowest {
        match self {
            Number::Nothing => Lowest::Nothing,
            Number::NoBid => Lowest::NoBid,
            Number::Bid(number) => Lowest::Bid(number),
        }
    }
}

impl From<Lowest> for Number {
    fn from(value: Lowest) -> Number {
        match value {
            Lowest::Nothing => Number::Nothing,
            Lowest::NoBid => Number::NoBid,
            Lowest::Bid(number) => Number::Bid(number),
        }
    }
}

// Two values, their sum and their product.
const LOWEST: [[Number; 4]; 7] = [
    [
        Number::Nothing,
        Number::Nothing,
        Number::Nothing,
        Number::Nothing,
    ],
    [
        Number::Nothing,
        Number::NoBid,
        Number::NoBid,
        Number::Nothing,
    ],
    [
        Number::Nothing,
        Number::Bid(3),
        Number::Bid(3),
        Number::Nothing,
    ],
    [Number::NoBid, Number::NoBid, Number::NoBid, Number::NoBid],
    [
        Number::NoBid,
        Number::Bid(3),
        Number::Bid(3),
        Number::Bid(3),
    ],
    [
        Number::Bid(2),
        Number::Bid(3),
        Number::Bid(2),
        Number::Bid(2),
    ],
    [
        Number::Bid(1),
        Number::Bid(usize::MAX),
        Number::Bid(1),
        Number::Bid(1),
    ],
];

#[test]
fn lowest_and_ties_over_it(rt: HostRuntime) {
    for [a, b, sum, product] in LOWEST {
        let a = a.value();
        let b = b.value();
        check_pair(&rt, Number::from, a, b, sum, product);
        assert_eq!(rt;
            best(Tied::Amount(7, a).sum(Tied::Amount(7, b))),
            Some((7, sum))
        );
    }
    assert_eq!(rt; Number::from(Lowest::nought()), Number::Nothing);
    assert_eq!(rt; Number::from(Lowest::unit()), Number::NoBid);
    let one = Tied::Amount(10, Lowest::Bid(1));
    let two = Tied::Amount(6, Lowest::Bid(2));
    let three = Tied::Amount(5, Lowest::Bid(3));
    assert_eq!(rt;
        best(one.sum(two.product(three))),
        Some((11, Number::Bid(2)))
    );
}
