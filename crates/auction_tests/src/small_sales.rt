// Tables of small sales.
use crate::agreement::{check_case, check_masks};
use crate::opening::{Case, PAIR};
use packages::Mask;
use std::test::Fail;

// Halves and their halves.
const TREE: [(u16, u16); 7] = [(1, 4), (1, 2), (1, 1), (2, 2), (3, 4), (3, 3), (4, 4)];

// Each package inside the one before.
const DEEP: [(u16, u16); 8] = [
    (1, 16),
    (1, 14),
    (2, 14),
    (3, 12),
    (3, 9),
    (5, 9),
    (6, 9),
    (7, 7),
];

// No package inside another, and not in the order of their lots.
const WIDE: [(u16, u16); 8] = [
    (1, 2),
    (15, 16),
    (3, 3),
    (4, 6),
    (9, 9),
    (7, 8),
    (10, 12),
    (14, 14),
];

// Three outermost packages; some lots are in no package inside them, or in none at all.
const APART: [(u16, u16); 6] = [(1, 3), (2, 2), (6, 10), (6, 7), (9, 10), (12, 12)];

const CASES: [Case<'static, (u16, u16)>; 37] = [
    // no packages, and so no bids
    Case {
        packages: &[],
        bids: &[],
        withdrawn: &[],
    },
    // no bids
    Case {
        packages: &PAIR,
        bids: &[],
        withdrawn: &[],
    },
    // one bid, on the whole or on a part, and the same withdrawn
    Case {
        packages: &PAIR,
        bids: &[(1, 7, 1)],
        withdrawn: &[],
    },
    Case {
        packages: &PAIR,
        bids: &[(1, 7, 3)],
        withdrawn: &[],
    },
    Case {
        packages: &PAIR,
        bids: &[(1, 7, 3)],
        withdrawn: &[1],
    },
    // parts that bring more than the block, and less
    Case {
        packages: &PAIR,
        bids: &[(1, 10, 1), (2, 6, 2), (3, 5, 3)],
        withdrawn: &[],
    },
    Case {
        packages: &PAIR,
        bids: &[(1, 12, 1), (2, 6, 2), (3, 5, 3)],
        withdrawn: &[],
    },
    // a block equal to the sum of its parts: before them, after them and between them
    Case {
        packages: &PAIR,
        bids: &[(1, 11, 1), (2, 6, 2), (3, 5, 3)],
        withdrawn: &[],
    },
    Case {
        packages: &PAIR,
        bids: &[(2, 6, 2), (3, 5, 3), (1, 11, 1)],
        withdrawn: &[],
    },
    Case {
        packages: &PAIR,
        bids: &[(2, 6, 2), (1, 11, 1), (3, 5, 3)],
        withdrawn: &[],
    },
    // all prices equal: on one package, and on a block and its parts
    Case {
        packages: &PAIR,
        bids: &[
            (1, 5, 1),
            (2, 5, 1),
            (3, 5, 1),
            (1, 5, 1),
            (2, 5, 1),
            (3, 5, 1),
        ],
        withdrawn: &[],
    },
    Case {
        packages: &PAIR,
        bids: &[
            (1, 5, 1),
            (2, 5, 2),
            (3, 5, 3),
            (1, 5, 2),
            (2, 5, 3),
            (3, 5, 1),
        ],
        withdrawn: &[],
    },
    // two blocks that tie with one bid and two parts
    Case {
        packages: &PAIR,
        bids: &[
            (1, 2, 2),
            (2, 4, 1),
            (3, 2, 3),
            (4, 4, 1),
            (5, 2, 2),
            (6, 2, 3),
        ],
        withdrawn: &[],
    },
    // chains of blocks, each equal to the sum of its parts: from the outermost, and from the innermost
    Case {
        packages: &TREE,
        bids: &[
            (1, 4, 1),
            (2, 2, 2),
            (3, 2, 5),
            (4, 1, 3),
            (5, 1, 4),
            (6, 2, 5),
        ],
        withdrawn: &[],
    },
    Case {
        packages: &TREE,
        bids: &[
            (4, 1, 3),
            (5, 1, 4),
            (2, 2, 2),
            (6, 1, 6),
            (3, 1, 7),
            (1, 4, 1),
        ],
        withdrawn: &[],
    },
    Case {
        packages: &TREE,
        bids: &[
            (1, 2, 5),
            (2, 1, 4),
            (3, 4, 1),
            (4, 1, 3),
            (5, 2, 2),
            (6, 2, 5),
        ],
        withdrawn: &[],
    },
    // a deep nest: all prices equal, rising inward, falling inward, and bids at its two ends only
    Case {
        packages: &DEEP,
        bids: &[
            (1, 3, 8),
            (2, 3, 6),
            (3, 3, 4),
            (4, 3, 3),
            (5, 3, 2),
            (6, 3, 1),
        ],
        withdrawn: &[],
    },
    Case {
        packages: &DEEP,
        bids: &[
            (1, 1, 1),
            (2, 2, 2),
            (3, 3, 4),
            (4, 4, 5),
            (5, 5, 7),
            (6, 6, 8),
        ],
        withdrawn: &[],
    },
    Case {
        packages: &DEEP,
        bids: &[
            (1, 6, 1),
            (2, 5, 2),
            (3, 4, 4),
            (4, 3, 5),
            (5, 2, 7),
            (6, 1, 8),
        ],
        withdrawn: &[6],
    },
    Case {
        packages: &DEEP,
        bids: &[(1, 4, 8), (2, 4, 1), (3, 4, 8), (1, 5, 1)],
        withdrawn: &[4],
    },
    // a wide nest: one bid on each of six packages, and two equal ones on each of three
    Case {
        packages: &WIDE,
        bids: &[
            (1, 1, 1),
            (2, 2, 2),
            (3, 3, 3),
            (4, 4, 5),
            (5, 5, 6),
            (6, 6, 8),
        ],
        withdrawn: &[],
    },
    Case {
        packages: &WIDE,
        bids: &[
            (1, 3, 2),
            (2, 3, 2),
            (2, 3, 4),
            (1, 3, 4),
            (3, 3, 7),
            (3, 3, 7),
        ],
        withdrawn: &[],
    },
    // several bids of one buyer on one package
    Case {
        packages: &PAIR,
        bids: &[(1, 4, 2), (1, 6, 2), (1, 5, 2), (2, 3, 2)],
        withdrawn: &[],
    },
    Case {
        packages: &PAIR,
        bids: &[(1, 4, 2), (1, 4, 2), (1, 4, 2)],
        withdrawn: &[],
    },
    Case {
        packages: &PAIR,
        bids: &[(1, 4, 2), (1, 6, 2), (1, 5, 2), (2, 3, 2)],
        withdrawn: &[2],
    },
    // a buyer with several winning bids, one with all of them, and one with none
    Case {
        packages: &WIDE,
        bids: &[
            (1, 5, 1),
            (1, 6, 2),
            (2, 4, 1),
            (2, 7, 3),
            (3, 1, 2),
            (1, 2, 4),
        ],
        withdrawn: &[],
    },
    Case {
        packages: &TREE,
        bids: &[
            (1, 5, 3),
            (1, 5, 4),
            (1, 5, 5),
            (2, 14, 1),
            (3, 9, 2),
            (2, 3, 7),
        ],
        withdrawn: &[],
    },
    Case {
        packages: &TREE,
        bids: &[
            (2, 1, 3),
            (1, 5, 2),
            (3, 5, 5),
            (2, 1, 4),
            (2, 4, 5),
            (2, 9, 1),
        ],
        withdrawn: &[],
    },
    // a buyer on a block and on a part of it
    Case {
        packages: &PAIR,
        bids: &[(1, 10, 1), (1, 6, 2), (3, 5, 3)],
        withdrawn: &[],
    },
    // withdrawn bids: a winner, all of a buyer, all of them
    Case {
        packages: &PAIR,
        bids: &[(1, 10, 1), (2, 6, 2), (3, 5, 3)],
        withdrawn: &[3],
    },
    Case {
        packages: &PAIR,
        bids: &[(1, 10, 1), (2, 6, 2), (3, 5, 3), (2, 9, 3), (4, 5, 2)],
        withdrawn: &[4, 2],
    },
    Case {
        packages: &TREE,
        bids: &[(1, 9, 1), (2, 4, 2), (2, 4, 5), (3, 1, 4)],
        withdrawn: &[1, 2, 3, 4],
    },
    // a tie that a withdrawal makes, and one that it breaks
    Case {
        packages: &PAIR,
        bids: &[(1, 11, 1), (2, 6, 2), (3, 5, 3), (4, 9, 3)],
        withdrawn: &[4],
    },
    Case {
        packages: &PAIR,
        bids: &[(1, 11, 1), (2, 6, 2), (3, 5, 3), (4, 5, 3)],
        withdrawn: &[3],
    },
    // two outermost packages and one between them
    Case {
        packages: &APART,
        bids: &[
            (1, 5, 1),
            (2, 5, 2),
            (3, 7, 3),
            (4, 3, 4),
            (5, 4, 5),
            (6, 2, 6),
        ],
        withdrawn: &[],
    },
    Case {
        packages: &APART,
        bids: &[
            (1, 2, 6),
            (1, 3, 4),
            (2, 4, 5),
            (2, 7, 3),
            (3, 5, 2),
            (3, 5, 1),
        ],
        withdrawn: &[],
    },
    // the highest price
    Case {
        packages: &TREE,
        bids: &[
            (1, 1_000_000_000, 1),
            (2, 500_000_000, 2),
            (3, 500_000_000, 5),
            (4, 1_000_000_000, 3),
            (5, 1, 4),
            (6, 999_999_999, 6),
        ],
        withdrawn: &[],
    },
];

#[test]
fn small_sales_agree(rt: HostRuntime) -> Result<(), Fail> {
    for case in CASES {
        check_case(&rt, rt.alloc(), case)?;
    }
    Ok(())
}

// Masks whose lots are no runs: odd lots and even ones, and some inside each.
const GAPS: [Mask; 7] = [
    Mask { bits: 0b1_0101 },
    Mask { bits: 0b1_0001 },
    Mask { bits: 0b1_0000 },
    Mask { bits: 0b10_1010 },
    Mask { bits: 0b10_0010 },
    Mask { bits: 0b00_1000 },
    Mask { bits: 0b00_0010 },
];

// Bids on them.
const ON_GAPS: [[(u32, u32, usize); 6]; 5] = [
    [
        (1, 5, 1),
        (2, 3, 2),
        (3, 2, 3),
        (1, 4, 4),
        (2, 2, 5),
        (3, 2, 6),
    ],
    [
        (1, 1, 1),
        (2, 1, 2),
        (3, 1, 3),
        (1, 1, 4),
        (2, 1, 5),
        (3, 1, 7),
    ],
    [
        (3, 2, 6),
        (2, 2, 5),
        (1, 4, 4),
        (3, 2, 3),
        (2, 3, 2),
        (1, 3, 1),
    ],
    [
        (1, 9, 3),
        (1, 9, 7),
        (1, 9, 6),
        (2, 18, 4),
        (3, 9, 2),
        (2, 8, 1),
    ],
    [
        (4, 6, 7),
        (5, 6, 7),
        (4, 6, 5),
        (5, 6, 5),
        (6, 6, 4),
        (6, 5, 1),
    ],
];

#[test]
fn sales_of_masks_agree(rt: HostRuntime) -> Result<(), Fail> {
    for bids in ON_GAPS {
        for withdrawn in [&[], [2, 5].as_slice()] {
            let case = Case {
                packages: &GAPS,
                bids: &bids,
                withdrawn,
            };
            check_masks(&rt, rt.alloc(), case)?;
        }
    }
    Ok(())
}
