// Relations, fits, sizes and highest lots of runs and masks.
use packages::{Mask, Package, Relation, Run, highest_lots};
use std::process::Abort;

fn flipped(relation: Relation) -> Relation {
    match relation {
        Relation::Inside => Relation::Around,
        Relation::Around => Relation::Inside,
        same => same,
    }
}

// How one package stands to another, and the other to it.
fn check_pair<P: Package>(rt: &impl Abort, one: P, other: P, relation: Relation) {
    assert_eq!(rt; one.compare(&other), relation);
    assert_eq!(rt; other.compare(&one), flipped(relation));
}

// Rows: the first and last lot of two runs, and how the one stands to the other.
fn check_runs(rt: &impl Abort, rows: &[(u16, u16, u16, u16, Relation)]) {
    for &(first, last, other_first, other_last, relation) in rows {
        let one = Run { first, last };
        let other = Run {
            first: other_first,
            last: other_last,
        };
        check_pair(rt, one, other, relation);
    }
}

#[test]
fn runs_stand_to_one_another(rt: HostRuntime) {
    check_runs(
        &rt,
        &[
            (2, 4, 2, 4, Relation::Equal),
            (0, 65_535, 0, 65_535, Relation::Equal),
            (2, 3, 2, 4, Relation::Inside),
            (3, 4, 2, 4, Relation::Inside),
            (3, 3, 2, 4, Relation::Inside),
            (0, 0, 0, 65_535, Relation::Inside),
            (1, 65_535, 0, 65_535, Relation::Inside),
            (2, 9, 3, 8, Relation::Around),
            (0, 65_535, 65_535, 65_535, Relation::Around),
            (1, 2, 3, 4, Relation::Apart),
            (0, 0, 1, 1, Relation::Apart),
            (0, 65_534, 65_535, 65_535, Relation::Apart),
            (1, 2, 2, 3, Relation::Crossing),
            (1, 5, 3, 9, Relation::Crossing),
            (0, 65_534, 1, 65_535, Relation::Crossing),
        ],
    );
    // Runs without a lot are equal to one another, and inside every other.
    check_runs(
        &rt,
        &[
            (5, 4, 9, 1, Relation::Equal),
            (65_535, 0, 1, 0, Relation::Equal),
            (5, 4, 4, 5, Relation::Inside),
            (5, 4, 1, 1, Relation::Inside),
            (1, 0, 0, 0, Relation::Inside),
            (65_535, 0, 0, 65_535, Relation::Inside),
        ],
    );
}

#[test]
fn masks_stand_to_one_another(rt: HostRuntime) {
    let rows = [
        (5, 5, Relation::Equal),
        (u64::MAX, u64::MAX, Relation::Equal),
        (4, 5, Relation::Inside),
        (5, 7, Relation::Inside),
        (1 << 63, u64::MAX, Relation::Inside),
        (u64::MAX >> 1, u64::MAX, Relation::Inside),
        (7, 6, Relation::Around),
        (u64::MAX, 1, Relation::Around),
        (5, 2, Relation::Apart),
        (1, 1 << 63, Relation::Apart),
        (u64::MAX >> 1, 1 << 63, Relation::Apart),
        (5, 6, Relation::Crossing),
        (u64::MAX >> 1, u64::MAX - 1, Relation::Crossing),
        (0, 0, Relation::Equal),
        (0, 1, Relation::Inside),
        (0, u64::MAX, Relation::Inside),
    ];
    for (one, other, relation) in rows {
        check_pair(&rt, Mask { bits: one }, Mask { bits: other }, relation);
    }
}

#[test]
fn runs_fit_within_the_lots(rt: HostRuntime) {
    let rows = [
        (1, 1, 0, false),
        (1, 1, 1, true),
        (1, 3, 2, false),
        (1, 3, 3, true),
        (3, 3, 4, true),
        (0, 3, 3, false),
        (0, 0, 3, false),
        (4, 3, 9, false),
        (1, 0, 9, false),
        (1, 65_535, 65_534, false),
        (1, 65_535, 65_535, true),
        (65_535, 65_535, u32::MAX, true),
        (0, 65_535, u32::MAX, false),
    ];
    for (first, last, lots, fits) in rows {
        assert_eq!(rt; Run { first, last }.fits(lots), fits);
    }
}

#[test]
fn masks_fit_within_the_lots(rt: HostRuntime) {
    let rows = [
        (0, 0, false),
        (0, 64, false),
        (1, 0, false),
        (1, 1, true),
        (4, 2, false),
        (4, 3, true),
        (7, 3, true),
        (1 << 62, 62, false),
        (1 << 62, 63, true),
        (u64::MAX, 63, false),
        (u64::MAX, 64, true),
        (u64::MAX, 65, true),
        (0, u32::MAX, false),
        (1 << 63, u32::MAX, true),
    ];
    for (bits, lots, fits) in rows {
        assert_eq!(rt; Mask { bits }.fits(lots), fits);
    }
}

#[test]
fn packages_have_their_sizes(rt: HostRuntime) {
    let runs = [
        (5, 4, 0),
        (65_535, 0, 0),
        (0, 0, 1),
        (5, 5, 1),
        (5, 6, 2),
        (1, 65_535, 65_535),
        (0, 65_535, 65_536),
    ];
    for (first, last, size) in runs {
        assert_eq!(rt; Run { first, last }.size(), size);
    }
    let masks = [
        (0, 0),
        (1, 1),
        (5, 2),
        (1 << 63, 1),
        (u64::MAX >> 1, 63),
        (u64::MAX, 64),
    ];
    for (bits, size) in masks {
        assert_eq!(rt; Mask { bits }.size(), size);
    }
}

#[test]
fn kinds_name_their_highest_lot(rt: HostRuntime) {
    assert_eq!(rt; Run::HIGHEST, 65_535);
    assert_eq!(rt; Run::highest_lot(), 65_535);
    assert_eq!(rt; Mask::HIGHEST, 64);
    assert_eq!(rt; Mask::highest_lot(), 64);
    assert_eq!(rt; highest_lots(), (65_535, 64));
}
