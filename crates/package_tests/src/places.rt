// The search for a place, after lists of runs and of masks.
use packages::place::place;
use packages::{Conflict, Mask, Package, Run};
use std::process::Abort;

// The place of a package after others.
type Answer = Result<Option<usize>, Conflict>;

// New packages, each with its place after `packages`.
fn check<P: Package>(rt: &impl Abort, packages: &[P], rows: &[(P, Answer)]) {
    for (new, answer) in rows {
        assert_eq!(rt; place(packages, new), *answer);
    }
}

// A row of the first and last lot of a new run, and its place.
fn of_run((first, last, answer): (u16, u16, Answer)) -> (Run, Answer) {
    (Run { first, last }, answer)
}

// A row of the bits of a new mask, and its place.
fn of_mask((bits, answer): (u64, Answer)) -> (Mask, Answer) {
    (Mask { bits }, answer)
}

#[test]
fn runs_find_their_place_in_a_nest(rt: HostRuntime) {
    let nest = [
        Run { first: 1, last: 10 },
        Run { first: 1, last: 5 },
        Run { first: 2, last: 3 },
        Run { first: 7, last: 9 },
    ];
    check(
        &rt,
        &nest,
        &[
            (2, 2, Ok(Some(3))),
            (4, 4, Ok(Some(2))),
            (6, 6, Ok(Some(1))),
            (8, 9, Ok(Some(4))),
            (11, 12, Ok(None)),
            (0, 0, Ok(None)),
            (1, 10, Err(Conflict::Equal(1))),
            (7, 9, Err(Conflict::Equal(4))),
            (5, 11, Err(Conflict::Crossing(1))),
            (5, 6, Err(Conflict::Crossing(2))),
            (6, 7, Err(Conflict::Crossing(4))),
            (0, 65_535, Err(Conflict::Around(1))),
            (1, 3, Err(Conflict::Around(3))),
            (6, 9, Err(Conflict::Around(4))),
        ]
        .map(of_run),
    );
    check(&rt, &[], &[(1, 1, Ok(None)), (1, 0, Ok(None))].map(of_run));
}

// Any list has an answer: the lowest conflict, or else the last package around the new one.
#[test]
fn any_list_of_runs_has_an_answer(rt: HostRuntime) {
    let list = [
        Run { first: 1, last: 2 },
        Run { first: 4, last: 5 },
        Run { first: 1, last: 9 },
        Run { first: 4, last: 5 },
    ];
    check(
        &rt,
        &list,
        &[
            (1, 9, Err(Conflict::Around(1))),
            (2, 4, Err(Conflict::Crossing(1))),
            (4, 5, Err(Conflict::Equal(2))),
            (3, 5, Err(Conflict::Around(2))),
            (3, 4, Err(Conflict::Crossing(2))),
            (3, 3, Ok(Some(3))),
            (5, 5, Ok(Some(4))),
            (1, 1, Ok(Some(3))),
        ]
        .map(of_run),
    );
    let without_lots = [Run { first: 3, last: 2 }];
    check(
        &rt,
        &without_lots,
        &[
            (9, 8, Err(Conflict::Equal(1))),
            (1, 1, Err(Conflict::Around(1))),
        ]
        .map(of_run),
    );
}

#[test]
fn masks_find_their_place(rt: HostRuntime) {
    check(&rt, &[], &[(5, Ok(None))].map(of_mask));
    check(
        &rt,
        &[Mask { bits: 5 }],
        &[
            (4, Ok(Some(1))),
            (2, Ok(None)),
            (5, Err(Conflict::Equal(1))),
            (6, Err(Conflict::Crossing(1))),
            (7, Err(Conflict::Around(1))),
        ]
        .map(of_mask),
    );
    check(
        &rt,
        &[Mask { bits: u64::MAX }, Mask { bits: 7 }, Mask { bits: 5 }],
        &[
            (4, Ok(Some(3))),
            (2, Ok(Some(2))),
            (1 << 63, Ok(Some(1))),
            (u64::MAX, Err(Conflict::Equal(1))),
            (14, Err(Conflict::Crossing(2))),
            (15, Err(Conflict::Around(2))),
            (6, Err(Conflict::Crossing(3))),
            (5, Err(Conflict::Equal(3))),
        ]
        .map(of_mask),
    );
}
