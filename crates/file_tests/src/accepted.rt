// Files that are accepted, with their lots, packages and bids.
use bids::Bid;
use bids::limits::MAX_PACKAGES;
use packages::Run;
use salefile::contents::Contents;
use salefile::read::read;
use std::test::Fail;

fn contents(rt: &HostRuntime, file: &str) -> Result<Contents, Fail> {
    Ok(read(rt.alloc(), file.as_bytes(), MAX_PACKAGES)?)
}

// The file of three packages and three bids that the rules show.
const WORKED: &str = "SALE 94\nG\nB 1 10\nG\nL\nB 2 6\nE\nG\nL\nB 3 5\nE\nE\nEND\n";

#[test]
fn the_worked_file(rt: HostRuntime) -> Result<(), Fail> {
    let c = contents(&rt, WORKED)?;
    assert_eq!(rt; c.lots, 2);
    assert!(rt;
        c.packages.as_slice()
            == [
                Run { first: 1, last: 2 },
                Run { first: 1, last: 1 },
                Run { first: 2, last: 2 },
            ]
            .as_slice()
    );
    assert!(rt;
        c.bids.as_slice() == [Bid::new(1, 10, 1), Bid::new(2, 6, 2), Bid::new(3, 5, 3)].as_slice()
    );
    Ok(())
}

#[test]
fn remarks_and_line_ends_change_nothing(rt: HostRuntime) -> Result<(), Fail> {
    let worked = contents(&rt, WORKED)?;
    for file in [
        "SALE 94\r\nG\r\nB 1 10\r\nG\r\nL\r\nB 2 6\r\nE\r\nG\r\nL\r\nB 3 5\r\nE\r\nE\r\nEND\r\n",
        "SALE 94\n*\n* B 9 9\nG\n*G\nB 1 10\nG\nL\n**\nB 2 6\nE\nG\n*E\nL\nB 3 5\nE\n*\r\r\nE\n*END\nEND\n",
    ] {
        let c = contents(&rt, file)?;
        assert!(rt; c == worked);
    }
    Ok(())
}

#[test]
fn lots_count_from_the_first_line(rt: HostRuntime) -> Result<(), Fail> {
    let none = contents(&rt, "SALE 94\nEND\n")?;
    assert_eq!(rt; none.lots, 0);
    assert!(rt; none.packages.is_empty() && none.bids.is_empty());
    let c = contents(&rt, "SALE 94\nL\nG\nL\nG\nL\nE\nL\nE\nL\nG\nL\nE\nEND\n")?;
    assert_eq!(rt; c.lots, 6);
    assert!(rt;
        c.packages.as_slice()
            == [
                Run { first: 2, last: 4 },
                Run { first: 3, last: 3 },
                Run { first: 6, last: 6 },
            ]
            .as_slice()
    );
    Ok(())
}

#[test]
fn bids_lie_on_the_innermost_open_package(rt: HostRuntime) -> Result<(), Fail> {
    let c = contents(
        &rt,
        "SALE 94\nG\nL\nG\nL\nB 1 1\nE\nB 999 1000000000\nG\nB 7 8\nL\nE\nE\nEND\n",
    )?;
    assert!(rt;
        c.bids.as_slice()
            == [
                Bid::new(1, 1, 2),
                Bid::new(999, 1_000_000_000, 1),
                Bid::new(7, 8, 3),
            ]
            .as_slice()
    );
    Ok(())
}
