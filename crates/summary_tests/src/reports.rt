// Files, their reports and the texts of these.
use std::process::Abort;
use std::test::Fail;
use summary::report::{FileReport, Refusal, report};

// The report on the file, which has the text.
fn reported(rt: &(impl Abort + AllocGlobal), file: &str, text: &str) -> Result<FileReport, Fail> {
    let report = report(rt.alloc(), file.as_bytes())?;
    assert!(rt; report.text(rt.alloc())?.as_str() == text);
    Ok(report)
}

#[test]
fn accepted_files(rt: HostRuntime) -> Result<(), Fail> {
    for (file, text) in [
        // a winner on each of two lots beats a bid on both
        (
            "SALE 94\nG\nB 1 10\nG\nL\nB 2 6\nE\nG\nL\nB 3 5\nE\nE\nEND\n",
            "REVENUE 11\nBID 2 BUYER 2 PRICE 6\nBID 3 BUYER 3 PRICE 5\nBUYER 2 PAYS 5\nBUYER 3 PAYS 4\nWAYS 1\nTOP 11 10 6\n",
        ),
        // a tie goes to the lower number, and is reached in two ways
        (
            "SALE 94\nG\nB 1 11\nG\nL\nB 2 6\nE\nG\nL\nB 3 5\nE\nE\nEND\n",
            "REVENUE 11\nBID 1 BUYER 1 PRICE 11\nBUYER 1 PAYS 11\nWAYS 2\nTOP 11 11 6\n",
        ),
        // a buyer who outbids himself
        (
            "SALE 94\nG\nB 1 10\nG\nL\nB 1 6\nE\nG\nL\nB 3 5\nE\nE\nEND\n",
            "REVENUE 11\nBID 2 BUYER 1 PRICE 6\nBID 3 BUYER 3 PRICE 5\nBUYER 1 PAYS 0\nBUYER 3 PAYS 4\nWAYS 1\nTOP 11 10 6\n",
        ),
        // two bids on one lot
        (
            "SALE 94\nG\nL\nB 1 7\nB 2 7\nE\nEND\n",
            "REVENUE 7\nBID 1 BUYER 1 PRICE 7\nBUYER 1 PAYS 7\nWAYS 2\nTOP 7 7 0\n",
        ),
        // payments come by buyer, winners by number
        (
            "SALE 94\nG\nL\nB 30 5\nE\nG\nL\nB 4 3\nE\nG\nL\nB 30 2\nE\nEND\n",
            "REVENUE 10\nBID 1 BUYER 30 PRICE 5\nBID 2 BUYER 4 PRICE 3\nBID 3 BUYER 30 PRICE 2\nBUYER 4 PAYS 0\nBUYER 30 PAYS 0\nWAYS 1\nTOP 10 8 7\n",
        ),
        // the highest buyer and the highest price
        (
            "SALE 94\nG\nL\nB 999 1000000000\nE\nEND\n",
            "REVENUE 1000000000\nBID 1 BUYER 999 PRICE 1000000000\nBUYER 999 PAYS 0\nWAYS 1\nTOP 1000000000 0\n",
        ),
        // no bids
        ("SALE 94\nEND\n", "REVENUE 0\nWAYS 1\nTOP 0\n"),
    ] {
        let report = reported(&rt, file, text)?;
        assert!(rt; matches!(&report, FileReport::Accepted(_)));
    }
    Ok(())
}

#[test]
fn refused_files(rt: HostRuntime) -> Result<(), Fail> {
    for (file, number, line, text) in [
        (
            "SALE 94\nG\nB 1 10\nG\nL\nB 2 6\nG\nL\nB 3 5\nE\nE\nEND\n",
            8,
            2,
            "REFUSED 8 LINE 2\n",
        ),
        ("", 2, 1, "REFUSED 2 LINE 1\n"),
        (
            "SALE 94\nG\nB 1000 1\nL\nE\nEND\n",
            4,
            3,
            "REFUSED 4 LINE 3\n",
        ),
    ] {
        let FileReport::Refused(refusal) = reported(&rt, file, text)? else {
            return Err(Fail::new("accepted"));
        };
        assert_eq!(rt; refusal, Refusal { number, line });
    }
    Ok(())
}
