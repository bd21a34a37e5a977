// Files that are refused, each with the number of the refusal and its line.
use bids::limits::MAX_PACKAGES;
use salefile::fault::{Fault, ReadFault};
use salefile::read::read;
use std::test::Fail;

// The number and the line by which the file is refused in a sale with so many package places, if it is.
pub(crate) fn refusal(rt: &HostRuntime, file: &str, places: usize) -> Option<(u8, usize)> {
    read(rt.alloc(), file.as_bytes(), places)
        .err()
        .and_then(ReadFault::refusal)
}

// a file, the number of its refusal and the line
const REFUSED: [(&str, u8, usize); 78] = [
    // no first line
    ("", 2, 1),
    ("SALE 94", 2, 1),
    ("SALE 95\nEND\n", 2, 1),
    ("sale 94\nEND\n", 2, 1),
    (" SALE 94\nEND\n", 2, 1),
    ("SALE 94 \nEND\n", 2, 1),
    ("SALE  94\nEND\n", 2, 1),
    ("\nSALE 94\nEND\n", 2, 1),
    ("* first\nSALE 94\nEND\n", 2, 1),
    ("END\n", 2, 1),
    ("SALE 94\r\r\nEND\n", 2, 1),
    ("SALE 94\rEND\n", 2, 1),
    // not one of the lines, or not ended
    ("SALE 94\nX\nEND\n", 3, 2),
    ("SALE 94\n\nEND\n", 3, 2),
    ("SALE 94\n\r\nEND\n", 3, 2),
    ("SALE 94\nG \nEND\n", 3, 2),
    ("SALE 94\nGL\nEND\n", 3, 2),
    ("SALE 94\ng\nEND\n", 3, 2),
    ("SALE 94\nL1\nEND\n", 3, 2),
    ("SALE 94\n *\nEND\n", 3, 2),
    ("SALE 94\nSALE 94\nEND\n", 3, 2),
    ("SALE 94\nEND \n", 3, 2),
    ("SALE 94\nENDS\n", 3, 2),
    ("SALE 94\nEND\r\r\n", 3, 2),
    ("SALE 94\nEND", 3, 2),
    ("SALE 94\n* not ended", 3, 2),
    ("SALE 94\nG\nL\nB 1 10", 3, 4),
    ("SALE 94\nG\nL\nE\r\r\nEND\n", 3, 4),
    // a bid that is not written by the rule
    ("SALE 94\nG\nB 01 5\n", 3, 3),
    ("SALE 94\nG\nB 1 05\n", 3, 3),
    ("SALE 94\nG\nB 00 5\n", 3, 3),
    ("SALE 94\nG\nB 1 12345678901\n", 3, 3),
    ("SALE 94\nG\nB 12345678901 1\n", 3, 3),
    ("SALE 94\nG\nB  1 5\n", 3, 3),
    ("SALE 94\nG\nB 1  5\n", 3, 3),
    ("SALE 94\nG\nB 1 5 \n", 3, 3),
    ("SALE 94\nG\nB 1 5 6\n", 3, 3),
    ("SALE 94\nG\nB 1\n", 3, 3),
    ("SALE 94\nG\nB\n", 3, 3),
    ("SALE 94\nG\nB 1 \n", 3, 3),
    ("SALE 94\nG\nB 1 x\n", 3, 3),
    ("SALE 94\nG\nB -1 5\n", 3, 3),
    ("SALE 94\nG\nb 1 5\n", 3, 3),
    ("SALE 94\nG\nB1 5\n", 3, 3),
    // a buyer or a price beyond the limits
    ("SALE 94\nG\nB 0 5\n", 4, 3),
    ("SALE 94\nG\nB 1000 5\n", 4, 3),
    ("SALE 94\nG\nB 1 0\n", 4, 3),
    ("SALE 94\nG\nB 1 1000000001\n", 4, 3),
    ("SALE 94\nG\nB 9999999999 1\n", 4, 3),
    ("SALE 94\nG\nB 1 9999999999\n", 4, 3),
    // no package open
    ("SALE 94\nE\nEND\n", 5, 2),
    ("SALE 94\nB 1 5\nEND\n", 5, 2),
    ("SALE 94\nG\nL\nE\nE\nEND\n", 5, 5),
    ("SALE 94\nG\nL\nE\nB 1 5\nEND\n", 5, 5),
    // a package without lots
    ("SALE 94\nG\nE\nEND\n", 6, 3),
    ("SALE 94\nL\nG\nE\nEND\n", 6, 4),
    ("SALE 94\nG\nL\nG\nB 1 5\nE\nE\nEND\n", 6, 6),
    // a package with the lots of one inside it
    ("SALE 94\nG\nG\nL\nE\nE\nEND\n", 7, 6),
    ("SALE 94\nG\nG\nG\nL\nE\nL\nE\nE\nEND\n", 7, 9),
    ("SALE 94\nL\nG\n*\nG\nL\nL\nE\n*\nE\nEND\n", 7, 10),
    // the end with a package open
    ("SALE 94\nG\nEND\n", 8, 2),
    ("SALE 94\nG\nL\nG\nL\nEND\n", 8, 4),
    ("SALE 94\nG\nL\nG\nL\nE\nEND\n", 8, 2),
    (
        "SALE 94\nG\nB 1 10\nG\nL\nB 2 6\nG\nL\nB 3 5\nE\nE\nEND\n",
        8,
        2,
    ),
    // no end
    ("SALE 94\n", 9, 2),
    ("SALE 94\nG\nL\nE\n", 9, 5),
    ("SALE 94\r\n* the end is missing\r\n", 9, 3),
    // bytes after the end
    ("SALE 94\nEND\nX", 10, 3),
    ("SALE 94\nEND\nEND\n", 10, 3),
    ("SALE 94\nEND\n\n", 10, 3),
    ("SALE 94\nEND\n* after\n", 10, 3),
    ("SALE 94\nG\nL\nE\nEND\nSALE 94\n", 10, 6),
    // two checks that compete
    ("SALE 94\nB 01 5\nEND\n", 3, 2),
    ("SALE 94\nB 0 0\nEND\n", 5, 2),
    ("SALE 94\nG\nEND\nX", 8, 2),
    ("SALE 94\nX\nE\n", 3, 2),
    ("SALE 94\nE\nX\n", 5, 2),
    ("SALE 94\nG\nE\nE\n", 6, 3),
];

#[test]
fn files_are_refused_at_their_first_fault(rt: HostRuntime) -> Result<(), Fail> {
    for (file, number, line) in REFUSED {
        assert!(rt;
            refusal(&rt, file, MAX_PACKAGES) == Some((number, line)),
            "{}",
            file
        );
    }
    Ok(())
}

#[test]
fn too_little_space_is_refused_at_its_line(rt: HostRuntime) -> Result<(), Fail> {
    let file = b"SALE 94\nG\nL\nE\nG\nL\nE\nG\nL\nE\nEND\n";
    for (places, line) in [(0, 2), (1, 5), (2, 8)] {
        let refused = read(rt.alloc(), file, places);
        assert!(rt; refused == Err(ReadFault::File(Fault::NoSpace { line })));
    }
    assert!(rt; read(rt.alloc(), file, 3).is_ok());
    Ok(())
}
