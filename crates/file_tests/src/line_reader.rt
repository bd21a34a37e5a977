// The line reader: kinds of line, their parts and places, and where it stops.
use lines::{Line, LineReader, Number, Numbered, Part, Unreadable};
use std::process::Abort;
use std::test::Fail;

// The kinds of line, without their parts.
#[derive(Clone, Copy, PartialEq, Debug)]
enum Kind {
    Header,
    Open,
    Close,
    Lot,
    Bid,
    Remark,
    End,
}

impl From<Line<'_>> for Kind {
    fn from(line: Line) -> Kind {
        match line {
            Line::Header => Kind::Header,
            Line::Open => Kind::Open,
            Line::Close => Kind::Close,
            Line::Lot => Kind::Lot,
            Line::Bid { .. } => Kind::Bid,
            Line::Remark(_) => Kind::Remark,
            Line::End => Kind::End,
        }
    }
}

// The kinds of the lines, and the line of the fault, if there is one.
fn kinds(rt: &(impl Abort + AllocGlobal), file: &str) -> Result<(Vec<Kind>, Option<usize>), Fail> {
    let mut lines = LineReader::new(file.as_bytes());
    let mut kinds = Vec::new(rt.alloc());
    loop {
        match lines.next() {
            Ok(Some(next)) => kinds.push(Kind::from(next.line))?,
            Ok(None) => return Ok((kinds, None)),
            Err(Unreadable { line }) => {
                assert!(rt; lines.next().is_ok());
                return Ok((kinds, Some(line)));
            }
        }
    }
}

// a file, the kinds of its lines and the line of the fault
const CASES: [(&str, &[Kind], Option<usize>); 8] = [
    ("", &[], None),
    (
        "SALE 94\nG\nL\nB 1 2\nE\nEND\n",
        &[
            Kind::Header,
            Kind::Open,
            Kind::Lot,
            Kind::Bid,
            Kind::Close,
            Kind::End,
        ],
        None,
    ),
    // each line alone: no header, lines out of order, lines after the end
    (
        "E\nEND\nG\r\nEND\r\nSALE 94\n*\n",
        &[
            Kind::Close,
            Kind::End,
            Kind::Open,
            Kind::End,
            Kind::Header,
            Kind::Remark,
        ],
        None,
    ),
    ("B 0 0\nB 9999999999 0\n", &[Kind::Bid, Kind::Bid], None),
    ("L\nL", &[Kind::Lot], Some(2)),
    ("L\nx\nL\n", &[Kind::Lot], Some(2)),
    ("\nL\n", &[], Some(1)),
    ("L\r\nL\r\r\n", &[Kind::Lot], Some(2)),
];

#[test]
fn lines_come_up_to_the_first_fault(rt: HostRuntime) -> Result<(), Fail> {
    for (file, expected, line) in CASES {
        let (kinds, fault) = kinds(&rt, file)?;
        assert!(rt; kinds.as_slice() == expected, "{}", file);
        assert!(rt; fault == line, "{}", file);
    }
    Ok(())
}

#[test]
fn parts_have_their_places(rt: HostRuntime) -> Result<(), Fail> {
    let mut lines = LineReader::new(b"* two words\r\nB 17 4000\r\n*\n");
    let words = Line::Remark(Part {
        at: 1,
        bytes: b" two words",
    });
    let buyer = Number::try_from(Part {
        at: 15,
        bytes: b"17",
    })?;
    let price = Number::try_from(Part {
        at: 18,
        bytes: b"4000",
    })?;
    let bid = Line::Bid { buyer, price };
    let nothing = Line::Remark(Part { at: 25, bytes: b"" });
    for (number, line) in [(1, words), (2, bid), (3, nothing)] {
        assert!(rt; lines.next() == Ok(Some(Numbered { number, line })));
    }
    assert!(rt; lines.next() == Ok(None));
    assert_eq!(rt; lines.lines_read(), 3);
    assert_eq!(rt; buyer.value(), 17);
    assert_eq!(rt; price.value(), 4000);
    Ok(())
}
