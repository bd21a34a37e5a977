// Files that are loaded into sales of runs.
use crate::answers::{ANY, made, run};
use bids::Bid;
use packages::Run;
use sale::{LoadFault, LodgeFault, PermitFault, Sale};
use std::test::Fail;

// The file of three packages and three bids that the rules show, and without its seventh line.
const WORKED: &str = "SALE 94\nG\nB 1 10\nG\nL\nB 2 6\nE\nG\nL\nB 3 5\nE\nE\nEND\n";

const UNCLOSED: &str = "SALE 94\nG\nB 1 10\nG\nL\nB 2 6\nG\nL\nB 3 5\nE\nE\nEND\n";

// What loading the file answers; want of memory has no number.
fn load(
    rt: &impl AllocGlobal,
    sale: &mut Sale<Run>,
    file: &[u8],
) -> Result<usize, Option<(u8, usize)>> {
    sale.load(rt.alloc(), file).map_err(LoadFault::refusal)
}

#[test]
fn a_file_takes_the_place_of_an_empty_sale(rt: HostRuntime) -> Result<(), Fail> {
    let mut sale = made(&rt, 7, 256, ANY)?;
    for (file, expected) in [
        (UNCLOSED, Err(Some((8, 2)))),
        ("SALE 95\n", Err(Some((2, 1)))),
        ("SALE 94\n", Err(Some((9, 2)))),
    ] {
        assert_eq!(rt; load(&rt, &mut sale, file.as_bytes()), expected);
        assert_eq!(rt; sale.lots(), 7);
        assert!(rt; sale.packages().is_empty() && sale.bids().is_empty());
    }
    assert_eq!(rt; load(&rt, &mut sale, WORKED.as_bytes()), Ok(3));
    // now the sale has packages and bids
    for file in [WORKED, UNCLOSED] {
        assert_eq!(rt; load(&rt, &mut sale, file.as_bytes()), Err(Some((21, 0))));
    }
    let long = [b'x'; 16_385];
    assert_eq!(rt; load(&rt, &mut sale, &long), Err(Some((1, 0))));
    assert_eq!(rt; sale.lots(), 2);
    assert_eq!(rt; sale.package_space(), 256);
    assert!(rt; sale.packages() == [run(1, 2), run(1, 1), run(2, 2)].as_slice());
    assert!(rt;
        sale.bids() == [Bid::new(1, 10, 1), Bid::new(2, 6, 2), Bid::new(3, 5, 3)].as_slice()
    );
    // and it goes on as any other
    assert_eq!(rt;
        sale.permit(run(2, 2)).map_err(PermitFault::refusal),
        Err((25, 3))
    );
    assert_eq!(rt;
        sale.permit(run(3, 3)).map_err(PermitFault::refusal),
        Err((11, 0))
    );
    assert_eq!(rt; sale.lodge(4, 7, 3).map_err(LodgeFault::refusal), Ok(4));
    Ok(())
}

#[test]
fn a_file_needs_package_space(rt: HostRuntime) -> Result<(), Fail> {
    for (places, expected) in [
        (0, Err(Some((22, 2)))),
        (1, Err(Some((22, 4)))),
        (2, Err(Some((22, 8)))),
        (3, Ok(3)),
        (300, Ok(3)),
    ] {
        let mut sale = made(&rt, 7, places, ANY)?;
        assert_eq!(rt; load(&rt, &mut sale, WORKED.as_bytes()), expected);
    }
    // a file without packages leaves the sale empty, and can be followed by another
    let mut sale = made(&rt, 7, 3, ANY)?;
    assert_eq!(rt; load(&rt, &mut sale, b"SALE 94\nL\nEND\n"), Ok(0));
    assert_eq!(rt; sale.lots(), 1);
    assert_eq!(rt; load(&rt, &mut sale, WORKED.as_bytes()), Ok(3));
    // a package alone is enough to refuse a file
    let mut permitted = made(&rt, 7, 3, ANY)?;
    assert_eq!(rt;
        permitted.permit(run(1, 7)).map_err(PermitFault::refusal),
        Ok(1)
    );
    assert_eq!(rt;
        load(&rt, &mut permitted, WORKED.as_bytes()),
        Err(Some((21, 0)))
    );
    Ok(())
}
