// Sales at a limit, and one step beyond it.
use crate::answers::{ANY, made, run};
use sale::{LodgeFault, PermitFault, WithdrawFault};
use std::test::Fail;

// a number of lots, and the number that a sale of runs has
const LOTS: [(u32, u32); 4] = [(0, 0), (65_535, 65_535), (65_536, 0), (4_294_967_295, 0)];

// the places of a table, and the package space
const PLACES: [(usize, usize); 5] = [(0, 0), (1, 1), (255, 255), (256, 256), (257, 256)];

#[test]
fn packages_are_as_many_as_there_is_space(rt: HostRuntime) -> Result<(), Fail> {
    for (lots, expected) in LOTS {
        assert_eq!(rt; made(&rt, lots, 0, ANY)?.lots(), expected);
    }
    for (places, space) in PLACES {
        let mut sale = made(&rt, 300, places, ANY)?;
        assert_eq!(rt; sale.package_space(), space);
        for lot in 1u16..=300 {
            sale.permit(run(lot, lot)).ok();
        }
        assert_eq!(rt; sale.packages().len(), space);
        assert_eq!(rt;
            sale.permit(run(300, 300)).map_err(PermitFault::refusal),
            Err((24, 0))
        );
    }
    Ok(())
}

#[test]
fn a_sale_has_at_most_512_bids(rt: HostRuntime) -> Result<(), Fail> {
    let mut sale = made(&rt, 1, 1, ANY)?;
    assert_eq!(rt;
        sale.lodge(1, 1, 1).map_err(LodgeFault::refusal),
        Err((28, 0))
    );
    assert_eq!(rt; sale.permit(run(1, 1)).map_err(PermitFault::refusal), Ok(1));
    for number in 1usize..=512 {
        assert_eq!(rt;
            sale.lodge(1, 1, 1).map_err(LodgeFault::refusal),
            Ok(number)
        );
    }
    assert_eq!(rt;
        sale.lodge(1, 1, 1).map_err(LodgeFault::refusal),
        Err((29, 0))
    );
    assert_eq!(rt;
        sale.lodge(1, 1, 2).map_err(LodgeFault::refusal),
        Err((28, 0))
    );
    // a withdrawn bid keeps its number
    assert_eq!(rt; sale.withdraw(512).map_err(WithdrawFault::refusal), Ok(1));
    assert_eq!(rt;
        sale.withdraw(513).map_err(WithdrawFault::refusal),
        Err((30, 0))
    );
    assert_eq!(rt;
        sale.lodge(1, 1, 1).map_err(LodgeFault::refusal),
        Err((29, 0))
    );
    assert_eq!(rt; sale.bids().len(), 512);
    Ok(())
}
