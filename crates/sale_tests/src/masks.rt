// Sales of masks.
use crate::answers::{Answer, made};
use packages::Mask;
use sale::PermitFault;
use std::test::Fail;

// a mask, and what permitting it answers, in a sale of 3 lots with 4 places
const PERMITS: [(u64, Answer); 13] = [
    (0, Err((11, 0))),
    (8, Err((11, 0))),
    (5, Ok(1)),
    (6, Err((26, 1))),
    (7, Err((27, 1))),
    (5, Err((25, 1))),
    (4, Ok(2)),
    (4, Err((25, 2))),
    (6, Err((26, 1))),
    (1, Ok(3)),
    (2, Ok(4)),
    (3, Err((24, 0))),
    (9, Err((11, 0))),
];

// the innermost package around each of 0 to 5
const PARENTS: [Option<usize>; 6] = [None, None, Some(1), Some(1), None, None];

#[test]
fn permits_of_masks(rt: HostRuntime) -> Result<(), Fail> {
    let mut sale = made(&rt, 3, 4, Mask { bits: 99 })?;
    let mut count = 0;
    for (bits, expected) in PERMITS {
        let answer = sale.permit(Mask { bits }).map_err(PermitFault::refusal);
        assert_eq!(rt; answer, expected);
        count = answer.unwrap_or(count);
        assert_eq!(rt; sale.packages().len(), count);
    }
    for (number, bits) in [(1, 5), (2, 4), (3, 1), (4, 2)] {
        assert_eq!(rt; sale.package(number), Some(Mask { bits }));
    }
    assert!(rt; sale.package(0).is_none() && sale.package(5).is_none());
    for (number, parent) in PARENTS.iter().enumerate() {
        assert_eq!(rt; sale.parent(number), *parent);
    }
    Ok(())
}

// a number of lots, the number that the sale has, and whether lot 64 fits
const LOTS: [(u32, u32, Answer); 4] = [
    (0, 0, Err((11, 0))),
    (63, 63, Err((11, 0))),
    (64, 64, Ok(1)),
    (65, 0, Err((11, 0))),
];

#[test]
fn masks_have_64_lots(rt: HostRuntime) -> Result<(), Fail> {
    for (lots, expected, answer) in LOTS {
        let mut sale = made(&rt, lots, 1, Mask { bits: 0 })?;
        assert_eq!(rt; sale.lots(), expected);
        assert_eq!(rt;
            sale.permit(Mask { bits: 1 << 63 })
                .map_err(PermitFault::refusal),
            answer
        );
    }
    Ok(())
}
