// Opening small sales from tables.
use crate::brute_force::Offer;
use packages::{Mask, Package, Run};
use sale::Sale;
use std::alloc::{AllocError, Global};
use std::test::Fail;

// The lots of a small sale.
pub const LOTS: u32 = 16;

// Two lots, together and apart: the packages of most worked sales.
pub const PAIR: [(u16, u16); 3] = [(1, 2), (1, 1), (2, 2)];

// A small sale: its packages, its bids as buyer, price and package, and the numbers of the bids that are withdrawn.
// In tables a package is its first and last lot.
#[derive(Clone, Copy)]
pub struct Case<'a, P> {
    pub packages: &'a [P],
    pub bids: &'a [(u32, u32, usize)],
    pub withdrawn: &'a [usize],
}

impl<'a, P: Copy> Case<'a, P> {
    // The same bids on packages of another kind.
    pub(crate) fn on<Q>(self, packages: &'a [Q]) -> Case<'a, Q> {
        Case {
            packages,
            bids: self.bids,
            withdrawn: self.withdrawn,
        }
    }
}

impl<'a, P: Package> Case<'a, P> {
    // A sale of these packages with these bids, of which some are then withdrawn.
    pub(crate) fn open(self, heap: Global) -> Result<Sale<P>, Fail> {
        let mut table = Vec::new(heap);
        table.extend_from_slice(self.packages)?;
        let mut sale = Sale::new(heap, LOTS, table).map_err(|_| Fail::new("no memory"))?;
        for package in self.packages {
            sale.permit(*package)?;
        }
        for (buyer, price, package) in self.bids {
            sale.lodge(*buyer, *price, *package)?;
        }
        for number in self.withdrawn {
            sale.withdraw(*number)?;
        }
        Ok(sale)
    }
}

impl Case<'_, Mask> {
    // The bids for the brute force.
    pub(crate) fn offers(self, heap: Global) -> Result<Vec<Offer>, AllocError> {
        let mut offers = Vec::new(heap);
        for ((buyer, price, package), number) in self.bids.iter().zip(1u32..) {
            let mask = self.packages.get(package.wrapping_sub(1));
            offers.push(Offer {
                bit: 1u32.wrapping_shl(number.wrapping_sub(1)),
                buyer: *buyer,
                price: u64::from(*price),
                lots: mask.map_or(0, |mask| mask.bits),
                stands: !self.withdrawn.contains(&(number as usize)),
            })?;
        }
        Ok(offers)
    }
}

// The lots from first to last, as a set.
fn lots_of(first: u16, last: u16) -> u64 {
    (1..=LOTS as u16)
        .filter(|lot| first <= *lot && *lot <= last)
        .fold(0, |lots: u64, lot| {
            lots | 1u64.wrapping_shl(u32::from(lot.wrapping_sub(1)))
        })
}

// The packages as runs. This and `as_masks` have a line each, which a function over both kinds would not shorten.
pub(crate) fn as_runs(heap: Global, runs: &[(u16, u16)]) -> Result<Vec<Run>, AllocError> {
    runs.iter()
        .map(|&(first, last)| Run { first, last })
        .collect(heap)
}

// The same packages as masks.
pub(crate) fn as_masks(heap: Global, runs: &[(u16, u16)]) -> Result<Vec<Mask>, AllocError> {
    runs.iter()
        .map(|&(first, last)| Mask {
            bits: lots_of(first, last),
        })
        .collect(heap)
}
