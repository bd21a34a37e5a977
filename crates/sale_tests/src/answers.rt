// A sale to try calls on, and the answer of a call: a number, or the number and the place of a refusal.
use packages::{Package, Run};
use sale::Sale;
use std::test::Fail;

// What a call answers.
pub(crate) type Answer = Result<usize, (u8, usize)>;

// A sale with a table of so many places, all of them `filler`.
pub(crate) fn made<P: Package>(
    rt: &HostRuntime,
    lots: u32,
    places: usize,
    filler: P,
) -> Result<Sale<P>, Fail> {
    let table = vec![in rt.alloc(); filler; places]?;
    Sale::new(rt.alloc(), lots, table).map_err(|_| Fail::new("no memory"))
}

// A package that means nothing, for the places of a table.
pub(crate) const ANY: Run = Run { first: 7, last: 9 };

pub(crate) fn run(first: u16, last: u16) -> Run {
    Run { first, last }
}
