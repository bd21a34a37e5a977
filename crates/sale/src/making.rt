// Making a sale.
ghost use Rattle.std.specs.Prelude.{◌≡◌, vec_len, MatchResult};
ghost use Rattle.books.specs.History.{making as making_of, book_of};
ghost use Rattle.sale.specs.Holds.{Holds};

use crate::state::Sale;
use bids::limits::{MAX_BIDS, MAX_PACKAGES};
use nest::Nest;
use packages::Package;
use std::alloc::Global;

impl<P: Package> Sale<P> {
    // A sale of `lots` lots, or of none where the kind has no such lot, with `table` for its packages.
    // Where memory is wanting the table comes back.
    pub fn new(heap: Global, lots: u32, table: Vec<P>) -> Result<Sale<P>, Vec<P>>
        ensures { MatchResult result (λ s. Holds P.Package.meaning s (book_of (making_of P.Package.HIGHEST lots (vec_len table))) × (s.table ≡ table)) (λ back. back ≡ table) }
    {
        // A closure of `map_err` would take the table away, which has to come back.
        let Ok(parents) = Vec::with_capacity(heap, MAX_PACKAGES) else {
            return Err(table);
        };
        let Ok(bids) = Vec::with_capacity(heap, MAX_BIDS) else {
            return Err(table);
        };
        let lots = if lots <= P::HIGHEST { lots } else { 0 };
        Ok(Sale {
            lots,
            table,
            nest: Nest { parents, bids },
        })
    }
}
