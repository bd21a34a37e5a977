// What a file says: its lots, its packages and its bids.
use bids::Bid;
use packages::Run;

// Packages and bids are numbered from 1 in their order.
#[derive(Debug, Drop, PartialEq)]
pub struct Contents {
    pub lots: u16,
    pub packages: Vec<Run>,
    pub bids: Vec<Bid>,
}
