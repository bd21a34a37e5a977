// Bids, and the limits that the rules set for a sale.
#![tactic(auto)]

pub mod bid;
pub mod limits;

pub use bid::Bid;
