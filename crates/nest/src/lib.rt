// The nest of a sale's packages, with the bids on them: totals over the clash-free sets of bids, the award and the charges.
#![tactic(auto)]

mod chains;
mod charges;
mod choices;
pub mod fault;
pub mod nest;
mod totals;
mod winners;

pub use fault::{AwardFault, ChargeFault, TotalFault};
pub use nest::Nest;
