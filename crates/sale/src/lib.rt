// A sealed sale: its packages and its bids.
#![tactic(auto)]

mod awards;
pub mod fault;
mod load;
mod lodge;
mod making;
mod pair;
mod permit;
mod questions;
mod state;
mod totals;

pub use fault::{LoadFault, LodgeFault, PermitFault, WithdrawFault};
pub use pair::{Comparison, compare_sales};
pub use state::Sale;
