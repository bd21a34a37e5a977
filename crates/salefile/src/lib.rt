// 1994 sale files: what a whole file says, or why it is refused.
#![tactic(auto)]

mod build;
pub mod contents;
mod draft;
pub mod fault;
pub mod laws;
pub mod limits;
pub mod read;
