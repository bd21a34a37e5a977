// What a report says of a sale, and its text.
#![tactic(auto)]

pub mod contents;
mod gather;
pub mod report;
pub mod text;

pub use contents::{Payment, Summary, Winner};
