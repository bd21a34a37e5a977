// The line reader of 1994 sale files: lines whose parts are borrowed from the file.
#![tactic(auto)]

pub mod laws;
pub mod line;
mod next;
pub mod number;
mod parse;
pub mod reader;

pub use line::{Line, Numbered, Part, Unreadable};
pub use number::{BadNumber, Number};
pub use reader::LineReader;
