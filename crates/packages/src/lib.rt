// Packages of lots: what a kind of package answers, and where a package stands in a nest.
// The search is `place::place`: a module and a function beside it cannot have one name.
#![tactic(auto)]

mod laws;
mod mask;
mod package;
pub mod place;
mod relation;
mod run;

pub use laws::{answers, highest_lots, tests_are_exact};
pub use mask::Mask;
pub use package::Package;
pub use place::Conflict;
pub use relation::Relation;
pub use run::Run;
