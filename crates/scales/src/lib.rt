// Scales: values that are added and multiplied by the laws of a commutative semiring.
#![tactic(auto)]

mod amount;
pub mod best_three;
pub mod count;
pub mod laws;
pub mod lowest;
pub mod revenue;
pub mod scale;
pub mod tied;

pub use amount::TOP_AMOUNT;
pub use best_three::BestThree;
pub use count::{Count, TOP_COUNT};
pub use lowest::Lowest;
pub use revenue::Revenue;
pub use scale::{PricedScale, Scale};
pub use tied::Tied;
