//! Which links are wanted and hot: the least that has a call due, by direction.
#![tactic(auto)]

mod interest;
mod pollset;

pub use interest::{Interest, Side};
pub use pollset::Pollset;
