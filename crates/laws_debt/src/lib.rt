//! The debt of a bundle that is closing: the turns that its coroutines may still take, and that it falls. Definitions and
//! laws; it holds no code.
#![tactic(auto)]

mod laws;

pub use laws::{debts_fall, root_debt_falls, steps_keep_stable};
