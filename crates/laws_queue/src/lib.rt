//! What a core keeps of the machine's state, and that its steps are the machine's. Definitions and laws; it holds no code.
#![tactic(auto)]

mod laws;

pub use laws::{follows_states, settling_ends, steps_keep_well};
