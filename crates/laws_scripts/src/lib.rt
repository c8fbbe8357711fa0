//! How the runs of scripts that were read close and end. Definitions and laws; it holds no code.
#![tactic(auto)]

mod laws;

pub use laws::scripts_end;
