//! The programs of scripts as bodies that the machine polls.
//! What their statements mean stands below it, and what their calls do above it.
#![tactic(auto)]

mod body;
mod calls;
mod given;
mod held;
mod laws;
mod mode;
mod rounds;
mod run;
mod texts;
mod turn;
mod values;

pub use body::ScriptBody;
pub use laws::scripts_begin;
