//! That the stack of each link fits the calls that are pending on it, and that so each call on a stack finds what it
//! requires. Definitions and laws; it holds no code.
#![tactic(auto)]

mod laws;

pub use laws::{
    entries_fit, looks_fit, reads_have_room, replies_are_kept, stacks_stay, steps_keep_fitting,
    writes_are_offered,
};
