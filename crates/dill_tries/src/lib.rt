//! What a machine asks next of the kernel: of all asks that are due, kind by kind, the first behind the place in the round.
//! Each call looks at all links and coroutines, and takes no memory.
#![tactic(auto)]

mod due;
mod kind;
mod pending;
mod trying;

pub use due::Due;
pub use trying::{has_close, has_tries, next_try};
