//! The core of coroutines: the world and a queue of those who have an answer. It takes the steps of the machine one after
//! the other, and the driver runs it. The calls of links are no part of it yet.
#![tactic(auto)]

mod crew;
mod running;
mod stepping;

pub use crew::Core;
pub use running::run;
