//! A network in memory: listeners and streams whose links are all of one process.
//! It opens no socket, and its clock moves only where nothing is ready.
#![tactic(auto)]

mod closing;
mod finding;
mod front;
mod held;
mod kernel;
mod making;
mod marks;
mod network;
mod stream;
mod worked;

pub use kernel::LoopKernel;
pub use stream::{End, Listener, Pair, Place};
pub use worked::rows;
