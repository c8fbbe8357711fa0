//! What a call on a socket asks of its stack: whether the stack refuses it, what it queues or attaches at its entry, and what a
//! look answers. It keeps nothing: the caller owns the call and the stack.
#![tactic(auto)]

mod asking;
mod entering;
mod faults;
mod laws;
mod looking;

pub use asking::{asked, message_of};
pub use entering::{attach, detach_start, greet, queue};
pub use faults::{Faults, refuses};
pub use laws::free_calls;
pub use looking::{after_send, is_receive, is_send, look_of, look_on, stack_lookless};
