//! The rules of the machine over plain data: what a call is refused, does and answers, and what a step leaves. Definitions and
//! laws of them; it holds no code.
#![tactic(auto)]

mod coroutine;
mod law;
mod link;
mod thing;

pub use coroutine::{Closing, Coroutine, Mode};
pub use law::{bytes_tell_nothing, opening_is_sound, refusal_changes_nothing};
pub use link::Sort;
pub use thing::Thing;
