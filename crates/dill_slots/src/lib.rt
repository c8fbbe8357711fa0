//! Slots: numbered places for values in rising id, with a ready queue, wait lists and timers.
//! It decides nothing: who is put where, and when, is the caller's matter.
#![tactic(auto)]

mod place;
mod queue;
mod slot;
mod slots;
mod steps;
mod timers;
mod waits;

pub use slot::{Slot, SlotFault, Timer, Waiting};
pub use slots::Slots;
pub use steps::Steps;
