//! Handle numbers: what each one names and who owns it.
#![tactic(auto)]

mod entry;
mod fault;
mod handles;

pub use entry::Entry;
pub use fault::HandleFault;
pub use handles::Handles;
