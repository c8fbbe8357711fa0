//! The canonical text of a script: one space between tokens, an LF behind each line, and nothing that has no meaning.
//! It reads no text and judges no script: that stands below it.
#![tactic(auto)]

mod back;
mod line;
mod operand;
mod script;
mod text;
mod token;

pub use back::printed_is_read;
pub use script::print_script;
