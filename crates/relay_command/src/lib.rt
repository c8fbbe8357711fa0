//! The arguments of the program: the options, in any order, and the one argument that names the script.
//! It takes no memory.
#![tactic(auto)]

mod command;
mod found;
mod piece;
mod reading;
mod value;
mod worked;

pub use command::{Command, Mode, Net};
pub use reading::command_of;
pub use worked::rows;
