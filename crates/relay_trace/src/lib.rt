//! The lines that a run prints: answers, ends, notes, the programs that wait, and the summary. They take no memory.
//! Which lines a run prints, and when, is the driver's matter.
#![tactic(auto)]

mod hex;
mod line;
mod piece;
mod short;
mod summary;
mod turn;

pub use line::{write_hex_line, write_line};
pub use short::Short;
pub use summary::{Summary, write_note, write_summary, write_waiting};
pub use turn::write_ran;
