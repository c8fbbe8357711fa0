//! Reading a whole script: its text is cut into lines, each line is judged by what stands before it, and the programs
//! are linked. It runs nothing, and reads no line by itself: `relay_lines` does.
#![tactic(auto)]

mod blocks;
mod built;
mod context;
mod cut;
mod fault;
mod judging;
mod linking;
mod reading;
mod starts;

pub use reading::{MOST_BYTES, read_script};
