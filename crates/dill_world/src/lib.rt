//! The rules of the machine as calls on what it keeps: each one equals its definition, and takes no memory where none is
//! said to be wanting. It refuses what stacks refuse, and makes the `close` of a link due; a call of a link doesn't begin yet.
#![tactic(auto)]

mod answers;
mod channeling;
mod ending;
mod kinds;
mod lining;
mod linking;
mod naming;
mod owning;
mod place;
mod refusals;
mod rooms;
mod row;
mod rows;
mod taking;
mod world;

pub use answers::copy_answer;
pub use kinds::value_of;
pub use naming::{draws_of, told};
pub use place::Place;
pub use rooms::Rooms;
pub use row::Row;
pub use taking::{is_ending, pending_call};
pub use world::World;
