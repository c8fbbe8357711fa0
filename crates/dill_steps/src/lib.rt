//! The steps of the machine on what it keeps: a call is entered, endings finish and answers are given, deadlines pass, and a
//! coroutine has its turn. Each one equals its definition. The calls of links are no part of it yet.
#![tactic(auto)]

mod entering;
mod expiring;
mod settling;
mod turning;

pub use entering::enter;
pub use expiring::{expire_one, first_passed, least_due, passes_one_by_one, waiting_from};
pub use settling::settle;
pub use turning::turn;
