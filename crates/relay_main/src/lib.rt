//! The program `dillrelay` over any shelf, sinks, kernel and generator: what is done with its words, a script that is run,
//! and a script whose canonical text is printed.
#![tactic(auto)]

mod checking;
mod reading;
mod running;
mod saying;
mod top;

pub use checking::check_over;
pub use running::run_over;
pub use saying::{say_not_read, say_usage, say_want};
pub use top::dillrelay;
