//! What the statements of a script do, as the meaning of its programs.
//! It runs none: a body that does is proved against it.
#![tactic(auto)]

mod laws;
mod rows;

pub use laws::{scripts_are_lawful, scripts_make_their_calls, scripts_put_their_answers};
pub use rows::{
    answer_rows, channel_rows, fault_rows, handle_rows, if_rows, keep_rows, lack_rows, link_rows,
    loop_rows, number_rows, start_rows,
};
