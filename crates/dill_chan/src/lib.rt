//! libdill's channels, which hold nothing: a sender at one end meets a receiver at the other.
//! It knows neither handles nor deadlines nor who is cancelled; that is its caller's matter.
#![tactic(auto)]

mod channels;
mod end;
mod ends;
mod laws;
mod meeting;
mod waits;

pub use channels::Channels;
pub use end::{End, Wait, Want};
pub use laws::a_choice_takes_the_least;
pub use meeting::{Meeting, Met};
