//! An example of the library: a program of one's own, as a body that is polled, run as `main` over a kernel and a sink.
#![tactic(auto)]

mod body;
#[cfg(test)]
mod tests;

pub use body::Ticker;
