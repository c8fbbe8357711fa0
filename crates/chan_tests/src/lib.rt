//! Tests of channels. This crate holds nothing else.
#![tactic(auto)]

#[cfg(test)]
mod choices;
#[cfg(test)]
mod endings;
#[cfg(test)]
mod meetings;
#[cfg(test)]
mod telling;
