//! The tests of the crates of scripts: what each public call shows that no clause says, one module a crate. It offers
//! nothing, and nothing stands on it.
#![tactic(auto)]

#[cfg(test)]
mod body;
#[cfg(test)]
mod command;
#[cfg(test)]
mod lines;
#[cfg(test)]
mod printer;
#[cfg(test)]
mod reader;
#[cfg(test)]
mod trace;
#[cfg(test)]
mod values;
