//! The tests of the library's parts: what each public call shows that no clause says, one module a crate.
//! It offers nothing, and nothing stands on it.
#![tactic(auto)]

#[cfg(test)]
mod base;
#[cfg(test)]
mod bodies;
#[cfg(test)]
mod calls;
#[cfg(test)]
mod channels;
#[cfg(test)]
mod frames;
#[cfg(test)]
mod handles;
#[cfg(test)]
mod http;
#[cfg(test)]
mod kernel;
#[cfg(test)]
mod pollset;
#[cfg(test)]
mod runs;
#[cfg(test)]
mod scope;
#[cfg(test)]
mod slots;
#[cfg(test)]
mod steps;
#[cfg(test)]
mod values;
#[cfg(test)]
mod world;
#[cfg(test)]
mod ws;
