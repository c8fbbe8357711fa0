//! Tests of stacks alone, without the machine above them. This crate holds nothing else.
#![tactic(auto)]

#[cfg(test)]
mod acts;
#[cfg(test)]
mod counting;
#[cfg(test)]
mod endings;
#[cfg(test)]
mod fronts;
#[cfg(test)]
mod greeting;
#[cfg(test)]
mod http;
#[cfg(test)]
mod leaving;
#[cfg(test)]
mod messages;
#[cfg(test)]
mod rooms;
#[cfg(test)]
mod sessions;
