//! Tests of the kernel over real sockets, on 127.0.0.1. This crate holds nothing else.
#![tactic(auto)]

#[cfg(test)]
mod streams;
#[cfg(test)]
mod support;
