//! Tests of the kernels that answer from memory, and of the driver over one of them. This crate holds nothing else.
#![tactic(auto)]

#[cfg(test)]
mod asks;
#[cfg(test)]
mod drive;
#[cfg(test)]
mod network;
#[cfg(test)]
mod replay;
#[cfg(test)]
mod visitor;
