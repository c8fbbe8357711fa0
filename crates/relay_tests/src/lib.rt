//! The tests of the program: whole runs of scripts, and its arguments and statuses. It offers nothing, and nothing stands
//! on it.
#![tactic(auto)]

#[cfg(test)]
mod cases;
#[cfg(test)]
mod channels;
#[cfg(test)]
mod limits;
#[cfg(test)]
mod program;
#[cfg(test)]
mod rows;
