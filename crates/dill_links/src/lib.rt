//! Links as a machine keeps them: what the kernel made, the stack that stands on each, and the stacks that are made for links to
//! come, so that a link which the kernel makes takes no memory. Contracts see the rules' own links.
#![tactic(auto)]

mod links;
mod row;
mod spare;

pub use links::Links;
pub use row::{Change, LinkRow};
