//! Programs that make no call of links or layers: so far a core runs these alone.
#![tactic(auto)]

mod body;

pub use body::PlainBody;
