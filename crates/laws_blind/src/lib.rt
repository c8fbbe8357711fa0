//! That what looks at no stack sees no random number. Definitions and laws; it holds no code.
#![tactic(auto)]

mod laws;

pub use laws::sees_no_random;
