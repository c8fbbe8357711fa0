//! That one pending call at most looks at a stack, and that nothing is due behind its look. Definitions and laws; it holds
//! no code.
#![tactic(auto)]

mod laws;

pub use laws::{
    draws_nothing, links_are_kept, looks_settle, needs_are_short, one_look_enters, one_look_hears,
    one_look_settles, one_look_turns, rest_sees_no_random, steps_count_links, steps_keep_apart,
    steps_keep_calm,
};
