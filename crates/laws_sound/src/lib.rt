//! That worlds stay in order, whatever is called; and of those without links, that they stay so and that what
//! is closing goes on. Definitions and laws; it holds no code.
#![tactic(auto)]

mod laws;

pub use laws::{
    all_cancelled, bundle_goes_on, closing_goes_on, follows_linkless, numbers_once, order_is_sound,
    root_goes_on, settles_apart, steps_keep_linkless, steps_keep_order, steps_keep_rest,
    steps_keep_settled, steps_note_numbers,
};
