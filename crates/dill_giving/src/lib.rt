//! What calls on links do to a world besides that they are pending: the parts of their entries on links and stacks, what a
//! pending call is answered without a look at its stack, and what such an answer does.
#![tactic(auto)]

mod answering;
mod asked;
mod entering;
mod finding;
mod forgoing;
mod giving;
mod rows;

pub use answering::{lookless_of, no_looks};
pub use asked::Asked;
pub use entering::{
    attach_layer, detach_start, dropped_for, enter_attach, given_up_at_once, greet, heat, queue,
    reserve,
};
pub use forgoing::forgo;
pub use giving::{
    give_attached, give_close, give_closed, give_forgone, give_receive, give_send, give_short,
    give_stack_up,
};
