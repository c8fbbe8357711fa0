//! One line of a script: its tokens, its heading, and the line that they spell.
//! What may stand where, and the order of refusals, stands above it.
#![tactic(auto)]

mod address;
mod bytes;
mod cond;
mod cutting;
mod dest;
mod heading;
mod keyword;
mod line;
mod names;
mod number;
mod operand;
mod operands;
mod statement;
mod table;
mod targets;
mod text;
mod token;

pub use bytes::{has_tokens, is_line};
pub use cutting::tokens;
pub use heading::{Heading, heading_of};
pub use line::{Line, line_of};
pub use number::number_up_to;
pub use token::{Token, Tokens};
