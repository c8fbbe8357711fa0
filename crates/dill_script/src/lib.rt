//! Scripts: their statements, the text that spells them, and what is wrong with a text that spells none.
//! It runs nothing: what the statements do stands above it.
#![tactic(auto)]

mod form;
mod laws;
mod line;
mod operand;
mod refusal;
mod rows;
mod script;
mod statement;

pub use form::{Form, Kind, Operand, Operands, Rest};
pub use laws::script_laws;
pub use line::{Block, Keyword, Register};
pub use operand::{Bytes, Dest, Mode, Num, Order, Role, Wait};
pub use refusal::{Reason, Refusal};
pub use rows::{
    built_rows, byte_rows, canonical_rows, channel_rows, first_line_rows, form_rows, last_rows,
    limit_rows, operand_rows, place_rows, read_rows, relay_rows, script_rows, token_rows,
    whole_rows,
};
pub use script::{Program, Script, Statements};
pub use statement::{Cond, Relation, Statement};
