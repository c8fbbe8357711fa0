use crate::Statement;
use dill_base::{Octets, Sequence};

/// The statements of a program, in the order of its lines, without the `end` that ends it.
pub type Statements = Sequence<Statement>;

/// A program: its name of 1 to 32 bytes, how many arguments it takes, 0 to 16, and its statements.
#[derive(Debug, Drop)]
pub struct Program {
    pub name: Octets,
    pub params: u8,
    pub statements: Statements,
}

/// The programs of a script, in the order of its text. A program's number is its place, from 0.
pub type Script = Sequence<Program>;
