use crate::{Bytes, Dest, Form, Num};
use dill_base::Errno;

/// How two numbers compare: `=`, `!=`, `<`, `<=`, `>` or `>=`.
#[derive(Clone, Copy, Debug, PartialEq, Eq)]
pub enum Relation {
    Equal,
    Unequal,
    Less,
    AtMost,
    Greater,
    AtLeast,
}

/// What an `if` asks: of a number register, of a byte register, or of `err`, where `none` is no errno.
#[derive(Debug, Drop)]
pub enum Cond {
    Number(u8, Relation, Num),
    Same(u8, Bytes),
    Differs(u8, Bytes),
    Err(Option<Errno>),
}

/// One line of a program. A block is the lines from its first to its `end`; registers are told by their numbers, 0 to 15.
#[derive(Debug, Drop)]
pub enum Statement {
    /// `set` of a number register.
    Set(u8, Num),
    Add(u8, Num),
    Sub(u8, Num),
    /// A number register, and the byte register whose length it gets.
    Len(u8, u8),
    If(Cond),
    Else,
    /// The `end` of an `if`.
    EndIf,
    /// How many rounds, or without end.
    Loop(Option<Num>),
    /// The `end` of a `loop`.
    EndLoop,
    Break,
    Return,
    Fail(Errno),
    Finally,
    /// `set` of a byte register.
    Keep {
        tried: bool,
        register: u8,
        bytes: Bytes,
    },
    Join {
        tried: bool,
        register: u8,
        bytes: Bytes,
    },
    Call {
        tried: bool,
        dest: Option<Dest>,
        form: Form,
    },
}
