use dill_calls::Word;

/// The keyword of a line, which says what the line is.
#[derive(Clone, Copy, Debug, PartialEq, Eq)]
pub enum Keyword {
    Program,
    Finally,
    Else,
    End,
    Set,
    Add,
    Sub,
    Len,
    If,
    Loop,
    Break,
    Return,
    Fail,
    Join,
    Call(Word),
}

/// A block that is open: a program before its `finally` or behind it, an `if` before its `else` or behind it, or a loop.
#[derive(Clone, Copy, Debug, PartialEq, Eq)]
pub enum Block {
    Program,
    Finally,
    If,
    Else,
    Loop,
}

/// A register: `n0` to `n15` for numbers, `b0` to `b15` for bytes.
#[derive(Clone, Copy, Debug, PartialEq, Eq)]
pub enum Register {
    Number(u8),
    Bytes(u8),
}
