use dill_base::Octets;

/// A number of a statement: written out, at most 9223372036854775807, or in a register `n0` to `n15`.
#[derive(Clone, Copy, Debug, PartialEq, Eq)]
pub enum Num {
    Literal(u64),
    Register(u8),
}

/// Bytes of a statement: written out as a text, or in a register `b0` to `b15`.
#[derive(Debug, Drop)]
pub enum Bytes {
    Literal(Octets),
    Register(u8),
}

/// Until when a call may wait, in milliseconds: `-1`, a moment, or `+` and how long from its entry on.
#[derive(Clone, Copy, Debug, PartialEq, Eq)]
pub enum Wait {
    Never,
    At(Num),
    After(Num),
}

/// The registers that an answer is put in, by its form. The first of a pair is put first.
#[derive(Clone, Copy, Debug, PartialEq, Eq)]
pub enum Dest {
    Number(u8),
    Pair(u8, u8),
    Bytes(u8),
    Two(u8, u8),
    /// A number register and a byte register.
    Mixed(u8, u8),
}

/// How a length is written: the word `big` or `little`.
#[derive(Clone, Copy, Debug, PartialEq, Eq)]
pub enum Order {
    Big,
    Little,
}

/// What the messages of a WebSocket are: the word `text` or `binary`.
#[derive(Clone, Copy, Debug, PartialEq, Eq)]
pub enum Mode {
    Text,
    Binary,
}

/// Which side of a WebSocket it is: the word `client` or `server`.
#[derive(Clone, Copy, Debug, PartialEq, Eq)]
pub enum Role {
    Client,
    Server,
}
