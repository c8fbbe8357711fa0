use crate::{Bytes, Mode, Num, Order, Role, Wait};
use dill_base::{Address, Octets, Sequence};
use dill_calls::Word;

/// What may stand as one operand of a call.
#[derive(Clone, Copy, Debug, PartialEq, Eq)]
pub enum Kind {
    Num,
    Bytes,
    Wait,
    Address,
    Program,
    Order,
    Mode,
    Role,
}

/// What may stand behind the operands that a call always has.
#[derive(Clone, Copy, Debug, PartialEq, Eq)]
pub enum Rest {
    Nothing,
    /// 1 to 16 of bytes and number registers.
    Items,
    /// Numbers that a coroutine is shown, and `give` with a register for those that it is given.
    Args,
    /// `send`, an end and an item, or `recv`, an end and a size.
    Clauses,
}

/// An operand of a call. A program is called by its name, of 1 to 32 bytes.
#[derive(Debug, Drop)]
pub enum Operand {
    Num(Num),
    Bytes(Bytes),
    Wait(Wait),
    Address(Address),
    Program(Octets),
    Order(Order),
    Mode(Mode),
    Role(Role),
    /// The handle in that register goes to the new coroutine.
    Give(u8),
    /// End, item.
    Send(Num, Bytes),
    /// End, size in bytes.
    Recv(Num, Num),
}

/// The operands of a call, in their order.
pub type Operands = Sequence<Operand>;

/// A call as it is written: its word, and operands that are still to be evaluated.
#[derive(Debug, Drop)]
pub struct Form {
    pub word: Word,
    pub operands: Operands,
}
