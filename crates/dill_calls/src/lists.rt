use dill_base::{Octets, Sequence};

/// An argument of a new coroutine: a number that it is shown, or a handle that it is given.
#[derive(Clone, Copy, Debug, PartialEq, Eq)]
pub enum Arg {
    Show(u64),
    Give(u64),
}

/// The arguments of a new coroutine, in their order.
pub type Args = Sequence<Arg>;

/// A clause of a choice: to send an item at a channel end, or to receive one of so many bytes there.
#[derive(Debug, Drop)]
pub enum Clause {
    Send(u64, Octets),
    Recv(u64, u64),
}

/// The clauses of a choice, in their order.
pub type Clauses = Sequence<Clause>;
