use dill_base::Octets;

/// An end of a channel that is live, the channel's other end, and whether its sending direction is done.
#[derive(Clone, Copy, Debug, PartialEq, Eq)]
pub struct End {
    pub name: u64,
    pub other: u64,
    pub done: bool,
}

/// What is to be done at an end: to send an item, or to receive one of so many bytes.
#[derive(Drop)]
pub enum Want {
    Send(Octets),
    Recv(u64),
}

/// A clause that waits at an end. A plain send or receive is one clause, of number 0.
#[derive(Drop)]
pub struct Wait {
    pub who: u64,
    pub clause: u8,
    pub end: u64,
    pub want: Want,
}
