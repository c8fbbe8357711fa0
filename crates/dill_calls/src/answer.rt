use dill_base::{Errno, Octets};

/// What a call answers. Each call has one form of answer, and each may answer a fault.
#[derive(Debug, Drop)]
pub enum Answer {
    Number(u64),
    Pair(u64, u64),
    Bytes(Octets),
    Two(Octets, Octets),
    Coded(u32, Octets),
    /// The clause that was done, counted from 0, its fault if it had one, and the bytes that it received.
    Chosen {
        index: u32,
        fault: Option<Errno>,
        bytes: Option<Octets>,
    },
    Fault(Errno),
}
