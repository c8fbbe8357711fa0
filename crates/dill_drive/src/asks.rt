use dill_base::Address;
use dill_kernel::KernelFault;

/// What a core asks of the kernel, links by their numbers: to let one go; to make a listener of an address and a backlog;
/// to make one that begins to connect to an address, and whether it is connected; to make one of the listener's next
/// connection; to take the bytes that are offered; to end what is sent; and to read at most 4,096 bytes.
#[derive(Clone, Copy, Debug, PartialEq, Eq)]
pub enum Ask {
    Close(u64),
    Listen(u64, Address, u32),
    Connect(u64, Address),
    Finish(u64),
    Accept(u64, u64),
    Write(u64),
    Shut(u64),
    Read(u64),
}

/// What the kernel replied: that it is done, or not yet; the bytes that came, how many it took; the peer's end, or a fault.
#[derive(Clone, Copy, Debug)]
pub enum Reply<'a> {
    Done,
    NotYet,
    Came(&'a [u8]),
    Took(usize),
    End,
    Failed(KernelFault),
}
