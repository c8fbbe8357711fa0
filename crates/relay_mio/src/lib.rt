//! The kernel over real sockets of TCP, by the kit's `mio`. It tells nothing of what the system does; its count of faults
//! is proved.
//!
//! What an error of the system is to the caller of a kernel:
//!
//! | error | fault |
//! |---|---|
//! | ECONNREFUSED | `Refused` |
//! | EADDRINUSE | `InUse` |
//! | ECONNRESET, ECONNABORTED, EPIPE | `Reset` |
//! | ENOMEM, or no memory of the program's own, in `listen`, `connect` and `accept` | `NoMemory` |
//! | ENOMEM in any other call, EMFILE, ENFILE and every other error | `Other` |
//!
//! A write that takes nothing of a piece that isn't empty is `Failed(Other)`. So is a call that names a link that isn't
//! there or is of another sort than the call needs, or that is to make one that is there.
#![tactic(auto)]

mod calls;
mod fault;
mod kernel;
mod links;

pub use kernel::MioKernel;
