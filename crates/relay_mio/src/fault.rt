ghost use Rattle.std.specs.Prelude.{◌≡◌, true, false, not};
ghost use Rattle.std.specs.IoError.{error_kind};
ghost use Rattle.dill_kernel.specs.Entry.{is_want};
ghost use Rattle.relay_mio.specs.Faults.{making_fault, plain_fault};

use dill_kernel::KernelFault;
use std::io;
use std::io::ErrorKind;

/// What an error of the system is where a link is to be made.
pub fn making_fault_of(error: &io::Error) -> KernelFault
    ensures { result ≡ making_fault (error_kind error.now) }
{
    match error.kind() {
        ErrorKind::ConnectionRefused => KernelFault::Refused,
        ErrorKind::AddrInUse => KernelFault::InUse,
        ErrorKind::ConnectionReset | ErrorKind::ConnectionAborted | ErrorKind::BrokenPipe => {
            KernelFault::Reset
        }
        ErrorKind::OutOfMemory => KernelFault::NoMemory,
        _ => KernelFault::Other,
    }
}

/// The same for a call that makes no link, which tells no want of memory.
pub fn plain_fault_of(error: &io::Error) -> KernelFault
    ensures fault { result ≡ plain_fault (error_kind error.now) }
    ensures want { is_want result ≡ false }
{
    match making_fault_of(error) {
        KernelFault::NoMemory => KernelFault::Other,
        fault => fault,
    }
}
