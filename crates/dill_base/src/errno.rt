ghost use Rattle.std.specs.Prelude.{◌≡◌, ◌≤◌, length};
ghost use Rattle.dill_base.specs.Errnos.{errno_text};

use thiserror::Error;

/// A call of the outside failed. What it was is not known here.
#[derive(Clone, Copy, Debug, PartialEq, Eq, Error)]
#[error("a call of the outside failed")]
pub struct Failed;

/// Want of memory.
#[derive(Clone, Copy, Debug, PartialEq, Eq, Error)]
#[error("want of memory")]
pub struct NoMemory;

/// Why a call was refused, under libdill's names.
#[derive(Clone, Copy, Debug, PartialEq, Eq)]
pub enum Errno {
    Ebadf,
    Enotsup,
    Einval,
    Ebusy,
    Epipe,
    Econnreset,
    Emsgsize,
    Emfile,
    Enomem,
    Ecanceled,
    Etimedout,
    Eproto,
    Econnrefused,
    Eaddrinuse,
    Eaddrnotavail,
    Ehostunreach,
}

impl Errno {
    /// Its name, as `EBADF`.
    pub fn name(self) -> &'static [u8]
        ensures text { result.now ≡ errno_text self }
        ensures len { length result.now ≤ 13 }
    {
        match self {
            Errno::Ebadf => b"EBADF",
            Errno::Enotsup => b"ENOTSUP",
            Errno::Einval => b"EINVAL",
            Errno::Ebusy => b"EBUSY",
            Errno::Epipe => b"EPIPE",
            Errno::Econnreset => b"ECONNRESET",
            Errno::Emsgsize => b"EMSGSIZE",
            Errno::Emfile => b"EMFILE",
            Errno::Enomem => b"ENOMEM",
            Errno::Ecanceled => b"ECANCELED",
            Errno::Etimedout => b"ETIMEDOUT",
            Errno::Eproto => b"EPROTO",
            Errno::Econnrefused => b"ECONNREFUSED",
            Errno::Eaddrinuse => b"EADDRINUSE",
            Errno::Eaddrnotavail => b"EADDRNOTAVAIL",
            Errno::Ehostunreach => b"EHOSTUNREACH",
        }
    }
}

/// What stands at the front of some bytes: an item from `from` to `to` whose spelling takes the first `used` of them,
/// too little to judge yet, or a refusal.
#[derive(Clone, Copy, Debug, PartialEq, Eq)]
pub enum Front {
    Whole { from: usize, to: usize, used: usize },
    Need,
    Fault(Errno),
}

/// Why an item wasn't written.
#[derive(Clone, Copy, Debug, PartialEq, Eq, Error)]
pub enum WriteFault {
    /// It has no spelling.
    #[error("refused")]
    Refused(Errno),
    #[error("want of memory")]
    NoMemory,
}
