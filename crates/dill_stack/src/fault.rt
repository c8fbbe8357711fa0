use dill_base::Errno;
use thiserror::Error;

/// Why a call on a stack was not done. It changed nothing.
#[derive(Clone, Copy, Debug, PartialEq, Eq, Error)]
pub enum StackFault {
    /// A layer, or the state of a direction, refuses it.
    #[error("refused")]
    Refused(Errno),
    #[error("want of memory")]
    NoMemory,
}
