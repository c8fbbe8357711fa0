use thiserror::Error;

/// Why no more handles are kept: there are too many of them or no number is left, or memory is short.
#[derive(Clone, Copy, Debug, Error, PartialEq, Eq)]
pub enum HandleFault {
    #[error("no more handles can be kept")]
    Full,
    #[error("out of memory")]
    NoMemory,
}
