use crate::{Answer, Word};
use dill_base::{Errno, Octets};

/// What became of a handle number: its thing has another number now, or was released.
#[derive(Clone, Copy, Debug, PartialEq, Eq)]
pub enum Note {
    Moved(u64, u64),
    Freed(u64),
}

/// Where a turn was refused memory: as its call was built, or at the entry of that call.
#[derive(Clone, Copy, Debug, PartialEq, Eq)]
pub enum LackPlace {
    Build,
    Entry,
}

/// One turn: who was given which answer to the call of which word, where it was refused memory if it was,
/// how its program ended if it did, and the text of the `print` that it enters.
#[derive(Debug, Drop)]
pub struct Ran {
    pub who: u64,
    pub word: Word,
    pub given: Answer,
    pub lack: Option<LackPlace>,
    pub end: Option<Option<Errno>>,
    pub text: Option<Octets>,
}

/// How many handle numbers were given, how many of them are dead, and how often memory was refused.
/// The last count stands still at its type's end.
#[derive(Clone, Copy, Debug, PartialEq, Eq)]
pub struct Counts {
    pub made: u64,
    pub gone: u64,
    pub lacks: u64,
}
