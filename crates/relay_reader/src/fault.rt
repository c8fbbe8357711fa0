ghost use Rattle.std.specs.Prelude.{◌≡◌};
ghost use Rattle.relay_reader.specs.Telling.{refusal_at};

use dill_script::{Reason, Refusal};

/// Why a line was not taken in: a reason against it, or want of memory.
#[derive(Clone, Copy, Debug, PartialEq, Eq)]
pub(crate) enum Fault {
    Against(Reason),
    NoMemory,
}

impl Fault {
    /// The refusal of a script for the line of this number.
    pub(crate) fn at(self, line: u32) -> Refusal
        ensures { result ≡ refusal_at line self }
    {
        match self {
            Fault::Against(reason) => Refusal::At { line, reason },
            Fault::NoMemory => Refusal::NoMemory,
        }
    }
}
