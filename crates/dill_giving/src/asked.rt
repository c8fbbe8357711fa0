ghost use Rattle.std.specs.Prelude.{◌≡◌};
ghost use Rattle.dill_giving.specs.Asking.{asked_of, closed_by};

use dill_calls::{Call, Word};
use dill_world::draws_of;

/// What an answer needs of the pending call that it is given to, which stands in the world that changes: its word, the handle that
/// it names, the number that died by an `hclose`, and how many numbers are kept for it.
#[derive(Clone, Copy, Debug, PartialEq, Eq)]
pub struct Asked {
    pub word: Word,
    pub handle: Option<u64>,
    pub closed: Option<u64>,
    pub draws: usize,
}

/// The number that died by an `hclose`.
fn closed_by(call: &Call) -> Option<u64>
    ensures { result ≡ closed_by call.now }
{
    match call {
        Call::Hclose(number) => Some(*number),
        _ => None,
    }
}

impl Asked {
    /// What an answer of this call needs.
    pub fn of(call: &Call) -> Asked
        ensures { result ≡ asked_of call.now }
    {
        Asked {
            word: call.word(),
            handle: call.handle(),
            closed: closed_by(call),
            draws: draws_of(call),
        }
    }
}
