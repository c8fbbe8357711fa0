ghost use Rattle.std.specs.Prelude.{◌≡◌};
ghost use Rattle.dill_base.specs.Moments.{at_entry, is_passed};

/// The greatest moment that a deadline after a while can be set to, in milliseconds.
const LAST: u64 = 9_223_372_036_854_775_807;

/// Until when a call may wait, in milliseconds since the start: never passed, a moment, or so long after the call's entry.
#[derive(Clone, Copy, Debug, PartialEq, Eq)]
pub enum Deadline {
    Never,
    At(u64),
    After(u64),
}

impl Deadline {
    /// The deadline of a call that is entered at this moment.
    pub fn entered(self, moment: u64) -> Deadline
        ensures { result ≡ at_entry moment self }
    {
        match self {
            Deadline::After(wait) => Deadline::At(moment.saturating_add(wait).min(LAST)),
            other => other,
        }
    }

    /// Whether a call that was entered with it has waited long enough. One after a while counts from its entry, so it is not passed.
    pub fn has_passed(self, moment: u64) -> bool
        ensures { result ≡ is_passed moment self }
    {
        match self {
            Deadline::At(due) => due <= moment,
            _ => false,
        }
    }
}
