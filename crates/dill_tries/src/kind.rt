ghost use Rattle.std.specs.Prelude.{◌≡◌};
ghost use Rattle.dill_tries.specs.Dues.{number_of};

/// The kinds of asks, in the order of a round.
#[derive(Clone, Copy, Debug, PartialEq, Eq)]
pub(crate) enum Kind {
    Close,
    Listen,
    Connect,
    Finish,
    Accept,
    Write,
    Shut,
    Read,
}

impl Kind {
    /// The number of a kind, from 1.
    pub(crate) fn number(self) -> u64
        ensures { result ≡ number_of self }
    {
        match self {
            Kind::Close => 1,
            Kind::Listen => 2,
            Kind::Connect => 3,
            Kind::Finish => 4,
            Kind::Accept => 5,
            Kind::Write => 6,
            Kind::Shut => 7,
            Kind::Read => 8,
        }
    }
}
