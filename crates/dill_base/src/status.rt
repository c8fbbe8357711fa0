ghost use Rattle.std.specs.Prelude.{◌≡◌};
ghost use Rattle.dill_base.specs.Statuses.{code_of};

/// What the program ends with, from 0 to 9.
#[derive(Clone, Copy, Debug, PartialEq, Eq)]
pub enum Status {
    /// `main` ended well, or the canonical text was written.
    Well,
    /// `main` ended with an errno.
    Fault,
    /// The arguments were refused.
    Words,
    /// Want of memory before anything ran.
    Memory,
    /// The script was refused.
    Script,
    /// The script was not read.
    Shelf,
    /// Output was not written.
    Sink,
    /// Turns and rounds reached the budget.
    Spent,
    /// Nobody could go on.
    Stuck,
    /// A wait failed.
    Wait,
}

impl Status {
    /// The exit status that it is.
    pub fn code(self) -> u8
        ensures { result ≡ code_of self }
    {
        match self {
            Status::Well => 0,
            Status::Fault => 1,
            Status::Words => 2,
            Status::Memory => 3,
            Status::Script => 4,
            Status::Shelf => 5,
            Status::Sink => 6,
            Status::Spent => 7,
            Status::Stuck => 8,
            Status::Wait => 9,
        }
    }
}

/// An IPv4 address, its first byte first, and a port.
#[derive(Clone, Copy, Debug, PartialEq, Eq)]
pub struct Address {
    pub ip: [u8; 4],
    pub port: u16,
}
