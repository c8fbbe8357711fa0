ghost use Rattle.std.specs.Prelude.{◌≡◌};
ghost use Rattle.relay_command.specs.Arguments.{number_within};

use crate::value::number_within;

/// What is done with the script.
#[derive(Clone, Copy, Debug, PartialEq, Eq)]
pub enum Mode {
    Run,
    Trace,
    Check,
    Load,
}

/// Which network is below it: the real one, or the one in memory.
#[derive(Clone, Copy, Debug, PartialEq, Eq)]
pub enum Net {
    Real,
    Loop,
}

/// What is to be done. `turns` bounds turns and rounds, and `cut` is how many bytes a read of the network in memory
/// gives at most. A load names how many clients there are in place of a script.
#[derive(Clone, Copy, Debug, PartialEq, Eq)]
pub struct Command<'a> {
    pub mode: Mode,
    pub net: Net,
    pub turns: u64,
    pub cut: u64,
    pub script: &'a str,
}

impl Command<'_> {
    /// How many clients a load has: 1 to 10,000.
    pub fn clients(&self) -> Option<u64>
        ensures { result ≡ number_within 1 10000 self.now.script.now }
    {
        number_within(1, 10_000, self.script.as_bytes())
    }
}
