ghost use Rattle.std.specs.Prelude.{◌≡◌, ◌<◌};
ghost use Rattle.ticker.specs.Ticking.{starting};

use dill_base::{Deadline, NoMemory};
use dill_calls::{Answer, Body, Call, Next};
use dill_plain::PlainBody;
use std::marker::Model;

/// Sleeps so many times, 10 milliseconds each, and ends. An errno ends it early.
#[derive(Drop)]
pub struct Ticker {
    to_come: u32,
    all: u32,
    begun: bool,
}

impl Model for Ticker {
    ghost use Rattle.std.specs.Prelude.{◌≤◌, ◌<◌};
    ghost use Rattle.ticker.specs.Ticking.{View};

    ghost Value = { View };

    ghost view = { λ t. record { to_come = t.to_come; all = t.all; begun = t.begun } };

    ghost invariant = { λ t. (t.to_come ≤ t.all) × (t.all < 4294967295) };
}

impl Ticker {
    /// Before its first turn.
    pub fn new(times: u32) -> Ticker
        requires { times < 4294967295 }
        ensures { result ≡ starting times }
    {
        Ticker {
            to_come: times,
            all: times,
            begun: false,
        }
    }
}

impl Body for Ticker {
    ghost use Rattle.ticker.specs.Ticking.{ticking, ticking_is_lawful};

    ghost means = { ticking };

    ghost lawful = { ticking_is_lawful };

    fn turn(&mut self, given: Answer) -> Next {
        self.begun = true;
        if let Answer::Fault(errno) = given {
            return Next::End(Some(errno));
        }
        if self.to_come == 0 {
            return Next::End(None);
        }
        self.to_come -= 1;
        Next::Call(Call::Msleep(Deadline::After(10)))
    }

    /// Its own program is the only one, number 0, and takes no arguments.
    fn knows(&self, program: u32, args: usize) -> bool {
        program == 0 && args == 0
    }

    fn child(&self, _program: u32, _args: &[u64]) -> Result<Ticker, NoMemory> {
        Ok(Ticker::new(self.all))
    }

    fn left(&self) -> u64 {
        u64::from(self.to_come) + 1
    }

    fn most(&self) -> u64 {
        u64::from(self.all) + 1
    }
}

impl PlainBody for Ticker {
    ghost use Rattle.ticker.specs.Ticking.{ticking_is_plain};

    ghost plain = { ticking_is_plain };
}
