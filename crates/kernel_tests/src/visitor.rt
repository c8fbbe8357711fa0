ghost use Rattle.std.specs.Prelude.{◌≡◌};

use dill_base::{Address, Errno};
use dill_calls::{Answer, Note, Ran, Word};
use dill_drive::{Ask, Reply, Stepper};
use dill_kernel::{Limit, ReadyList};
use rand_core::Rng;
use std::marker::Model;

const HOME: Address = Address {
    ip: [127, 0, 0, 1],
    port: 7000,
};

/// Makes a listener and a link, writes and reads, and lets both go.
#[derive(Drop)]
pub struct Visitor {
    heard: u8,
}

impl Model for Visitor {
    ghost use Rattle.std.specs.Prelude.{ℕ, ◌≤◌};

    ghost Value = { ℕ };

    ghost view = { λ v. v.heard };

    ghost invariant = { λ v. v.heard ≤ 6 };
}

impl Visitor {
    pub fn new() -> Visitor
        ensures { result ≡ 0 }
    {
        Visitor { heard: 0 }
    }
}

impl Stepper for Visitor {
    ghost use Rattle.std.specs.Prelude.{◌≡◌, ◌-◌, Some, None};
    ghost use Rattle.kernel_tests.specs.Visitor.{visitor, greeting, ended_after, rests};

    ghost means = { visitor };

    ghost closed = { λ s. ended_after s ≡ Some None };

    ghost owed = { λ s. 0 };

    ghost tries = { λ s. 6 - s };

    ghost offers = { λ s. greeting };

    ghost goes_on = { λ s closed going. rests s closed going };

    fn ended(&self) -> Option<Option<Errno>> {
        if 4 <= self.heard {
            return Some(None);
        }
        None
    }

    fn is_answered(&self) -> bool {
        self.heard == 3
    }

    fn is_stuck(&self) -> bool {
        false
    }

    fn limit(&self) -> Limit {
        Limit::NoWait
    }

    fn woke(&mut self, _moment: u64, _ready: &ReadyList) {}

    fn next_try(&self) -> Option<Ask> {
        match self.heard {
            0 => Some(Ask::Listen(1, HOME, 16)),
            1 => Some(Ask::Connect(2, HOME)),
            2 => Some(Ask::Write(2)),
            3 => Some(Ask::Read(2)),
            4 => Some(Ask::Close(1)),
            5 => Some(Ask::Close(2)),
            _ => None,
        }
    }

    fn offered(&self) -> &[u8] {
        b"hi"
    }

    fn hear<R: Rng>(&mut self, _reply: Reply<'_>, _keys: &mut R) {
        if self.heard < 6 {
            self.heard += 1;
        }
    }

    fn expire(&mut self) {}

    fn turn<R: Rng>(&mut self, _keys: &mut R) -> Ran {
        Ran {
            who: 0,
            word: Word::Start,
            given: Answer::Number(0),
            lack: None,
            end: None,
            text: None,
        }
    }

    fn shut(&mut self) {
        self.heard = 6;
    }

    fn notes(&self) -> &[Note] {
        &[]
    }

    fn waiting(&self, _after: u64) -> Option<(u64, Word)> {
        None
    }

    fn made(&self) -> u64 {
        0
    }

    fn gone(&self) -> u64 {
        0
    }
}
