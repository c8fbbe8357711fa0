ghost use Rattle.std.specs.Prelude.{◌≡◌, ◌<◌, ◌∷◌, [], length};
ghost use Rattle.dill_meaning.specs.Effects.{outside, has_round, one_less};
ghost use Rattle.relay_body.specs.Stacks.{first_of, round_less};

use std::marker::Model;

/// A loop that is entered: how many statements stand before its first, and how many rounds are to come behind this one,
/// none of a loop without end.
#[derive(Clone, Copy)]
pub(crate) struct OpenLoop {
    first: usize,
    left: Option<u64>,
}

/// How deep loops nest in a script at most.
const DEEPEST: usize = 4;

/// The loops that are entered, in four slots: those from `from` on hold them, innermost first.
#[derive(Drop)]
pub(crate) struct Rounds {
    slots: [OpenLoop; DEEPEST],
    from: usize,
}

impl Model for Rounds {
    ghost use Rattle.std.specs.Prelude.{◌≤◌, List, drop, map};
    ghost use Rattle.dill_meaning.specs.Views.{Round};
    ghost use Rattle.relay_body.specs.Stacks.{round_of};

    ghost Value = { List Round };

    ghost view = { λ r. map round_of (drop r.from r.slots) };

    ghost invariant = { λ r. r.from ≤ 4 };
}

impl Rounds {
    /// No loop is entered.
    pub(crate) fn new() -> Rounds
        ensures { result ≡ [] }
    {
        Rounds {
            slots: [OpenLoop {
                first: 0,
                left: None,
            }; DEEPEST],
            from: DEEPEST,
        }
    }

    /// Opens a loop inside the others.
    pub(crate) fn open(&mut self, first: usize, left: Option<u64>)
        requires { length self.old < 4 }
        ensures { self.new ≡ record { first = first; left = left } ∷ self.old }
    {
        self.from -= 1;
        self.slots[self.from] = OpenLoop { first, left };
    }

    /// Leaves the innermost loop.
    pub(crate) fn close(&mut self)
        ensures { self.new ≡ outside self.old }
    {
        if self.from < self.slots.len() {
            self.from += 1;
        }
    }

    /// Leaves all loops.
    pub(crate) fn clear(&mut self)
        ensures { self.new ≡ [] }
    {
        self.from = self.slots.len();
    }

    /// Whether the innermost loop has a round left.
    pub(crate) fn has_round(&self) -> bool
        ensures { result ≡ has_round self.now }
    {
        match self.slots.get(self.from) {
            Some(slot) => match slot.left {
                Some(left) => 0 < left,
                None => true,
            },
            None => false,
        }
    }

    /// Begins the next round of the innermost loop, and answers how many statements stand before its first.
    pub(crate) fn again(&mut self) -> Option<usize>
        ensures first { result ≡ first_of self.old }
        ensures after { self.new ≡ round_less self.old }
    {
        if self.from == self.slots.len() {
            return None;
        }
        let slot = self.slots[self.from];
        self.slots[self.from] = OpenLoop {
            first: slot.first,
            left: one_less(slot.left),
        };
        Some(slot.first)
    }
}

/// A round less to come.
fn one_less(left: Option<u64>) -> Option<u64>
    ensures { result ≡ one_less left }
{
    match left {
        Some(left) => Some(left.saturating_sub(1)),
        None => None,
    }
}
