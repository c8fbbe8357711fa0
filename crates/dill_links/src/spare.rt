ghost use Rattle.std.specs.Prelude.{◌≡◌};
ghost use Rattle.dill_stack.specs.Rooms.{made};

use dill_base::NoMemory;
use dill_stack::Stack;
use std::alloc::Global;
use std::marker::Model;

/// A stack as it is made, for a link to come.
#[derive(Drop)]
pub(crate) struct Spare {
    stack: Stack,
}

impl Model for Spare {
    ghost use Rattle.std.specs.Prelude.{◌≡◌};
    ghost use Rattle.dill_stack.specs.Rooms.{made};

    ghost Value = { Unit {0} };

    ghost view = { λ s. tt };

    ghost invariant = { λ s. s.stack ≡ made };
}

impl Spare {
    pub(crate) fn new(alloc: Global) -> Result<Spare, NoMemory> {
        let stack = Stack::new(alloc)?;
        Ok(Spare { stack })
    }

    /// The stack itself.
    pub(crate) fn into_stack(self) -> Stack
        ensures { result ≡ made }
    {
        self.stack
    }
}
