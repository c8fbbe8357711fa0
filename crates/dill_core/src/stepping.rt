ghost use Rattle.std.specs.Prelude.{◌≡◌, ◌≤◌, length};
ghost use Rattle.std.specs.List.Sorted.{IsNonDecreasingBy};
ghost use Rattle.dill_rules.specs.Waiting as waits;
ghost use Rattle.dill_core.specs.Placing.{AreUpTo};

use crate::Core;
use dill_base::Errno;
use dill_calls::{Note, Ran, Word};
use dill_drive::{Ask, Reply, Stepper};
use dill_kernel::{Limit, ReadyList};
use dill_plain::PlainBody;
use dill_steps::{least_due, waiting_from};
use dill_world::Row;
use laws_debt::root_debt_falls;
use rand_core::Rng;

/// Until a moment in milliseconds, or for ever where there is none.
fn until(due: Option<u64>) -> Limit
    ensures { result ≡ waits.until due }
{
    match due {
        None => Limit::Forever,
        Some(due) => Limit::Until(due),
    }
}

/// How many coroutines of a list by rising number have this number or a lower one.
fn place_behind<B>(coroutines: &[Row<B>], number: u64) -> usize
    requires { IsNonDecreasingBy (λ c. c.number) coroutines.now }
    ensures within { result ≤ length coroutines.now }
    ensures low { AreUpTo number coroutines.now result }
{
    coroutines.partition_point(|c| c.number() <= number)
}

impl<B: PlainBody> Stepper for Core<B> {
    ghost use Rattle.std.specs.Prelude.{[]};
    ghost use Rattle.dill_core.specs.Ending.{IsEnding, owed};
    ghost use Rattle.dill_core.specs.CoreMachine.{core_machine};

    ghost means = { core_machine B.means };

    ghost closed = { IsEnding B.means };

    ghost owed = { owed B.means };

    ghost tries = { λ h. 0 };

    ghost offers = { λ h. [] };

    ghost goes_on = { λ h closed going. closed.goes_on going };

    fn ended(&self) -> Option<Option<Errno>> {
        self.world.ended()
    }

    fn is_answered(&self) -> bool {
        !self.ready.is_empty()
    }

    fn is_stuck(&self) -> bool {
        if self.is_answered() {
            return false;
        }
        least_due(&self.world).is_none()
    }

    fn limit(&self) -> Limit {
        if self.is_answered() {
            return Limit::NoWait;
        }
        until(least_due(&self.world))
    }

    fn woke(&mut self, moment: u64, _ready: &ReadyList) {
        self.wake(moment);
    }

    fn next_try(&self) -> Option<Ask> {
        None
    }

    fn offered(&self) -> &[u8] {
        &[]
    }

    /// Nothing is ever asked, so no reply comes.
    fn hear<R: Rng>(&mut self, _reply: Reply<'_>, _keys: &mut R) {}

    fn expire(&mut self) {
        self.expire_all();
    }

    /// Gives who is queued first its answer, and runs its program on to its next call or its end.
    fn turn<R: Rng>(&mut self, _keys: &mut R) -> Ran {
        root_debt_falls::<B>();
        self.turn_first()
    }

    fn shut(&mut self) {
        root_debt_falls::<B>();
        self.close_root();
    }

    fn notes(&self) -> &[Note] {
        self.world.notes()
    }

    fn waiting(&self, after: u64) -> Option<(u64, Word)> {
        let place = place_behind(self.world.coroutines(), after);
        waiting_from(&self.world, place, after)
    }

    fn made(&self) -> u64 {
        self.world.handles().last()
    }

    fn gone(&self) -> u64 {
        let handles = self.world.handles();
        handles.last().saturating_sub(handles.len() as u64)
    }
}
