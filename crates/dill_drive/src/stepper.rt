ghost use Rattle.std.specs.Prelude.{◌≡◌, ◌<◌, ◌≤◌, ◌^◌, ℕ, List, None, true, option_map, IfSome};
ghost use Rattle.dill_drive.specs.Asks.{asks_for, IsOffered, said, fits_due, hear_due};
ghost use Rattle.dill_drive.specs.Machine.{Machine, may_be};
ghost use Rattle.dill_drive.specs.Waiting.{next_above, Rises};

use crate::{Ask, Reply};
use dill_base::Errno;
use dill_calls::{Note, Ran, Word};
use dill_kernel::{Limit, ReadyList};
use rand_core::Rng;

/// What a driver asks of a core, which holds the coroutines of a run: the steps of a machine, one after the other.
/// No step but a turn may be refused memory.
pub trait Stepper: Sized + Drop {
    /// What it does, by its views.
    ghost means: { Machine Self };

    /// The root was closed: until `main` has ended, somebody has an answer.
    ghost closed: { Self → Type 0 };

    /// How many turns may still come once the root was closed.
    ghost owed: { Self → ℕ };

    /// How many replies may still be heard before the next wait.
    ghost tries: { Self → ℕ };

    /// What is offered where a write is asked.
    ghost offers: { Self → List ℕ };

    /// How the program of `main` ended, if it has.
    fn ended(&self) -> Option<Option<Errno>>
        ensures { result ≡ means.ended self.now };

    /// Whether somebody has an answer.
    fn is_answered(&self) -> bool
        ensures { result ≡ means.answered self.now };

    /// Whether nobody can go on any more.
    fn is_stuck(&self) -> bool
        ensures { result ≡ means.stuck self.now };

    /// How long the next wait may last.
    fn limit(&self) -> Limit
        ensures { result ≡ means.limit self.now };

    /// A wait told this moment in milliseconds, and these links. A round begins.
    fn woke(&mut self, moment: u64, ready: &ReadyList)
        ensures { self.new ≡ means.woke self.old moment ready.now };

    /// What is asked next of the kernel in this round, or of what is still due once `main` has ended.
    fn next_try(&self) -> Option<Ask>
        ensures asks { means.next_try self.now ≡ option_map (λ ask. asks_for ask (offers self.now)) result }
        ensures offers { IfSome result (λ ask. IsOffered ask (offers self.now)) };

    /// The bytes of the write that is asked next.
    fn offered(&self) -> &[u8]
        ensures { result.now ≡ offers self.now };

    /// The reply to what is asked next, where it is one to that.
    fn hear<R: Rng>(&mut self, reply: Reply<'_>, keys: &mut R)
        ensures after { fits_due (means.next_try self.old) (said reply.entry) ≡ true → self.new ≡ (hear_due means self.old (said reply.entry) (R.stream keys.old)).0 }
        ensures random { fits_due (means.next_try self.old) (said reply.entry) ≡ true → R.stream keys.new ≡ (hear_due means self.old (said reply.entry) (R.stream keys.old)).1 }
        ensures fewer { fits_due (means.next_try self.old) (said reply.entry) ≡ true → tries self.new < tries self.old };

    /// The deadlines that have passed are answered.
    fn expire(&mut self)
        ensures { self.new ≡ means.expire self.old };

    /// The turn of the coroutine that was answered first.
    fn turn<R: Rng>(&mut self, keys: &mut R) -> Ran
        requires going { means.ended self.old ≡ None }
        requires answered { means.answered self.old ≡ true }
        ensures allowed { may_be means self.old result.lack ≡ true }
        ensures ran { result ≡ means.ran self.old result.lack }
        ensures after { self.new ≡ (means.turn self.old result.lack (R.stream keys.old)).0 }
        ensures random { R.stream keys.new ≡ (means.turn self.old result.lack (R.stream keys.old)).1 }
        ensures closed { closed self.old → closed self.new }
        ensures fewer { closed self.old → owed self.new < owed self.old };

    /// The root bundle is closed: everybody is cancelled.
    fn shut(&mut self)
        ensures after { self.new ≡ means.shut self.old }
        ensures closed { closed self.new }
        ensures few { owed self.new ≤ 2 ^ 48 };

    /// What became of handles in the last step, in order.
    fn notes(&self) -> &[Note]
        ensures { result.now ≡ means.notes self.now };

    /// The least coroutine above a number that waits, and its call. Coroutines have numbers from 1.
    fn waiting(&self, after: u64) -> Option<(u64, Word)>
        ensures value { result ≡ next_above after (means.waiting self.now) }
        ensures rises { Rises 0 (means.waiting self.now) };

    /// How many handle numbers were given.
    fn made(&self) -> u64
        ensures { result ≡ means.made self.now };

    /// How many of them are dead.
    fn gone(&self) -> u64
        ensures { result ≡ means.gone self.now };

    ghost goes_on: { (s : Self) → closed s → means.ended s ≡ None → means.answered s ≡ true };
}
