ghost use Rattle.std.specs.Prelude.{◌≡◌, ◌+◌, ◌≤◌, ◌∷◌, [], List, ℕ, true, vec_capacity, IfOk, IfSome, max};
ghost use Rattle.dill_calls.specs.Program.{Begins};
ghost use Rattle.dill_kernel.specs.declared.ready.Ready.{Ready};
ghost use Rattle.dill_rules.specs.Expiring.{passed};
ghost use Rattle.dill_rules.specs.Settling as settling;
ghost use Rattle.dill_rules.specs.World as worlds;
ghost use Rattle.laws_queue.specs.Kept.{opening_kept, queued, has_answer, kept_turn, kept_ran, kept_expire_next, kept_expired, kept_shut, kept_woke};
ghost use Rattle.laws_debt.specs.Closing.{IsStable};
ghost use Rattle.dill_drive.specs.Machine.{may_be};
ghost use Rattle.laws_sound.specs.Laws.{is_timed};
ghost use Rattle.dill_steps.specs.Timing.{first_of};
ghost use Rattle.dill_world.specs.Store.{world_of};
ghost use Rattle.dill_core.specs.CoreMachine.{core_machine};
ghost use Rattle.dill_core.specs.Holding.{kept_of};

use dill_base::NoMemory;
use dill_calls::Ran;
use dill_plain::PlainBody;
use dill_steps::{expire_one, first_passed, passes_one_by_one, settle, turn};
use dill_world::World;
use laws_debt::steps_keep_stable;
use laws_queue::steps_keep_well;
use std::alloc::Global;
use std::marker::Model;

/// The coroutines of a run, of which those that have an answer are queued in the order in which they had it. `early` are
/// the first of these, who had it before the root began to close. The allocator serves the entries of calls alone.
#[derive(Drop)]
pub struct Core<B: PlainBody> {
    alloc: Global,
    pub(crate) world: World<B>,
    pub(crate) ready: Vec<u64>,
    pub(crate) early: usize,
}

impl<B: PlainBody> Model for Core<B> {
    ghost use Rattle.std.specs.Prelude.{vec_capacity};
    ghost use Rattle.dill_core.specs.Holding.{Holding, IsHeld};

    ghost Value = { Holding B };

    ghost view = { λ c. record { world = c.world; ready = c.ready.items; early = c.early } };

    ghost invariant = { λ c. IsHeld B.means (record { world = c.world; ready = c.ready.items; early = c.early }) (vec_capacity c.ready) };
}

/// A queue in which `main` alone stands.
fn first_queue(alloc: Global) -> Result<Vec<u64>, NoMemory>
    ensures items { IfOk result (λ ready. ready.items ≡ 1 ∷ []) }
    ensures room { IfOk result (λ ready. 1 ≤ vec_capacity ready) }
{
    let mut ready = Vec::new(alloc);
    match ready.push(1) {
        Ok(()) => Ok(ready),
        Err(_) => Err(NoMemory),
    }
}

/// Whether there is room for one more than so many, once it was asked for.
fn make_room(ready: &mut Vec<u64>, count: usize) -> bool
    ensures items { ready.new.items ≡ ready.old.items }
    ensures capacity { vec_capacity ready.old ≤ vec_capacity ready.new }
    ensures room { result ≡ true → count + 1 ≤ vec_capacity ready.new }
    ensures kept { count + 1 ≤ vec_capacity ready.old → result ≡ true }
{
    let more = count.saturating_sub(ready.len()).saturating_add(1);
    let _ = ready.reserve(more);
    count < ready.capacity()
}

impl<B: PlainBody> Core<B> {
    /// `main` is about to start, and nothing else is there.
    pub fn new(alloc: Global, body: B) -> Result<Core<B>, NoMemory>
        requires { Begins B.means body }
        ensures { IfOk result (λ core. kept_of core ≡ opening_kept body) }
    {
        steps_keep_stable::<B>();
        let world = World::new(alloc, body)?;
        let ready = first_queue(alloc)?;
        Ok(Core {
            alloc,
            world,
            ready,
            early: 0,
        })
    }

    /// A step begins.
    pub(crate) fn begin(&mut self)
        ensures { kept_of self.new ≡ record (kept_of self.old) { world = worlds.begin (kept_of self.old).world } }
    {
        steps_keep_stable::<B>();
        self.world.begin();
    }

    /// A wait told this moment, in milliseconds: the moment is the greatest that was told. No link is there that could be ready.
    pub(crate) fn wake(&mut self, told: u64)
        ensures { (ready : List Ready) → kept_of self.new ≡ kept_woke (kept_of self.old) told ready }
    {
        steps_keep_stable::<B>();
        let moment = self.world.moment().max(told);
        self.world.begin();
        self.world.restart();
        self.world.set_moment(moment);
    }

    /// What settles, and who is answered by that is queued.
    fn settle(&mut self)
        ensures { kept_of self.new ≡ queued (settling.settle (kept_of self.old).world) self.old.ready self.old.early }
    {
        steps_keep_well::<B>();
        steps_keep_stable::<B>();
        settle(&mut self.world);
        self.world.line_up(&mut self.ready);
    }

    /// A coroutine whose deadline has passed is answered and queued.
    fn expire_next(&mut self, who: u64)
        requires { is_timed (world_of self.old.world) who ≡ true }
        ensures after { kept_of self.new ≡ kept_expire_next (kept_of self.old) who }
        ensures rest { (rest : List ℕ) → passed (world_of self.old.world) ≡ who ∷ rest → passed (world_of self.new.world) ≡ rest }
    {
        steps_keep_well::<B>();
        steps_keep_stable::<B>();
        passes_one_by_one::<B>();
        let _ = self.world.coroutines();
        expire_one(&mut self.world, who);
        self.world.line_up(&mut self.ready);
    }

    /// The coroutine whose deadline is the first of those that have passed.
    fn first_passed(&self) -> Option<u64>
        ensures first { result ≡ first_of (passed (world_of self.now.world)) }
        ensures timed { IfSome result (λ who. is_timed (world_of self.now.world) who ≡ true) }
    {
        first_passed(&self.world)
    }

    /// Who has a passed deadline is answered and queued, one after the other, and behind them who is answered by what settles.
    pub(crate) fn expire_all(&mut self)
        ensures { kept_of self.new ≡ kept_expired (kept_of self.old) }
    {
        self.begin();
        while let Some(who) = self.first_passed() {
            self.expire_next(who);
        }
        self.settle();
    }

    /// The turn of who is queued first.
    pub(crate) fn turn_first(&mut self) -> Ran
        requires { has_answer self.old.ready ≡ true }
        ensures allowed { may_be (core_machine B.means) self.old result.lack ≡ true }
        ensures ran { result ≡ kept_ran B.means result.lack (kept_of self.old) }
        ensures after { kept_of self.new ≡ kept_turn B.means result.lack (kept_of self.old) }
    {
        steps_keep_well::<B>();
        steps_keep_stable::<B>();
        let who = self.ready.remove(0);
        self.early = self.early.saturating_sub(1);
        let spare = make_room(&mut self.ready, self.world.coroutines().len());
        let ran = turn(self.alloc, &mut self.world, who, spare);
        self.world.line_up(&mut self.ready);
        ran
    }

    /// The root bundle is closed, and who is answered by what settles then is queued.
    pub(crate) fn close_root(&mut self)
        ensures after { kept_of self.new ≡ kept_shut (kept_of self.old) }
        ensures stable { IsStable B.means (kept_of self.old) }
    {
        steps_keep_well::<B>();
        steps_keep_stable::<B>();
        self.early = self.ready.as_slice().len();
        self.world.begin();
        self.world.restart();
        self.world.close_root();
        settle(&mut self.world);
        self.world.line_up(&mut self.ready);
    }
}
