ghost use Rattle.std.specs.Prelude.{◌≡◌, ◌+◌, ◌≤◌, ◌++◌, length, map, vec_capacity, true};
ghost use Rattle.dill_rules.specs.State as states;
ghost use Rattle.dill_world.specs.Lined.{fresh_one, fresh_of};
ghost use Rattle.dill_world.specs.Store.{world_of, is_plain_row, ArePlain};

use crate::row::Row;
use crate::world::World;
use dill_rules::Mode;

/// Whether who stands there was answered in this step.
fn is_fresh(mode: &Mode) -> bool
    ensures { result ≡ states.is_fresh mode.now }
{
    matches!(mode, Mode::Fresh(_, _))
}

/// A coroutine that was answered in this step joins a queue that has room for it.
fn queue_one<B>(c: &Row<B>, ready: &mut Vec<u64>)
    requires { length ready.old.items + length (fresh_one c.now) ≤ vec_capacity ready.old }
    ensures items { ready.new.items ≡ ready.old.items ++ fresh_one c.now }
    ensures capacity { vec_capacity ready.new ≡ vec_capacity ready.old }
{
    if is_fresh(c.mode()) {
        ready.push_reserved(c.number());
    }
}

/// Those who were answered in this step join a queue that has room for them.
fn queue_each<B>(coroutines: &[Row<B>], ready: &mut Vec<u64>)
    requires { length ready.old.items + length (fresh_of coroutines.now) ≤ vec_capacity ready.old }
    ensures items { ready.new.items ≡ ready.old.items ++ fresh_of coroutines.now }
    ensures capacity { vec_capacity ready.new ≡ vec_capacity ready.old }
{
    for c in coroutines {
        queue_one(c, ready);
    }
}

/// A coroutine stands there once the step is over.
fn line_one<B: Drop>(c: &mut Row<B>)
    ensures row { c.new ≡ states.lined c.old }
    ensures plain { is_plain_row c.old ≡ true → is_plain_row c.new ≡ true }
{
    c.line();
}

/// The coroutines stand there once the step is over.
fn line_each<B: Drop>(coroutines: &mut [Row<B>])
    ensures rows { coroutines.new ≡ map states.lined coroutines.old }
    ensures plain { ArePlain coroutines.old → ArePlain coroutines.new }
{
    for c in coroutines.iter_mut() {
        line_one(c);
    }
}

impl<B: Drop> World<B> {
    /// A step is over. Who was answered in it joins a queue that has room for them, the lower coroutine first.
    pub fn line_up(&mut self, ready: &mut Vec<u64>)
        requires { length ready.old.items + length (states.fresh (world_of self.old)) ≤ vec_capacity ready.old }
        ensures world { world_of self.new ≡ record (world_of self.old) { coroutines = map states.lined self.old.coroutines } }
        ensures ready { ready.new.items ≡ ready.old.items ++ states.fresh (world_of self.old) }
        ensures capacity { vec_capacity ready.new ≡ vec_capacity ready.old }
    {
        queue_each(&self.coroutines, ready);
        line_each(&mut self.coroutines);
    }
}
