ghost use Rattle.std.specs.Prelude.{◌≡◌, ◌≤◌, length, drop, filter_map, find, option_map, min, nat_lt, true};
ghost use Rattle.std.specs.List.{reduce};
ghost use Rattle.dill_base.specs.Maps.{if_some};
ghost use Rattle.dill_rules.specs.World as worlds;
ghost use Rattle.dill_rules.specs.Expiring as expiring;
ghost use Rattle.dill_rules.specs.Waiting as waiting;
ghost use Rattle.dill_world.specs.Store.{world_of, may_wait};
ghost use Rattle.dill_steps.specs.Timing.{first_of, late_timer, as_timer, sooner, sooner_by, due_at, as_pair, pair_of, PassesOneByOne};

use crate::entering::late_answer;
use crate::settling::{asked_of, give};
use dill_base::Deadline;
use dill_calls::{Call, Word};
use dill_rules::Mode;
use dill_world::{Row, World, pending_call};

/// A coroutine, and the moment in milliseconds at which its pending call expires.
#[derive(Clone, Copy)]
struct Late {
    due: u64,
    who: u64,
}

/// The moment of a deadline that is one, in milliseconds.
fn moment_of(deadline: Deadline) -> Option<u64>
    ensures { result ≡ expiring.moment_of deadline }
{
    match deadline {
        Deadline::At(due) => Some(due),
        _ => None,
    }
}

/// When a pending call expires, if it does.
fn due_of(call: &Call) -> Option<u64>
    ensures { result ≡ expiring.due_of call.now }
{
    match call.deadline() {
        None => None,
        Some(deadline) => moment_of(deadline),
    }
}

/// When the pending call of who stands there expires, if there is one and it does.
fn due_in(mode: &Mode) -> Option<u64>
    ensures { result ≡ if_some (worlds.pending_call mode.now) None expiring.due_of }
{
    match pending_call(mode) {
        None => None,
        Some(call) => due_of(call),
    }
}

/// The timer of a coroutine whose deadline is passed.
fn late_of<B>(c: &Row<B>, moment: u64) -> Option<Late>
    ensures { option_map as_timer result ≡ late_timer moment c.now }
{
    match due_in(c.mode()) {
        None => None,
        Some(due) => {
            if due <= moment {
                Some(Late {
                    due,
                    who: c.number(),
                })
            } else {
                None
            }
        }
    }
}

/// The earlier of a timer and the first of others.
fn sooner_of(x: Late, rest: Option<Late>) -> Late
    ensures { as_timer result ≡ sooner (as_timer x) (option_map as_timer rest) }
{
    match rest {
        None => x,
        Some(y) => {
            if x.due < y.due || (x.due == y.due && x.who < y.who) {
                x
            } else {
                y
            }
        }
    }
}

/// The first of a coroutine's timer, where it has one that is passed, and others.
fn sooner_with<B>(c: &Row<B>, moment: u64, rest: Option<Late>) -> Option<Late>
    ensures { option_map as_timer result ≡ sooner_by (late_timer moment c.now) (option_map as_timer rest) }
{
    match late_of(c, moment) {
        None => rest,
        Some(x) => Some(sooner_of(x, rest)),
    }
}

/// The first passed deadline: the earliest one, and of equal ones that of the lower coroutine.
fn first_late<B>(coroutines: &[Row<B>], moment: u64) -> Option<Late>
    ensures { option_map as_timer result ≡ first_of (expiring.in_order (filter_map (late_timer moment) coroutines.now)) }
{
    let mut first = None;
    for i in (0..coroutines.len()).rev() {
        first = sooner_with(&coroutines[i], moment, first);
    }
    first
}

/// The earliest moment at which a pending call expires.
fn least_of<B>(coroutines: &[Row<B>]) -> Option<u64>
    ensures { result ≡ reduce min (filter_map due_at coroutines.now) }
{
    coroutines.iter().filter_map(|c| due_in(c.mode())).min()
}

/// A coroutine that waits, and the word of its call.
fn waiter<B>(c: &Row<B>) -> Option<(u64, Word)>
    ensures { result ≡ pair_of c.now }
{
    match pending_call(c.mode()) {
        None => None,
        Some(call) => Some((c.number(), call.word())),
    }
}

/// The first coroutine above a number that waits, and the word of its call.
fn first_waiter<B>(coroutines: &[Row<B>], after: u64) -> Option<(u64, Word)>
    ensures { result ≡ find (λ x. nat_lt after x.0) (filter_map pair_of coroutines.now) }
{
    coroutines
        .iter()
        .filter_map(|c| waiter(c))
        .find(|x| after < x.0)
}

/// The first coroutine above a number that waits, of those from a place of the list on, and the word of its call.
pub fn waiting_from<B>(world: &World<B>, place: usize, after: u64) -> Option<(u64, Word)>
    requires { place ≤ length world.now.coroutines }
    ensures { result ≡ option_map as_pair (find (λ x. nat_lt after x.who) (filter_map waiting.waiter_of (drop place world.now.coroutines))) }
{
    first_waiter(&world.coroutines()[place..], after)
}

/// The coroutine whose deadline is the first of those that are passed.
pub fn first_passed<B>(world: &World<B>) -> Option<u64>
    ensures { result ≡ first_of (expiring.passed (world_of world.now)) }
{
    match first_late(world.coroutines(), world.moment()) {
        None => None,
        Some(x) => Some(x.who),
    }
}

/// The earliest moment at which a pending call expires, in milliseconds.
pub fn least_due<B>(world: &World<B>) -> Option<u64>
    ensures { result ≡ waiting.least_due (world_of world.now) }
{
    least_of(world.coroutines())
}

/// The pending call of a coroutine is given up. Of one that isn't pending it changes nothing.
pub fn expire_one<B: Drop>(world: &mut World<B>, who: u64)
    ensures expired { world_of world.new ≡ expiring.expire_one (world_of world.old) who }
    ensures few { length world.new.coroutines ≤ length world.old.coroutines }
{
    if let Some(call) = world.call_of(who) {
        let asked = asked_of(call);
        let answer = late_answer(call);
        give(world, who, asked, answer);
    }
}

/// The passed deadlines are given up one after the other: each time the next of those that were passed is the first.
pub fn passes_one_by_one<B: Drop>()
    ensures { PassesOneByOne B }
{}
