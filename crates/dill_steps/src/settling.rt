ghost use Rattle.std.specs.Prelude.{◌≡◌, ◌≤◌, length, find, option_copied, option_map, true, false, None, IfSome};
ghost use Rattle.dill_base.specs.Maps.{first_some};
ghost use Rattle.dill_rules.specs.World as worlds;
ghost use Rattle.dill_rules.specs.Settling as settling;
ghost use Rattle.dill_rules.specs.Settling.{IsSettled};
ghost use Rattle.dill_steps.specs.Asking.{closed_by, asked_of, give_asked, asked_due};
ghost use Rattle.dill_steps.specs.Endings.{ending_of};
ghost use Rattle.dill_world.specs.Store.{world_of, may_wait, is_plain_mode, is_plain_row, is_short_answer, ArePlain};

use dill_base::Errno;
use dill_calls::{Answer, Call, Word};
use dill_rules::Mode;
use dill_world::{Row, World, is_ending};

/// What an answer needs of the pending call that it is given to: the call's word, and the number that died by an `hclose`.
#[derive(Clone, Copy)]
pub struct Asked {
    pub word: Word,
    pub closed: Option<u64>,
}

/// The number that died by an `hclose`.
fn closed_by(call: &Call) -> Option<u64>
    ensures { result ≡ closed_by call.now }
{
    match call {
        Call::Hclose(number) => Some(*number),
        _ => None,
    }
}

/// What an answer needs of a call.
pub fn asked_of(call: &Call) -> Asked
    ensures { result ≡ asked_of call.now }
{
    Asked {
        word: call.word(),
        closed: closed_by(call),
    }
}

/// The call that is pending.
fn pending_in(mode: &Mode) -> Option<&Call>
    requires { is_plain_mode mode.now ≡ true }
    ensures call { option_copied result ≡ worlds.pending_call mode.now }
    ensures waits { IfSome result (λ call. may_wait call.now ≡ true) }
{
    match mode {
        Mode::Pending(call) => Some(call),
        _ => None,
    }
}

/// A pending call is answered.
pub fn give<B: Drop>(world: &mut World<B>, who: u64, asked: Asked, answer: Answer)
    requires { is_short_answer answer ≡ true }
    ensures { world_of world.new ≡ give_asked (world_of world.old) who asked answer }
{
    match asked.closed {
        None => world.reply(who, asked.word, answer),
        Some(number) => {
            world.free_dead(number);
            world.reply(who, asked.word, answer);
        }
    }
}

/// How the program ended of who is ending.
fn outcome_of(mode: &Mode) -> Option<Errno>
    ensures { result ≡ settling.outcome_of mode.now }
{
    match mode {
        Mode::Ending(outcome) => *outcome,
        _ => None,
    }
}

/// Whether nobody lives in a bundle of a coroutine.
pub fn is_clear<B>(world: &World<B>, who: u64) -> bool
    ensures { result ≡ settling.is_clear (world_of world.now) who }
{
    world.scopes().is_clear(who)
}

/// Whether a coroutine is ending and can finish.
pub fn can_finish<B>(world: &World<B>, c: &Row<B>) -> bool
    ensures { result ≡ settling.can_finish (world_of world.now) c.now }
{
    is_ending(c.mode()) && is_clear(world, c.number())
}

/// The lowest coroutine whose ending can finish.
fn finishing<B>(world: &World<B>) -> Option<&Row<B>>
    ensures { option_copied result ≡ find (settling.can_finish (world_of world.now)) world.now.coroutines }
{
    world.coroutines().iter().find(|c| can_finish(world, c))
}

/// The lowest coroutine whose ending can finish, and how its program ended.
fn next_ending<B>(world: &World<B>) -> Option<(u64, Option<Errno>)>
    ensures { result ≡ option_map ending_of (find (settling.can_finish (world_of world.now)) world.now.coroutines) }
{
    match finishing(world) {
        None => None,
        Some(c) => Some((c.number(), outcome_of(c.mode()))),
    }
}

/// The answer that a coroutine can be given, with what it needs of its call.
fn answer_due<B>(world: &World<B>, c: &Row<B>) -> Option<(u64, Asked, Answer)>
    requires { is_plain_row c.now ≡ true }
    ensures due { result ≡ asked_due (world_of world.now) c.now }
    ensures short { IfSome result (λ x. is_short_answer x.2 ≡ true) }
{
    match pending_in(c.mode()) {
        None => None,
        Some(call) => match world.answer_of(c.number(), call) {
            None => None,
            Some(answer) => Some((c.number(), asked_of(call), answer)),
        },
    }
}

/// The first answer that is due to one of these coroutines.
fn first_due<B>(world: &World<B>, coroutines: &[Row<B>]) -> Option<(u64, Asked, Answer)>
    requires { ArePlain coroutines.now }
    ensures due { result ≡ first_some (asked_due (world_of world.now)) coroutines.now }
    ensures short { IfSome result (λ x. is_short_answer x.2 ≡ true) }
{
    for c in coroutines {
        if let Some(due) = answer_due(world, c) {
            return Some(due);
        }
    }
    None
}

/// The first answer that is due, of the lowest coroutine.
pub fn first_answer<B>(world: &World<B>) -> Option<(u64, Asked, Answer)>
    ensures due { result ≡ first_some (asked_due (world_of world.now)) world.now.coroutines }
    ensures plain { ArePlain world.now.coroutines }
    ensures short { IfSome result (λ x. is_short_answer x.2 ≡ true) }
{
    first_due(world, world.coroutines())
}

/// The first answer that is due is given. It answers whether there was one.
fn give_first<B: Drop>(world: &mut World<B>) -> bool
    ensures given { world_of world.new ≡ settling.give_first (world_of world.old) }
    ensures none { result ≡ false → first_some (settling.answer_due (world_of world.old)) world.old.coroutines ≡ None }
    ensures few { length world.new.coroutines ≤ length world.old.coroutines }
{
    match first_answer(world) {
        None => false,
        Some((who, asked, answer)) => {
            give(world, who, asked, answer);
            true
        }
    }
}

/// An ending finishes, or else an answer is given. It answers whether either was due; where neither was, nothing changes.
pub fn settle_one<B: Drop>(world: &mut World<B>) -> bool
    ensures settled { world_of world.new ≡ settling.settle_one (world_of world.old) }
    ensures rests { result ≡ false → IsSettled (world_of world.old) }
    ensures few { length world.new.coroutines ≤ length world.old.coroutines }
{
    match next_ending(world) {
        Some((who, outcome)) => {
            world.finish(who, outcome);
            true
        }
        None => give_first(world),
    }
}

/// Endings finish and answers are given until nothing is due. Nobody is new.
pub fn settle<B: Drop>(world: &mut World<B>)
    ensures settled { world_of world.new ≡ settling.settle (world_of world.old) }
    ensures few { length world.new.coroutines ≤ length world.old.coroutines }
{
    for _ in 0..world.coroutines().len() {
        if !settle_one(world) {
            let _ = world.coroutines();
            return;
        }
    }
    let _ = world.coroutines();
}
