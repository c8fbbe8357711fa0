ghost use Rattle.std.specs.Prelude.{◌≡◌, ◌+◌, ◌<◌, ◌≤◌, ◌^◌, length, is_some, true, false, Some, None, IfOk, OnOk, OnErr};
ghost use Rattle.dill_plain.specs.Plain.{is_plain};
ghost use Rattle.dill_calls.specs.CallTable.{word_of, takes_memory};
ghost use Rattle.dill_handles.specs.Handles as handles;
ghost use Rattle.dill_rules.specs.Channeling as channeling;
ghost use Rattle.dill_rules.specs.Effects as effects;
ghost use Rattle.dill_rules.specs.Entering as entering;
ghost use Rattle.dill_rules.specs.Naming as naming;
ghost use Rattle.dill_rules.specs.Owning as owning;
ghost use Rattle.dill_rules.specs.Refusals as refusals;
ghost use Rattle.dill_steps.specs.Needs.{needs_memory, is_at_channel, HasView, Enters};
ghost use Rattle.dill_world.specs.Store.{world_of, may_wait, is_short_answer};
ghost use Rattle.dill_base.specs.declared.errno.Errno.TheVariants.{Enomem};
ghost use Rattle.dill_calls.specs.declared.answer.Answer.TheVariants.{Fault};
ghost use Rattle.dill_calls.specs.declared.call.Call.TheVariants as calls;
ghost use Rattle.dill_rules.specs.World.{reply};

use dill_base::{Deadline, Errno, NoMemory};
use dill_calls::{Answer, Arg, Body, Call, Word};
use dill_rules::Thing;
use dill_world::{World, draws_of, told, value_of};
use std::alloc::Global;

/// A call with the deadline that it has from its entry on.
pub fn entered(moment: u64, call: Call) -> Call
    requires { is_plain call ≡ true }
    ensures value { result ≡ entering.entered moment call }
    ensures plain { is_plain result ≡ true }
{
    match call {
        Call::Msleep(deadline) => Call::Msleep(deadline.entered(moment)),
        Call::BundleWait(number, deadline) => Call::BundleWait(number, deadline.entered(moment)),
        Call::Chsend(number, bytes, deadline) => {
            Call::Chsend(number, bytes, deadline.entered(moment))
        }
        Call::Chrecv(number, size, deadline) => {
            Call::Chrecv(number, size, deadline.entered(moment))
        }
        Call::Choose(deadline, clauses) => Call::Choose(deadline.entered(moment), clauses),
        other => other,
    }
}

/// What a call is answered whose deadline passes.
pub fn late_answer(call: &Call) -> Answer
    ensures value { result ≡ entering.late_answer call.now }
    ensures short { is_short_answer result ≡ true }
{
    match call {
        Call::Msleep(_) => Answer::Number(0),
        _ => Answer::Fault(Errno::Etimedout),
    }
}

/// Whether the deadline of a call has passed.
pub fn is_late(moment: u64, call: &Call) -> bool
    ensures { result ≡ entering.is_late moment call.now }
{
    match call.deadline() {
        None => false,
        Some(deadline) => deadline.has_passed(moment),
    }
}

/// What `Pass` answers.
fn passed_answer(fault: Option<Errno>) -> Answer
    ensures value { result ≡ effects.passed_answer fault }
    ensures short { is_short_answer result ≡ true }
{
    match fault {
        None => Answer::Number(0),
        Some(errno) => Answer::Fault(errno),
    }
}

fn query<B: Drop>(world: &mut World<B>, who: u64, number: u64)
    ensures { world_of world.new ≡ effects.query (world_of world.old) who number }
{
    if let Some(found) = world.entry_of(number) {
        let value = value_of(found.thing);
        world.reply(who, Word::Hquery, Answer::Number(value));
    }
}

fn close_thing<B: Drop>(world: &mut World<B>, who: u64, number: u64, thing: Thing)
    requires { is_some (owning.entry_of (world_of world.old) number) ≡ true }
    ensures { world_of world.new ≡ effects.close_thing (world_of world.old) who number thing }
{
    match thing {
        Thing::Bundle(name) => {
            world.close_bundle(who, name, number);
            world.pend(who, Call::Hclose(number));
        }
        _ => {
            world.release(number);
            world.reply(who, Word::Hclose, Answer::Number(0));
        }
    }
}

fn close<B: Drop>(world: &mut World<B>, who: u64, number: u64)
    ensures { world_of world.new ≡ effects.close (world_of world.old) who number }
{
    if let Some(found) = world.entry_of(number) {
        let thing = found.thing;
        close_thing(world, who, number, thing);
    }
}

/// Whether the pending call of a coroutine has a passed deadline and no answer.
fn is_too_late<B: Drop>(world: &World<B>, who: u64, call: &Call) -> bool
    requires { may_wait call.now ≡ true }
    ensures { result ≡ entering.is_too_late (world_of world.now) who call.now }
{
    is_late(world.moment(), call) && world.answer_of(who, call).is_none()
}

/// The effect of a call that isn't refused and takes no memory.
fn perform<B: Body>(world: &mut World<B>, who: u64, call: &Call)
    requires plain { is_plain call.now ≡ true }
    requires free { needs_memory call.now ≡ false }
    ensures { (view : B) → world_of world.new ≡ entering.perform B.means (world_of world.old) who view call.now }
{
    match call {
        Call::Print(_) => world.reply(who, Word::Print, Answer::Number(0)),
        Call::Now => {
            let moment = world.moment();
            world.reply(who, Word::Now, Answer::Number(moment));
        }
        Call::Yield => world.reply(who, Word::Yield, Answer::Number(0)),
        Call::Msleep(deadline) => world.pend(who, Call::Msleep(*deadline)),
        Call::Hquery(number, _) => query(world, who, *number),
        Call::Hclose(number) => close(world, who, *number),
        Call::BundleWait(number, deadline) => {
            world.pend(who, Call::BundleWait(*number, *deadline));
        }
        Call::Chdone(number) => channel_done(world, who, *number),
        Call::Pass(word, fault) => world.reply(who, *word, passed_answer(*fault)),
        _ => {}
    }
}

/// An application's value has a number. Refused, nothing changes.
fn make_value<B: Body>(
    world: &mut World<B>,
    who: u64,
    call: &Call,
    kind: u64,
    value: u64,
) -> Result<(), NoMemory>
    requires call { call.now ≡ calls.Hmake kind value }
    requires room { handles.has_room world.old.handles 1 ≡ true }
    ensures ok { OnOk result (world_of world.new ≡ effects.make_value (entering.keep_for (world_of world.old) call.now) who kind value) }
    ensures err { OnErr result (world_of world.new ≡ world_of world.old) }
{
    world.keep_for(call)?;
    let number = world.make(Thing::Value(kind, value), who);
    world.reply(who, Word::Hmake, Answer::Number(number));
    Ok(())
}

/// A thing has another number, and the caller owns it. Refused, nothing changes.
fn own<B: Body>(world: &mut World<B>, who: u64, call: &Call, number: u64) -> Result<(), NoMemory>
    requires call { call.now ≡ calls.Hown number }
    requires room { handles.has_room world.old.handles 1 ≡ true }
    ensures ok { OnOk result (world_of world.new ≡ effects.own (entering.keep_for (world_of world.old) call.now) who number) }
    ensures err { OnErr result (world_of world.new ≡ world_of world.old) }
{
    world.keep_for(call)?;
    let next = world.handles().last() + 1;
    world.renumber(number, who);
    world.reply(who, Word::Hown, Answer::Number(next));
    Ok(())
}

/// A new bundle of a coroutine. Refused, nothing changes.
fn make_bundle<B: Body>(world: &mut World<B>, who: u64, call: &Call) -> Result<(), NoMemory>
    requires call { call.now ≡ calls.Bundle }
    requires room { handles.has_room world.old.handles 1 ≡ true }
    ensures ok { OnOk result (world_of world.new ≡ effects.make_bundle (entering.keep_for (world_of world.old) call.now) who) }
    ensures err { OnErr result (world_of world.new ≡ world_of world.old) }
{
    world.keep_for(call)?;
    match world.add_bundle(who) {
        Ok(number) => {
            world.reply(who, Word::Bundle, Answer::Number(number));
            Ok(())
        }
        Err(refused) => {
            world.unkeep(1);
            Err(refused)
        }
    }
}

/// A new channel, whose ends the caller owns. Refused, nothing changes.
fn make_channel<B: Body>(world: &mut World<B>, who: u64, call: &Call) -> Result<(), NoMemory>
    requires call { call.now ≡ calls.Chmake }
    requires room { handles.has_room world.old.handles 2 ≡ true }
    ensures ok { OnOk result (world_of world.new ≡ channeling.make_channel (entering.keep_for (world_of world.old) call.now) who) }
    ensures err { OnErr result (world_of world.new ≡ world_of world.old) }
{
    world.keep_for(call)?;
    match world.add_channel(who) {
        Ok((first, second)) => {
            world.reply(who, Word::Chmake, Answer::Pair(first, second));
            Ok(())
        }
        Err(refused) => {
            world.unkeep(2);
            Err(refused)
        }
    }
}

/// The sending direction of an end is done, unless it was done or the other end is gone.
fn done_at<B: Drop>(world: &mut World<B>, who: u64, end: u64)
    ensures { world_of world.new ≡ channeling.done_at (world_of world.old) who end }
{
    if world.finish_end(end) {
        world.reply(who, Word::Chdone, Answer::Number(0));
    } else {
        world.reply(who, Word::Chdone, Answer::Fault(Errno::Epipe));
    }
}

fn channel_done<B: Drop>(world: &mut World<B>, who: u64, number: u64)
    ensures { world_of world.new ≡ channeling.channel_done (world_of world.old) who number }
{
    if let Some(end) = world.end_named(number) {
        done_at(world, who, end);
    }
}

/// A new coroutine of a program that the caller's knows, which is told these arguments.
fn child_of<B: Body>(
    alloc: Global,
    world: &World<B>,
    who: u64,
    program: u32,
    args: &[Arg],
    next: u64,
) -> Result<B, NoMemory>
    requires known { (view : B) → HasView (world_of world.now) who view → B.means.knows view program (length args.now) ≡ true }
    requires small { next + length (naming.gifts_of args.now) < 2 ^ 64 }
    ensures { IfOk result (λ child. (view : B) → HasView (world_of world.now) who view → child ≡ B.means.child view program (effects.told next args.now)) }
{
    let numbers = told(alloc, next, args)?;
    match world.coroutine_of(who) {
        None => Err(NoMemory),
        Some(one) => one.body().child(program, numbers.as_slice()),
    }
}

/// A child in a new bundle. Refused, nothing changes.
fn go<B: Body>(
    alloc: Global,
    world: &mut World<B>,
    who: u64,
    call: &Call,
    program: u32,
    args: &[Arg],
) -> Result<(), NoMemory>
    requires call { call.now ≡ calls.Go program args.now }
    requires enters { Enters B.means (world_of world.old) who call.now }
    ensures ok { OnOk result ((view : B) → HasView (world_of world.old) who view → world_of world.new ≡ effects.go B.means (entering.keep_for (world_of world.old) call.now) who view program args.now) }
    ensures err { OnErr result (world_of world.new ≡ world_of world.old) }
{
    let number = world.handles().last() + 1;
    let child = child_of(alloc, world, who, program, args, number + 1)?;
    world.keep_for(call)?;
    if let Err(refused) = world.bear_apart(who, child) {
        world.unkeep(draws_of(call));
        return Err(refused);
    }
    let owner = world.last_coroutine();
    world.give_all(args, owner);
    world.reply(who, Word::Go, Answer::Number(number));
    Ok(())
}

/// A child in a bundle that is there. Refused, nothing changes.
fn bundle_go<B: Body>(
    alloc: Global,
    world: &mut World<B>,
    who: u64,
    call: &Call,
    bundle: u64,
    program: u32,
    args: &[Arg],
) -> Result<(), NoMemory>
    requires call { call.now ≡ calls.BundleGo bundle program args.now }
    requires enters { Enters B.means (world_of world.old) who call.now }
    ensures ok { OnOk result ((view : B) → HasView (world_of world.old) who view → world_of world.new ≡ effects.bundle_go B.means (entering.keep_for (world_of world.old) call.now) who view bundle program args.now) }
    ensures err { OnErr result (world_of world.new ≡ world_of world.old) }
{
    let number = world.handles().last() + 1;
    let child = child_of(alloc, world, who, program, args, number)?;
    world.keep_for(call)?;
    let Some(home) = world.bundle_named(bundle) else {
        return Ok(());
    };
    if let Err(refused) = world.bear(child, home) {
        world.unkeep(draws_of(call));
        return Err(refused);
    }
    let owner = world.last_coroutine();
    world.give_all(args, owner);
    world.reply(who, Word::BundleGo, Answer::Number(0));
    Ok(())
}

/// The clauses of a call are entered at channels. Refused, nothing changes.
fn enter_channel<B: Body>(
    alloc: Global,
    world: &mut World<B>,
    who: u64,
    call: &Call,
) -> Result<(), NoMemory>
    requires at { is_at_channel call.now ≡ true }
    requires enters { Enters B.means (world_of world.old) who call.now }
    ensures ok { OnOk result (world_of world.new ≡ channeling.enter_channel (entering.keep_for (world_of world.old) call.now) who call.now) }
    ensures err { OnErr result (world_of world.new ≡ world_of world.old) }
{
    world.enter_channel(alloc, who, call)
}

/// Whether the entry of a call may want memory.
fn needs_memory(call: &Call) -> bool
    ensures { result ≡ needs_memory call.now }
{
    matches!(
        call,
        Call::Hmake(_, _)
            | Call::Hown(_)
            | Call::Bundle
            | Call::Go(_, _)
            | Call::BundleGo(_, _, _)
            | Call::Chmake
            | Call::Chsend(_, _, _)
            | Call::Chrecv(_, _, _)
            | Call::Choose(_, _)
    )
}

/// The effect of a call that isn't refused and may want memory. Refused, nothing changes.
fn perform_with<B: Body>(
    alloc: Global,
    world: &mut World<B>,
    who: u64,
    call: &Call,
) -> Result<(), NoMemory>
    requires needs { needs_memory call.now ≡ true }
    requires enters { Enters B.means (world_of world.old) who call.now }
    ensures ok { OnOk result ((view : B) → HasView (world_of world.old) who view → world_of world.new ≡ entering.perform B.means (entering.keep_for (world_of world.old) call.now) who view call.now) }
    ensures err { OnErr result (world_of world.new ≡ world_of world.old) }
{
    match call {
        Call::Hmake(kind, value) => make_value(world, who, call, *kind, *value),
        Call::Hown(number) => own(world, who, call, *number),
        Call::Bundle => make_bundle(world, who, call),
        Call::Go(program, args) => go(alloc, world, who, call, *program, args.as_slice()),
        Call::BundleGo(bundle, program, args) => {
            bundle_go(alloc, world, who, call, *bundle, *program, args.as_slice())
        }
        Call::Chmake => make_channel(world, who, call),
        Call::Chsend(_, _, _) => enter_channel(alloc, world, who, call),
        Call::Chrecv(_, _, _) => enter_channel(alloc, world, who, call),
        Call::Choose(_, _) => enter_channel(alloc, world, who, call),
        _ => Ok(()),
    }
}

/// A call that is pending is answered at its entry where its deadline is passed.
fn meet_deadline<B: Drop>(world: &mut World<B>, who: u64)
    ensures { world_of world.new ≡ entering.meet_deadline (world_of world.old) who }
{
    if let Some(call) = world.call_of(who) {
        if is_too_late(world, who, call) {
            let word = call.word();
            let answer = late_answer(call);
            world.reply(who, word, answer);
        }
    }
}

/// What a call of a coroutine that is there is refused with, if it is refused.
fn refusal<B: Body>(world: &World<B>, who: u64, call: &Call) -> Option<Option<Errno>>
    requires { is_plain call.now ≡ true }
    ensures there { result ≡ None → (view : B) → HasView (world_of world.now) who view → ⊥ }
    ensures value { (view : B) → HasView (world_of world.now) who view → result ≡ Some (refusals.refuse B.means (world_of world.now) who view call.now) }
    ensures free { result ≡ Some None → Enters B.means (world_of world.now) who call.now }
{
    match world.coroutine_of(who) {
        None => None,
        Some(one) => Some(world.refuse(who, one.body(), call)),
    }
}

/// A call that isn't refused is done, and answered where its deadline is passed. Where nobody more may be there it is refused
/// memory, if it may want some. It answers whether memory was refused it.
fn admit<B: Body>(alloc: Global, world: &mut World<B>, who: u64, call: &Call, spare: bool) -> bool
    requires plain { is_plain call.now ≡ true }
    requires enters { Enters B.means (world_of world.old) who call.now }
    ensures needs { result ≡ true → needs_memory call.now ≡ true }
    ensures lacks { result ≡ true → world_of world.new ≡ reply (world_of world.old) who (word_of call.now) (Fault Enomem) }
    ensures done { result ≡ false → (view : B) → HasView (world_of world.old) who view → world_of world.new ≡ entering.done B.means (world_of world.old) who view call.now }
    ensures few { spare ≡ false → length world.new.coroutines ≤ length world.old.coroutines }
    ensures one { length world.new.coroutines ≤ length world.old.coroutines + 1 }
{
    if !needs_memory(call) {
        perform(world, who, call);
        meet_deadline(world, who);
        return false;
    }
    if !spare {
        world.reply(who, call.word(), Answer::Fault(Errno::Enomem));
        return true;
    }
    match perform_with(alloc, world, who, call) {
        Ok(()) => {
            meet_deadline(world, who);
            false
        }
        Err(_) => {
            world.reply(who, call.word(), Answer::Fault(Errno::Enomem));
            true
        }
    }
}

/// A call of a coroutine is entered. Where the caller has no room to spare for one coroutine more, a call that may want memory
/// and isn't refused is refused memory. It answers whether memory was refused it.
pub fn enter<B: Body>(
    alloc: Global,
    world: &mut World<B>,
    who: u64,
    call: &Call,
    spare: bool,
) -> bool
    requires { is_plain call.now ≡ true }
    ensures met { result ≡ true → (view : B) → HasView (world_of world.old) who view → entering.may_lack_entry B.means (world_of world.old) who view call.now ≡ true }
    ensures entered { (view : B) → HasView (world_of world.old) who view → world_of world.new ≡ entering.enter B.means result (world_of world.old) who view call.now }
    ensures few { spare ≡ false → length world.new.coroutines ≤ length world.old.coroutines }
    ensures one { length world.new.coroutines ≤ length world.old.coroutines + 1 }
{
    match refusal(world, who, call) {
        None => false,
        Some(None) => admit(alloc, world, who, call, spare),
        Some(Some(errno)) => {
            world.reply(who, call.word(), Answer::Fault(errno));
            false
        }
    }
}
