ghost use Rattle.std.specs.Prelude.{◌≡◌, ◌+◌, ◌≤◌, length, true, false};
ghost use Rattle.dill_calls.specs.Program.{Move, Calls, Ends};
ghost use Rattle.dill_calls.specs.declared.body.Next.TheVariants as nexts;
ghost use Rattle.dill_plain.specs.Plain.{is_plain};
ghost use Rattle.dill_rules.specs.Entering as entering;
ghost use Rattle.dill_rules.specs.Turning as turning;
ghost use Rattle.dill_steps.specs.Needs.{HasView};
ghost use Rattle.dill_world.specs.Store.{world_of, is_short_answer};
ghost use Rattle.dill_steps.specs.Turned.{MovesAs, IsPlainNext, MayGoOn, WentSo, Gone, without_text, at_entry};

use crate::entering::{enter, entered};
use crate::settling::settle;
use dill_base::{Errno, Octets};
use dill_calls::{Answer, Body, Call, LackPlace, Next, Ran, Word};
use dill_plain::PlainBody;
use dill_world::World;
use std::alloc::Global;

/// Where a turn was refused memory, if it was, how its program ended, if it did, and the text of the `print` that it enters.
#[derive(Drop)]
pub struct Went {
    lack: Option<LackPlace>,
    outcome: Option<Option<Errno>>,
    text: Option<Octets>,
}

/// The text of a `print`, and the call without it.
fn take_text(alloc: Global, call: Call) -> (Option<Octets>, Call)
    requires { is_plain call ≡ true }
    ensures text { result.0 ≡ turning.text_of (Calls call) }
    ensures rest { result.1 ≡ without_text call }
    ensures plain { is_plain result.1 ≡ true }
{
    match call {
        Call::Print(text) => (Some(text), Call::Print(Octets::new(alloc))),
        other => (None, other),
    }
}

/// The lack of an entry that was refused memory or not.
fn entry_lack(lacks: bool) -> Option<LackPlace>
    ensures { result ≡ at_entry lacks }
{
    if lacks { Some(LackPlace::Entry) } else { None }
}

/// What a coroutine hears that couldn't build the call of a word.
fn lack_fault<B>(world: &World<B>, who: u64, word: Word) -> Errno
    ensures { result ≡ entering.lack_fault (world_of world.now) who word }
{
    if world.is_cancelled(who) && (word.blocks() || word.makes()) && !word.gives_up() {
        Errno::Ecanceled
    } else {
        Errno::Enomem
    }
}

/// The next call of a coroutine is entered.
fn make_call<B: Body>(
    alloc: Global,
    world: &mut World<B>,
    who: u64,
    call: Call,
    spare: bool,
) -> Went
    requires { is_plain call ≡ true }
    ensures went { (view : B) → HasView (world_of world.old) who view → WentSo B.means (world_of world.old) (world_of world.new) who view (nexts.Call call) (Calls call) result }
    ensures few { spare ≡ false → length world.new.coroutines ≤ length world.old.coroutines }
    ensures one { length world.new.coroutines ≤ length world.old.coroutines + 1 }
{
    let moment = world.moment();
    let (text, rest) = take_text(alloc, call);
    let entering = entered(moment, rest);
    let lacks = enter(alloc, world, who, &entering, spare);
    Went {
        lack: entry_lack(lacks),
        outcome: None,
        text,
    }
}

/// The next call of a coroutine couldn't be built, and is answered.
fn lack_call<B: Body>(world: &mut World<B>, who: u64, word: Word) -> Went
    ensures went { (view : B) → (move : Move) → MovesAs (nexts.Lack word) move → WentSo B.means (world_of world.old) (world_of world.new) who view (nexts.Lack word) move result }
    ensures few { length world.new.coroutines ≤ length world.old.coroutines }
{
    let errno = lack_fault(world, who, word);
    world.reply(who, word, Answer::Fault(errno));
    Went {
        lack: Some(LackPlace::Build),
        outcome: None,
        text: None,
    }
}

/// The program of a coroutine has ended.
fn end_program<B: Body>(world: &mut World<B>, who: u64, outcome: Option<Errno>) -> Went
    ensures went { (view : B) → WentSo B.means (world_of world.old) (world_of world.new) who view (nexts.End outcome) (Ends outcome) result }
    ensures few { length world.new.coroutines ≤ length world.old.coroutines }
{
    world.end(who, outcome);
    Went {
        lack: None,
        outcome: Some(outcome),
        text: None,
    }
}

/// The next call of a coroutine is entered, or it ends.
fn make_move<B: Body>(
    alloc: Global,
    world: &mut World<B>,
    who: u64,
    next: Next,
    spare: bool,
) -> Went
    requires { IsPlainNext next }
    ensures went { (view : B) → (move : Move) → HasView (world_of world.old) who view → MovesAs next move → WentSo B.means (world_of world.old) (world_of world.new) who view next move result }
    ensures few { spare ≡ false → length world.new.coroutines ≤ length world.old.coroutines }
    ensures one { length world.new.coroutines ≤ length world.old.coroutines + 1 }
{
    match next {
        Next::Call(call) => make_call(alloc, world, who, call, spare),
        Next::Lack(word) => lack_call(world, who, word),
        Next::End(outcome) => end_program(world, who, outcome),
    }
}

/// A coroutine goes on from an answer.
fn go_on<B: PlainBody>(
    alloc: Global,
    world: &mut World<B>,
    who: u64,
    given: Answer,
    spare: bool,
) -> Went
    requires { MayGoOn B.means (world_of world.old) who }
    ensures gone { Gone B.means (world_of world.old) (world_of world.new) who given result }
    ensures few { spare ≡ false → length world.new.coroutines ≤ length world.old.coroutines }
    ensures one { length world.new.coroutines ≤ length world.old.coroutines + 1 }
{
    match world.resume(who, given) {
        None => Went {
            lack: None,
            outcome: None,
            text: None,
        },
        Some(next) => make_move(alloc, world, who, next, spare),
    }
}

/// The turn of a coroutine: it is given its answer, and makes its next call or ends. Then the machine settles.
/// Where the caller has no room to spare for one coroutine more, nobody is new: a call that may want memory is refused it.
/// The allocator serves the entry of that call alone: what settles has none.
pub fn turn<B: PlainBody>(alloc: Global, world: &mut World<B>, who: u64, spare: bool) -> Ran
    requires { MayGoOn B.means (world_of world.old) who }
    ensures turned { world_of world.new ≡ turning.turn B.means result.lack (world_of world.old) who }
    ensures shown { (view : B) → HasView (world_of world.old) who view → result ≡ turning.shown B.means result.lack (world_of world.old) who view }
    ensures few { spare ≡ false → length world.new.coroutines ≤ length world.old.coroutines }
    ensures one { length world.new.coroutines ≤ length world.old.coroutines + 1 }
{
    world.begin();
    match world.take_answer(who) {
        None => Ran {
            who,
            word: Word::Start,
            given: Answer::Number(0),
            lack: None,
            end: None,
            text: None,
        },
        Some((word, given, twin)) => {
            let went = go_on(alloc, world, who, twin, spare);
            settle(world);
            Ran {
                who,
                word,
                given,
                lack: went.lack,
                end: went.outcome,
                text: went.text,
            }
        }
    }
}
