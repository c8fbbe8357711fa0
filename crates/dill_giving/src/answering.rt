ghost use Rattle.std.specs.Prelude.{◌≡◌, true, false, IfSome};
ghost use Rattle.dill_calls.specs.CallTable.{word_of};
ghost use Rattle.dill_rules.specs.Answers as answers;
ghost use Rattle.dill_rules.specs.LinkAnswers.{is_on_stack};
ghost use Rattle.dill_rules.specs.Lookless as lookless;
ghost use Rattle.dill_world.specs.Store.{world_of, may_wait, is_short_answer};
ghost use Rattle.dill_giving.specs.Answering.{has_few_clauses, needs_no_look, NoLooks};

use crate::finding::link_on;
use crate::giving::is_handshake;
use dill_base::Errno;
use dill_calls::{Answer, Body, Call, Word};
use dill_sockets::{is_receive, is_send, stack_lookless};
use dill_world::World;

/// The most clauses of a choice.
const MOST_CLAUSES: usize = 16;

/// A call that is answered by its stack.
fn is_on_stack(word: Word) -> bool
    ensures { result ≡ is_on_stack word }
{
    is_send(word) || is_receive(word) || is_handshake(word) || word.gives_up()
}

/// A call that waits for no link.
fn may_wait(call: &Call) -> bool
    ensures { result ≡ may_wait call.now }
{
    match call {
        Call::Msleep(_) => true,
        Call::Hclose(_) => true,
        Call::BundleWait(_, _) => true,
        Call::Chsend(_, _, _) => true,
        Call::Chrecv(_, _, _) => true,
        Call::Choose(_, clauses) => clauses.as_slice().len() <= MOST_CLAUSES,
        _ => false,
    }
}

/// Whether the number that a call names is dead; that of `hclose` died by the call itself.
fn lost_its_number<B>(world: &World<B>, call: &Call) -> bool
    ensures { result ≡ answers.lost_its_number (world_of world.now) call.now }
{
    if matches!(call.word(), Word::Hclose) {
        return false;
    }
    match call.handle() {
        None => false,
        Some(number) => world.entry_of(number).is_none(),
    }
}

/// What a pending call is answered by its stack, but for a look.
fn link_lookless<B>(world: &World<B>, call: &Call) -> Option<Answer>
    ensures value { result ≡ lookless.link_lookless (world_of world.now) call.now }
    ensures short { IfSome result (λ a. is_short_answer a ≡ true) }
{
    match link_on(world, call.handle()) {
        None => None,
        Some(row) => stack_lookless(call, row),
    }
}

/// What a pending call that waits for a link is answered of itself, but for a look.
fn own_lookless<B>(world: &World<B>, call: &Call) -> Option<Answer>
    requires few { has_few_clauses call.now ≡ true }
    requires linked { may_wait call.now ≡ false }
    ensures value { result ≡ lookless.own_lookless (world_of world.now) call.now }
    ensures short { IfSome result (λ a. is_short_answer a ≡ true) }
{
    if is_on_stack(call.word()) {
        link_lookless(world, call)
    } else {
        None
    }
}

/// What a pending call that waits for a link is answered without a look.
fn linked_lookless<B>(world: &World<B>, who: u64, call: &Call) -> Option<Answer>
    requires few { has_few_clauses call.now ≡ true }
    requires linked { may_wait call.now ≡ false }
    ensures value { result ≡ lookless.lookless_of (world_of world.now) who call.now }
    ensures short { IfSome result (λ a. is_short_answer a ≡ true) }
{
    if call.word().blocks() && world.is_cancelled(who) {
        return Some(Answer::Fault(Errno::Ecanceled));
    }
    if lost_its_number(world, call) {
        return Some(Answer::Fault(Errno::Ebadf));
    }
    own_lookless(world, call)
}

/// What a pending call of a coroutine is answered without a look, if it can be: an answer without bytes.
pub fn lookless_of<B>(world: &World<B>, who: u64, call: &Call) -> Option<Answer>
    requires { has_few_clauses call.now ≡ true }
    ensures value { result ≡ lookless.lookless_of (world_of world.now) who call.now }
    ensures short { IfSome result (λ a. is_short_answer a ≡ true) }
    ensures unseen { IfSome result (λ a. needs_no_look (word_of call.now) a ≡ true) }
{
    if may_wait(call) {
        world.answer_of(who, call)
    } else {
        linked_lookless(world, who, call)
    }
}

/// What is answered without a look needs none, nor does the answer of a passed deadline.
pub fn no_looks<B: Body>()
    ensures { NoLooks B }
{}
