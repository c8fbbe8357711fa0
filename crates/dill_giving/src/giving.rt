ghost use Rattle.std.specs.Prelude.{◌≡◌, true, false};
ghost use Rattle.dill_calls.specs.declared.answer.Answer.TheVariants.{Fault};
ghost use Rattle.dill_calls.specs.declared.call.Call.{Call};
ghost use Rattle.dill_rules.specs.Directions.{is_handshake};
ghost use Rattle.dill_rules.specs.Giving as giving;
ghost use Rattle.dill_rules.specs.LinkAnswers.{is_tcp_close};
ghost use Rattle.dill_rules.specs.Linking as linking;
ghost use Rattle.dill_rules.specs.Links as links;
ghost use Rattle.dill_rules.specs.Naming as naming;
ghost use Rattle.dill_world.specs.Store.{world_of, is_short_answer};
ghost use Rattle.dill_giving.specs.Answering.{fault_in, needs_no_look};
ghost use Rattle.dill_giving.specs.Asking.{asked_of};
ghost use Rattle.dill_giving.specs.Finding.{on_handle};
ghost use Rattle.dill_giving.specs.Releasing.{released};

use crate::asked::Asked;
use crate::finding::link_at;
use crate::forgoing::{forgo, give_back};
use crate::rows;
use dill_base::Errno;
use dill_calls::{Answer, Word};
use dill_sockets::{is_receive, is_send};
use dill_world::World;

/// A handshake, which attaches a layer.
pub(crate) fn is_handshake(word: Word) -> bool
    ensures { result ≡ is_handshake word }
{
    matches!(word, Word::WsAttachClient | Word::WsAttachServer)
}

fn is_tcp_close(word: Word) -> bool
    ensures { result ≡ is_tcp_close word }
{
    matches!(word, Word::TcpClose)
}

/// The call makes a link.
fn links(word: Word) -> bool
    ensures { result ≡ naming.links word }
{
    matches!(word, Word::TcpListen | Word::TcpAccept | Word::TcpConnect)
}

/// The errno of an answer that is a fault.
fn fault_in(answer: &Answer) -> Option<Errno>
    ensures { result ≡ fault_in answer.now }
{
    match answer {
        Answer::Fault(errno) => Some(*errno),
        _ => None,
    }
}

/// What an answer of a send does to the stack on the link that a handle names.
fn settle_send<B: Drop>(world: &mut World<B>, handle: Option<u64>, word: Word, answer: &Answer)
    ensures { world_of world.new ≡ on_handle (world_of world.old) handle (links.with_stack (giving.after_send word answer.now)) }
{
    if let Some(link) = link_at(world, handle) {
        rows::after_send(word, answer, world.row_mut(link));
    }
}

/// A send is answered: one that is given up takes back what has not begun to go.
pub fn give_send<B: Drop>(world: &mut World<B>, who: u64, asked: Asked, answer: Answer)
    requires { is_short_answer answer ≡ true }
    ensures { (call : Call) → asked_of call ≡ asked → world_of world.new ≡ giving.give_send (world_of world.old) who call answer }
{
    settle_send(world, asked.handle, asked.word, &answer);
    world.reply(who, asked.word, answer);
}

/// A receive is answered by what it didn't read: its stack keeps all bytes.
pub fn give_receive<B: Drop>(world: &mut World<B>, who: u64, asked: Asked, answer: Answer)
    requires short { is_short_answer answer ≡ true }
    requires unread { giving.is_read answer ≡ false }
    ensures { (call : Call) → asked_of call ≡ asked → world_of world.new ≡ giving.give_receive (world_of world.old) who call answer }
{
    world.reply(who, asked.word, answer);
}

/// What a handle names is released, and so many kept numbers are given back, if there is a handle.
fn release_all<B: Drop>(world: &mut World<B>, handle: Option<u64>, kept: usize)
    ensures { world_of world.new ≡ released (world_of world.old) handle kept }
{
    if let Some(number) = handle {
        give_back(world, kept);
        world.release(number);
    }
}

/// The whole stack is released, what the call kept is given back, and the caller is answered with an errno.
pub fn give_stack_up<B: Drop>(
    world: &mut World<B>,
    who: u64,
    asked: Asked,
    errno: Errno,
    kept: usize,
)
    ensures { (call : Call) → asked_of call ≡ asked → world_of world.new ≡ linking.give_stack_up (world_of world.old) who call errno kept }
{
    release_all(world, asked.handle, kept);
    world.reply(who, asked.word, Answer::Fault(errno));
}

/// A handshake or a detach fails otherwise than by what it read: its whole stack is released.
pub fn give_attached<B: Drop>(world: &mut World<B>, who: u64, asked: Asked, errno: Errno)
    requires { giving.is_read (Fault errno) ≡ false }
    ensures { (call : Call) → asked_of call ≡ asked → world_of world.new ≡ giving.give_attached (world_of world.old) who call (Fault errno) }
{
    give_stack_up(world, who, asked, errno, asked.draws);
}

/// `tcp_close` is answered: the socket is released, however it is answered.
pub fn give_closed<B: Drop>(world: &mut World<B>, who: u64, asked: Asked, answer: Answer)
    requires { is_short_answer answer ≡ true }
    ensures { (call : Call) → asked_of call ≡ asked → world_of world.new ≡ giving.give_closed (world_of world.old) who call answer }
{
    release_all(world, asked.handle, 0);
    world.reply(who, asked.word, answer);
}

/// A listen, an accept or a connect is answered with an errno.
pub fn give_forgone<B: Drop>(world: &mut World<B>, who: u64, asked: Asked, answer: Answer)
    requires { is_short_answer answer ≡ true }
    ensures { (call : Call) → asked_of call ≡ asked → world_of world.new ≡ giving.give_forgone (world_of world.old) who call answer }
{
    forgo(world, who);
    world.reply(who, asked.word, answer);
}

/// `hclose` of a bundle is answered, which is free then.
pub fn give_close<B: Drop>(world: &mut World<B>, who: u64, number: u64, answer: Answer)
    requires { is_short_answer answer ≡ true }
    ensures { world_of world.new ≡ giving.give_close (world_of world.old) who number answer }
{
    world.free_dead(number);
    world.reply(who, Word::Hclose, answer);
}

/// A handshake or a detach is answered by no look.
fn give_unattached<B: Drop>(world: &mut World<B>, who: u64, asked: Asked, answer: Answer)
    requires { giving.is_read answer ≡ false }
    ensures { (call : Call) → asked_of call ≡ asked → world_of world.new ≡ giving.give_attached (world_of world.old) who call answer }
{
    if let Some(errno) = fault_in(&answer) {
        give_attached(world, who, asked, errno);
    }
}

/// A pending call of another word than `hclose` is answered, by its class.
fn give_class<B: Drop>(world: &mut World<B>, who: u64, asked: Asked, answer: Answer)
    requires short { is_short_answer answer ≡ true }
    requires unseen { needs_no_look asked.word answer ≡ true }
    ensures { (call : Call) → asked_of call ≡ asked → world_of world.new ≡ giving.give_class (world_of world.old) who call answer }
{
    let word = asked.word;
    if is_send(word) {
        return give_send(world, who, asked, answer);
    }
    if is_receive(word) {
        return give_receive(world, who, asked, answer);
    }
    if is_tcp_close(word) {
        return give_closed(world, who, asked, answer);
    }
    if is_handshake(word) || word.gives_up() {
        return give_unattached(world, who, asked, answer);
    }
    if links(word) {
        return give_forgone(world, who, asked, answer);
    }
    world.reply(who, word, answer);
}

/// A pending call is answered without a look at its stack, by an answer without bytes.
pub fn give_short<B: Drop>(world: &mut World<B>, who: u64, asked: Asked, answer: Answer)
    requires short { is_short_answer answer ≡ true }
    requires unseen { needs_no_look asked.word answer ≡ true }
    ensures { (call : Call) → asked_of call ≡ asked → world_of world.new ≡ giving.give (world_of world.old) who call answer }
{
    match asked.closed {
        None => give_class(world, who, asked, answer),
        Some(number) => give_close(world, who, number, answer),
    }
}
