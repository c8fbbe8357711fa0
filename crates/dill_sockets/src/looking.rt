ghost use Rattle.std.specs.Prelude.{◌≡◌, ◌≤◌, true, None, IfSome, is_some};
ghost use Rattle.rand_core.specs.Stream.{Stream};
ghost use Rattle.dill_stack.specs.Answering.{HasRoom};
ghost use Rattle.dill_stack.specs.declared.task.Task.TheVariants.{Expects};
ghost use Rattle.dill_stack.specs.Interface.{is_sent, limit_of_want};
ghost use Rattle.dill_rules.specs.Directions.{is_send, is_receive, is_handshake, asked, parting_of};
ghost use Rattle.dill_rules.specs.Giving as giving;
ghost use Rattle.dill_rules.specs.LinkAnswers.{is_tcp_done, is_tcp_close, is_broken_for, look_of, zero_when};
ghost use Rattle.dill_rules.specs.Lookless.{stack_lookless};
ghost use Rattle.dill_sockets.specs.Looking.{look_by_word};

use crate::asking::asked;
use dill_base::Errno;
use dill_calls::{Answer, Call, Word};
use dill_links::LinkRow;
use dill_stack::{AnswerRoom, ReadOut, Stack};
use rand_core::Rng;

/// Whether the call uses the sending direction.
pub fn is_send(word: Word) -> bool
    ensures { result ≡ is_send word }
{
    matches!(
        word,
        Word::TcpDone
            | Word::Bsend
            | Word::Msend
            | Word::TermDone
            | Word::HttpSendrequest
            | Word::HttpSendstatus
            | Word::HttpSendfield
            | Word::HttpDone
    )
}

/// Whether the call uses the receiving direction.
pub fn is_receive(word: Word) -> bool
    ensures { result ≡ is_receive word }
{
    matches!(
        word,
        Word::Brecv
            | Word::Mrecv
            | Word::HttpRecvrequest
            | Word::HttpRecvstatus
            | Word::HttpRecvfield
    )
}

fn is_handshake(word: Word) -> bool
    ensures { result ≡ is_handshake word }
{
    matches!(word, Word::WsAttachClient | Word::WsAttachServer)
}

fn is_tcp_done(word: Word) -> bool
    ensures { result ≡ is_tcp_done word }
{
    matches!(word, Word::TcpDone)
}

fn is_tcp_close(word: Word) -> bool
    ensures { result ≡ is_tcp_close word }
{
    matches!(word, Word::TcpClose)
}

/// The directions that a call uses are broken.
fn is_broken_for(word: Word, stack: &Stack) -> bool
    ensures { result ≡ is_broken_for word stack.now.held }
{
    if is_receive(word) {
        return stack.receiving().broken;
    }
    if is_send(word) {
        return stack.sending().broken;
    }
    stack.is_broken()
}

fn zero_when(test: bool) -> Option<Answer>
    ensures { result ≡ zero_when test }
{
    if test { Some(Answer::Number(0)) } else { None }
}

/// What a pending call on a link is answered without a look: a broken direction, what was sent, or the end of a whole
/// connection.
pub fn stack_lookless(call: &Call, row: &LinkRow) -> Option<Answer>
    ensures { result ≡ stack_lookless call.now row.now }
{
    let word = call.word();
    if is_broken_for(word, row.stack()) {
        return Some(Answer::Fault(Errno::Econnreset));
    }
    if is_tcp_done(word) {
        return zero_when(row.shut());
    }
    if is_send(word) {
        return zero_when(row.stack().is_sent());
    }
    if is_tcp_close(word) {
        return zero_when(row.shut() && row.stack().has_ended());
    }
    None
}

/// Whether a call with this answer was given up before it was done.
fn is_given_up(answer: &Answer) -> bool
    ensures { result ≡ giving.is_given_up answer.now }
{
    matches!(
        answer,
        Answer::Fault(Errno::Ecanceled) | Answer::Fault(Errno::Etimedout)
    )
}

fn is_fault(answer: &Answer) -> bool
    ensures { result ≡ giving.is_fault answer.now }
{
    matches!(answer, Answer::Fault(_))
}

/// What the answer of a send does to its stack: one that is given up is taken back as far as it may be.
pub fn after_send(word: Word, answer: &Answer, stack: &mut Stack)
    ensures { stack.new ≡ record stack.old { held = giving.after_send word answer.now stack.old.held } }
{
    if is_given_up(answer) {
        stack.withdraw();
        return;
    }
    if is_tcp_done(word) && is_fault(answer) {
        stack.unmark_done();
    }
}

/// What a pending call looks up on its stack: a receive reads, with room for its answer, a handshake and a detach go on, and
/// `tcp_close` drops all that is unread. It takes no memory.
pub fn look_of<R: Rng>(
    call: &Call,
    stack: &mut Stack,
    room: &mut AnswerRoom,
    keys: &mut R,
) -> ReadOut
    requires room { IfSome (asked call.now) (λ want. HasRoom want room.old × (limit_of_want want ≤ stack.old.most)) }
    requires sent { stack.old.held.task ≡ Expects → is_sent stack.old.held ≡ true }
    ensures look { look_of call.now (R.stream keys.old) stack.old.held ≡ record { stack = stack.new.held; said = result; random = R.stream keys.new } }
    ensures rest { stack.new ≡ record stack.old { held = stack.new.held } }
{
    match asked(call) {
        Some(want) => stack.read(want, room, keys),
        None => look_on(call, stack, keys),
    }
}

/// The same of a call that isn't a receive.
pub fn look_on<R: Rng>(call: &Call, stack: &mut Stack, keys: &mut R) -> ReadOut
    requires none { asked call.now ≡ None }
    requires sent { stack.old.held.task ≡ Expects → is_sent stack.old.held ≡ true }
    ensures look { look_of call.now (R.stream keys.old) stack.old.held ≡ record { stack = stack.new.held; said = result; random = R.stream keys.new } }
    ensures rest { stack.new ≡ record stack.old { held = stack.new.held } }
{
    if leaves(call) {
        return stack.detach_finish(keys);
    }
    look_by(call.word(), stack)
}

/// Whether the call leaves the layer on top.
fn leaves(call: &Call) -> bool
    ensures { result ≡ is_some (parting_of call.now) }
{
    matches!(
        call,
        Call::PrefixDetach(_)
            | Call::SuffixDetach(_)
            | Call::TermDetach(_, _)
            | Call::HttpDetach(_, _)
            | Call::WsDetach(_, _, _, _)
    )
}

/// The look of a call of this word, neither a receive nor a detach. It draws no random number.
fn look_by(word: Word, stack: &mut Stack) -> ReadOut
    requires sent { stack.old.held.task ≡ Expects → is_sent stack.old.held ≡ true }
    ensures look { (random : Stream) → look_by_word word random stack.old.held ≡ record { stack = stack.new.held; said = result; random = random } }
    ensures rest { stack.new ≡ record stack.old { held = stack.new.held } }
{
    if is_handshake(word) {
        return stack.greeted();
    }
    if is_tcp_close(word) {
        let _ = stack.drop_unread();
    }
    ReadOut::Need
}
