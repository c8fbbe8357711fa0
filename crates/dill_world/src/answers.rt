ghost use Rattle.std.specs.Prelude.{◌≡◌, [], ◌≤◌, length, true, Some, None, IfOk, IfSome};
ghost use Rattle.dill_base.specs.Maps.{if_some};
ghost use Rattle.dill_calls.specs.declared.answer.Answer.TheVariants.{Chosen, Fault};
ghost use Rattle.dill_chan.specs.declared.end.Want.TheVariants.{Send, Recv};
ghost use Rattle.dill_rules.specs.Naming.{end_of_clause};
ghost use Rattle.dill_rules.specs.Answers as answers;
ghost use Rattle.dill_world.specs.Store.{world_of, may_wait, is_short_answer};

use crate::rows::find_dead_as;
use crate::world::World;
use dill_base::{Errno, NoMemory, Octets};
use dill_calls::{Answer, Call, Clause, Word};
use dill_rules::Thing;
use std::alloc::Global;

/// A copy of an answer without bytes.
pub fn copy_answer(answer: &Answer) -> Answer
    requires { is_short_answer answer.now ≡ true }
    ensures { result ≡ answer.now }
{
    match answer {
        Answer::Number(n) => Answer::Number(*n),
        Answer::Pair(m, n) => Answer::Pair(*m, *n),
        Answer::Chosen {
            index,
            fault,
            bytes,
        } => copy_choice(*index, *fault, bytes),
        Answer::Fault(e) => Answer::Fault(*e),
        _ => Answer::Number(0),
    }
}

/// A copy of the answer of a choice that received nothing.
fn copy_choice(index: u32, fault: Option<Errno>, bytes: &Option<Octets>) -> Answer
    requires { is_short_answer (Chosen index fault bytes.now) ≡ true }
    ensures { result ≡ Chosen index fault bytes.now }
{
    match bytes {
        None => Answer::Chosen {
            index,
            fault,
            bytes: None,
        },
        Some(_) => Answer::Number(0),
    }
}

/// A copy of bytes that may be there.
fn copy_bytes(alloc: Global, bytes: &Option<Octets>) -> Result<Option<Octets>, NoMemory>
    ensures { IfOk result (λ copy. copy ≡ bytes.now) }
{
    match bytes {
        None => Ok(None),
        Some(all) => Ok(Some(Octets::from_slice(alloc, all.as_slice())?)),
    }
}

/// A copy of an answer, with its bytes.
pub(crate) fn copy_whole(alloc: Global, answer: &Answer) -> Result<Answer, NoMemory>
    ensures { IfOk result (λ copy. copy ≡ answer.now) }
{
    match answer {
        Answer::Number(n) => Ok(Answer::Number(*n)),
        Answer::Pair(m, n) => Ok(Answer::Pair(*m, *n)),
        Answer::Bytes(bytes) => {
            let copy = Octets::from_slice(alloc, bytes.as_slice())?;
            Ok(Answer::Bytes(copy))
        }
        Answer::Two(first, second) => {
            let one = Octets::from_slice(alloc, first.as_slice())?;
            let two = Octets::from_slice(alloc, second.as_slice())?;
            Ok(Answer::Two(one, two))
        }
        Answer::Coded(code, bytes) => {
            let copy = Octets::from_slice(alloc, bytes.as_slice())?;
            Ok(Answer::Coded(*code, copy))
        }
        Answer::Chosen {
            index,
            fault,
            bytes,
        } => {
            let copy = copy_bytes(alloc, bytes)?;
            Ok(Answer::Chosen {
                index: *index,
                fault: *fault,
                bytes: copy,
            })
        }
        Answer::Fault(errno) => Ok(Answer::Fault(*errno)),
    }
}

/// The end of a channel that a thing is.
pub(crate) fn end_of(thing: Thing) -> Option<u64>
    ensures { result ≡ answers.end_of thing }
{
    match thing {
        Thing::End(end) => Some(end),
        _ => None,
    }
}

/// The answer of a clause that has a fault.
fn fault_of(fault: Option<Errno>) -> Option<Answer>
    ensures value { result ≡ if_some fault None (λ e. Some (Fault e)) }
    ensures short { IfSome result (λ a. is_short_answer a ≡ true) }
{
    match fault {
        None => None,
        Some(errno) => Some(Answer::Fault(errno)),
    }
}

impl<B> World<B> {
    fn when_empty(&self, bundle: Option<u64>) -> Option<Answer>
        ensures short { IfSome result (λ a. is_short_answer a ≡ true) }
        ensures value { result ≡ answers.when_empty (world_of self.now) bundle }
    {
        match bundle {
            None => None,
            Some(name) => {
                if self.scopes().is_empty(name) {
                    Some(Answer::Number(0))
                } else {
                    None
                }
            }
        }
    }

    fn bundle_dead_as(&self, number: u64) -> Option<u64>
        ensures { result ≡ answers.bundle_dead_as (world_of self.now) number }
    {
        match find_dead_as(self.closings(), number) {
            None => None,
            Some(found) => Some(found.bundle),
        }
    }

    /// The end of a channel that a live number names.
    pub fn end_named(&self, number: u64) -> Option<u64>
        ensures { result ≡ answers.end_named (world_of self.now) number }
    {
        match self.entry_of(number) {
            None => None,
            Some(found) => end_of(found.thing),
        }
    }

    /// The fault of a send that waits: its end isn't live, or has its end.
    fn send_fault(&self, number: u64) -> Option<Errno>
        ensures { result ≡ answers.clause_fault (world_of self.now) number (Send []) }
    {
        match self.end_named(number) {
            None => Some(Errno::Ebadf),
            Some(end) => {
                if self.channels().send_has_ended(end) {
                    Some(Errno::Epipe)
                } else {
                    None
                }
            }
        }
    }

    /// The fault of a receive that waits: its end isn't live, or has its end.
    fn recv_fault(&self, number: u64) -> Option<Errno>
        ensures { result ≡ answers.clause_fault (world_of self.now) number (Recv 0) }
    {
        match self.end_named(number) {
            None => Some(Errno::Ebadf),
            Some(end) => {
                if self.channels().recv_has_ended(end) {
                    Some(Errno::Epipe)
                } else {
                    None
                }
            }
        }
    }

    fn clause_fault(&self, clause: &Clause) -> Option<Errno>
        ensures { result ≡ answers.clause_fault (world_of self.now) (end_of_clause clause.now) (answers.want_of clause.now) }
    {
        match clause {
            Clause::Send(number, _) => self.send_fault(*number),
            Clause::Recv(number, _) => self.recv_fault(*number),
        }
    }

    /// The least clause of a choice that has a fault.
    fn choice_fault(&self, clauses: &[Clause]) -> Option<Answer>
        requires { length clauses.now ≤ 16 }
        ensures value { result ≡ answers.choice_fault (world_of self.now) 0 clauses.now }
        ensures short { IfSome result (λ a. is_short_answer a ≡ true) }
    {
        let mut index: u32 = 0;
        for clause in clauses {
            if let Some(errno) = self.clause_fault(clause) {
                return Some(Answer::Chosen {
                    index,
                    fault: Some(errno),
                    bytes: None,
                });
            }
            index += 1;
        }
        None
    }

    fn own_answer(&self, call: &Call) -> Option<Answer>
        requires { may_wait call.now ≡ true }
        ensures value { result ≡ answers.own_answer (world_of self.now) call.now }
        ensures short { IfSome result (λ a. is_short_answer a ≡ true) }
    {
        match call {
            Call::BundleWait(number, _) => self.when_empty(self.bundle_named(*number)),
            Call::Hclose(number) => self.when_empty(self.bundle_dead_as(*number)),
            Call::Chsend(number, _, _) => fault_of(self.send_fault(*number)),
            Call::Chrecv(number, _, _) => fault_of(self.recv_fault(*number)),
            Call::Choose(_, clauses) => self.choice_fault(clauses.as_slice()),
            _ => None,
        }
    }

    fn lost_its_number(&self, call: &Call) -> bool
        ensures { result ≡ answers.lost_its_number (world_of self.now) call.now }
    {
        if matches!(call.word(), Word::Hclose) {
            return false;
        }
        match call.handle() {
            None => false,
            Some(number) => self.entry_of(number).is_none(),
        }
    }

    /// What a pending call of a coroutine is answered, if it can be.
    pub fn answer_of(&self, who: u64, call: &Call) -> Option<Answer>
        requires { may_wait call.now ≡ true }
        ensures value { result ≡ answers.answer_of (world_of self.now) who call.now }
        ensures short { IfSome result (λ a. is_short_answer a ≡ true) }
    {
        if call.word().blocks() && self.is_cancelled(who) {
            return Some(Answer::Fault(Errno::Ecanceled));
        }
        if self.lost_its_number(call) {
            return Some(Answer::Fault(Errno::Ebadf));
        }
        self.own_answer(call)
    }
}
