ghost use Rattle.std.specs.Prelude.{◌≡◌, ◌≤◌, length, IfOk, IfSome};
ghost use Rattle.dill_calls.specs.declared.answer.Answer.TheVariants as answer;
ghost use Rattle.dill_stack.specs.Answering.{FitsAnswer, HasRoom, second_of, size_of};

use crate::want::Want;
use dill_base::{NoMemory, Octets, Room};
use dill_calls::Answer;
use std::alloc::Global;
use std::marker::Model;

/// The most bytes of a line, without its CRLF.
const LINE_LIMIT: usize = 8_192;

/// Room for the answer of a receive, which comes with the call: for its bytes or its first part, and for a second part.
#[derive(Drop)]
pub struct AnswerRoom {
    first: Room,
    second: Room,
}

impl Model for AnswerRoom {
    ghost use Rattle.dill_stack.specs.Answering.{Sizes};

    ghost Value = { Sizes };

    ghost view = { λ r. record { first = r.first; second = r.second } };
}

impl AnswerRoom {
    /// Room for what this receive may answer.
    pub fn new(alloc: Global, want: Want) -> Result<AnswerRoom, NoMemory>
        ensures { IfOk result (λ r. HasRoom want r) }
    {
        let mut first = Room::new(alloc);
        first.make_room(answer_size(want))?;
        let mut second = Room::new(alloc);
        second.make_room(second_size(want))?;
        Ok(AnswerRoom { first, second })
    }

    /// A copy of an answer. It takes no memory.
    pub fn copy(&mut self, answer: &Answer) -> Answer
        requires { FitsAnswer answer.now self.old }
        ensures { result ≡ answer.now }
    {
        match answer {
            Answer::Number(number) => Answer::Number(*number),
            Answer::Pair(one, other) => Answer::Pair(*one, *other),
            Answer::Bytes(bytes) => Answer::Bytes(self.give(bytes.as_slice())),
            Answer::Two(first, second) => self.give_two(first.as_slice(), second.as_slice()),
            Answer::Coded(code, reason) => Answer::Coded(*code, self.give(reason.as_slice())),
            Answer::Chosen {
                index,
                fault,
                bytes,
            } => Answer::Chosen {
                index: *index,
                fault: *fault,
                bytes: self.give_some(bytes),
            },
            Answer::Fault(e) => Answer::Fault(*e),
        }
    }

    // Bytes are handed out.
    pub(crate) fn give(&mut self, bytes: &[u8]) -> Octets
        requires { length bytes.now ≤ self.old.first }
        ensures { result ≡ bytes.now }
    {
        self.first.hand_out(bytes)
    }

    // The same, if there are any.
    fn give_some(&mut self, bytes: &Option<Octets>) -> Option<Octets>
        requires { IfSome bytes.now (λ b. length b ≤ self.old.first) }
        ensures { result ≡ bytes.now }
    {
        match bytes {
            Some(bytes) => Some(self.give(bytes.as_slice())),
            None => None,
        }
    }

    // The two parts of an answer are handed out.
    pub(crate) fn give_two(&mut self, first: &[u8], second: &[u8]) -> Answer
        requires first { length first.now ≤ self.old.first }
        requires second { length second.now ≤ self.old.second }
        ensures { result ≡ answer.Two first.now second.now }
    {
        let one = self.first.hand_out(first);
        let other = self.second.hand_out(second);
        Answer::Two(one, other)
    }
}

// The most bytes of an answer, or of its first part.
fn answer_size(want: Want) -> usize
    ensures { result ≡ size_of want }
{
    match want {
        Want::Exact(size) => size,
        Want::Message(limit) => limit,
        _ => LINE_LIMIT,
    }
}

// The most bytes of its second part.
fn second_size(want: Want) -> usize
    ensures { result ≡ second_of want }
{
    match want {
        Want::Exact(_) => 0,
        Want::Message(_) => 0,
        _ => LINE_LIMIT,
    }
}
