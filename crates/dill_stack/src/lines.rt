ghost use Rattle.std.specs.Prelude.{◌≡◌, ◌≤◌, ◌∷◌, [], length, drop, None, IfSome};
ghost use Rattle.dill_http.specs.Reading.{LiesIn};
ghost use Rattle.dill_stack.specs.Answering.{FitsGiven, KeepsRoom, sizes};
ghost use Rattle.dill_stack.specs.Layers.{Http};
ghost use Rattle.dill_stack.specs.Read.{line_answer, two_of, coded_of, ends_fields, by_line};
ghost use Rattle.dill_stack.specs.Standing.{receives_at};
ghost use Rattle.dill_stack.specs.Taking.{DrawsNone, after, IsWithin, line_read, said_of};

use crate::placed::{Base, HttpLayer, Place};
use crate::room::AnswerRoom;
use crate::stack::Stack;
use crate::want::{ReadOut, Want};
use dill_base::{Errno, Front};
use dill_calls::Answer;
use dill_http::{Cut, Span, line_front, read_field, read_request, read_status};

impl Stack {
    // The line of a head at the front; behind its empty line there is none.
    #[tactic(auto, using(crate::proofs::HeadReads::line_draws))]
    pub(crate) fn read_line(&mut self, want: Want, room: &mut AnswerRoom) -> ReadOut
        requires first { 8192 ≤ room.old.first }
        requires second { 8192 ≤ room.old.second }
        ensures said { result ≡ (line_read want self.old.held).said }
        ensures after { self.new ≡ after (line_read want self.old.held) self.old }
        ensures plain { DrawsNone (line_read want self.old.held) self.old.held }
        ensures kept { KeepsRoom result room.old room.new }
        ensures within { FitsGiven result (sizes 8192 8192) }
    {
        match self.base {
            Base::Http(http) => self.read_head(want, http, room),
            _ => ReadOut::Need,
        }
    }

    // The same where this head is the only layer.
    fn read_head(&mut self, want: Want, http: HttpLayer, room: &mut AnswerRoom) -> ReadOut
        requires first { 8192 ≤ room.old.first }
        requires second { 8192 ≤ room.old.second }
        requires head { self.old.held.layers ≡ Http http ∷ [] }
        ensures said { result ≡ (line_read want self.old.held).said }
        ensures after { self.new ≡ after (line_read want self.old.held) self.old }
        ensures kept { KeepsRoom result room.old room.new }
        ensures within { FitsGiven result (sizes 8192 8192) }
    {
        if http.receiving.is_behind() {
            return ReadOut::Fault(Errno::Epipe);
        }
        match line_front(self.unread.as_slice()) {
            Front::Whole { from, to, used } => self.take_line(want, http, from, to, used, room),
            Front::Need => self.nothing_whole(http.receiving.is_first()),
            Front::Fault(e) => self.refuse(e),
        }
    }

    // The whole line at the front is the empty line, or the answer, or refused.
    fn take_line(
        &mut self,
        want: Want,
        http: HttpLayer,
        from: usize,
        to: usize,
        used: usize,
        room: &mut AnswerRoom,
    ) -> ReadOut
        requires first { 8192 ≤ room.old.first }
        requires second { 8192 ≤ room.old.second }
        requires head { self.old.held.layers ≡ Http http ∷ [] }
        requires within { IsWithin 8192 self.old.held.unread (Front.Whole from to used) }
        ensures said { result ≡ (by_line want http [] self.old.held.unread self.old.held.receiving.done (Front.Whole from to used)).said }
        ensures after { self.new ≡ after (by_line want http [] self.old.held.unread self.old.held.receiving.done (Front.Whole from to used)) self.old }
        ensures kept { KeepsRoom result room.old room.new }
        ensures within { FitsGiven result (sizes 8192 8192) }
    {
        let line = &self.unread.as_slice()[from..to];
        if ends_fields(want, line) {
            self.move_on(Place::BehindEmpty, used);
            return ReadOut::Fault(Errno::Epipe);
        }
        match line_answer(room, want, line) {
            Some(answer) => {
                self.move_on(Place::AmongFields, used);
                ReadOut::Given(answer)
            }
            None => self.refuse(Errno::Eproto),
        }
    }

    // So many bytes are used, and the receiving direction of the head stands here.
    pub(crate) fn move_on(&mut self, place: Place, used: usize)
        requires { used ≤ length self.old.held.unread }
        ensures { self.new ≡ record self.old { held = record self.old.held { layers = receives_at place self.old.held.layers; unread = drop used self.old.held.unread } } }
    {
        self.base.set_received(place);
        self.unread.use_up(used);
    }
}

// An empty line ends the fields.
fn ends_fields(want: Want, line: &[u8]) -> bool
    ensures { result ≡ ends_fields want line.now }
{
    match want {
        Want::Field => line.is_empty(),
        _ => false,
    }
}

// What a receive reads in a line.
fn line_answer(room: &mut AnswerRoom, want: Want, line: &[u8]) -> Option<Answer>
    requires first { length line.now ≤ room.old.first }
    requires second { length line.now ≤ room.old.second }
    ensures answer { result ≡ line_answer want line.now }
    ensures kept { KeepsRoom (said_of result) room.old room.new }
{
    match want {
        Want::Request => two_of(room, line, read_request(line)),
        Want::Status => coded_of(room, line, read_status(line)),
        Want::Field => two_of(room, line, read_field(line)),
        _ => None,
    }
}

// The two parts of a line.
fn two_of(room: &mut AnswerRoom, line: &[u8], cut: Option<Cut>) -> Option<Answer>
    requires first { length line.now ≤ room.old.first }
    requires second { length line.now ≤ room.old.second }
    requires within { IfSome cut (λ c. LiesIn line.now c.first × LiesIn line.now c.second) }
    ensures answer { result ≡ two_of line.now cut }
    ensures kept { KeepsRoom (said_of result) room.old room.new }
{
    match cut {
        Some(cut) => Some(room.give_two(
            &line[cut.first.from..cut.first.to],
            &line[cut.second.from..cut.second.to],
        )),
        None => None,
    }
}

// The code and the reason of a line.
fn coded_of(room: &mut AnswerRoom, line: &[u8], status: Option<(u32, Span)>) -> Option<Answer>
    requires room { length line.now ≤ room.old.first }
    requires within { IfSome status (λ s. LiesIn line.now s.1) }
    ensures answer { result ≡ coded_of line.now status }
    ensures kept { KeepsRoom (said_of result) room.old room.new }
{
    match status {
        Some((code, span)) => {
            let reason = room.give(&line[span.from..span.to]);
            Some(Answer::Coded(code, reason))
        }
        None => None,
    }
}
