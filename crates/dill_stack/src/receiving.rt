ghost use Rattle.std.specs.Prelude.{◌≡◌, ◌≤◌, ◌<◌, ◌+◌, ◌-◌, length, max, is_some, true, None, OnOk, OnErr, IfSome};
ghost use Rattle.dill_stack.specs.Answering.{FitsGiven, HasRoom, KeepsRoom, Sizes, room_of, sizes};
ghost use Rattle.dill_stack.specs.Formed.{IsFormed};
ghost use Rattle.dill_stack.specs.Needs.{limit_of_want, need, unread_bound};
ghost use Rattle.dill_stack.specs.declared.want.Want.TheVariants as want;
ghost use Rattle.dill_stack.specs.Layers.{HasMessages, IsStanding};
ghost use Rattle.dill_stack.specs.Read.{no_more};
ghost use Rattle.dill_stack.specs.Receiving.{read, read_of, ws_of, broken_by};
ghost use Rattle.dill_stack.specs.Refusals.{is_met};
ghost use Rattle.dill_stack.specs.Seeing.{joined_given, joined_in};
ghost use Rattle.dill_stack.specs.Stepping.{PassesNothing, next_pass};
ghost use Rattle.dill_stack.specs.Standing.{FitsBase, IsDroppable};
ghost use Rattle.dill_stack.specs.Taking.{DrawsNone, FitsTop, after, base_front, IsWithin, any_met, lowest, meet, taken};

use crate::attaching::JOINED;
use crate::layer::Top;
use crate::placed::{Base, TermLayer};
use crate::refusals::has_met;
use crate::room::AnswerRoom;
use crate::seeing::Seen;
use crate::stack::Stack;
use crate::want::{ReadOut, Want};
use dill_base::{Errno, Front, NoMemory};
use dill_calls::Answer;
use dill_frames::{is_terminal, prefix_laws, prefix_read, suffix_laws, suffix_read};
use dill_http::http_laws;
use rand_core::Rng;

/// The most bytes that one read of the link brings.
const PIECE: usize = 4_096;

/// The most bytes of what spells a message besides it.
const SPELLING: usize = 32;

/// The unread bytes for which there is room besides one more read, whatever a receive asks for.
const FIRST_NEED: usize = 28_672;

// What stands at the front for the layer on the link.
pub(crate) fn front_on_link(base: &Base, bytes: &[u8], limit: usize) -> Front
    requires { FitsBase base.now }
    ensures front { result ≡ base_front base.now bytes.now limit }
    ensures within { IsWithin limit bytes.now result }
{
    match base {
        Base::Bytes => Front::Need,
        Base::Prefix(form) => prefix_read(*form, bytes, limit),
        Base::Suffix(end) => suffix_read(end.as_slice(), bytes, limit),
        Base::Http(_) => Front::Need,
        Base::Ws(_) => Front::Need,
    }
}

// The end of some layer was met.
pub(crate) fn any_met(terms: &[TermLayer]) -> bool
    ensures { result ≡ any_met terms.now }
{
    terms.iter().any(|term| term.met)
}

// The lowest layer of which this is the terminal message.
pub(crate) fn lowest_of(terms: &[TermLayer], message: &[u8]) -> Option<usize>
    ensures { result ≡ lowest terms.now message.now }
{
    let count = terms.len();
    for back in 0..count {
        let at = count - 1 - back;
        if is_terminal(terms[at].terminal.as_slice(), message) {
            return Some(at);
        }
    }
    None
}

pub(crate) fn meet_at(terms: &mut Vec<TermLayer>, at: usize)
    requires { at < length terms.old.items }
    ensures { terms.new.items ≡ meet at terms.old.items }
{
    terms[at].met = true;
}

// The bytes that it asks for by a number.
fn limit_of(want: Want) -> usize
    ensures { result ≡ limit_of_want want }
{
    match want {
        Want::Exact(size) => size,
        Want::Message(limit) => limit,
        _ => 0,
    }
}

// Room for one more read where this is the most that a receive has asked for, unless it is more than can be told.
fn unread_room(most: usize) -> Option<usize>
    ensures { IfSome result (λ n. n ≡ unread_bound most + 4096) }
{
    let Some(needed) = most.checked_add(SPELLING) else {
        return None;
    };
    needed.max(FIRST_NEED).checked_add(PIECE)
}

impl Stack {
    /// Makes room for what this receive may need, and for what it joins. Refused, it changes nothing.
    pub fn reserve(&mut self, want: Want) -> Result<(), NoMemory>
        ensures ok { OnOk result (self.new ≡ record self.old { most = max self.old.most (limit_of_want want) }) }
        ensures err { OnErr result (self.new ≡ self.old) }
    {
        let most = self.most.max(limit_of(want));
        let Some(room) = unread_room(most) else {
            return Err(NoMemory);
        };
        self.unread.make_room(room)?;
        self.base.make_room(JOINED.max(most))?;
        self.most = most;
        Ok(())
    }

    /// The answer to this receive, from all that is unread. Where more bytes are awaited, fewer are unread than it may
    /// need, so that there is room for another 4,096. Where the top has no such items, more are awaited. It takes no memory.
    ///
    /// EPIPE: an end stands there or was met before, or the peer has ended at a boundary; for bytes, fewer are there than
    /// asked. EPROTO: the peer has ended inside, or what stands there is refused. EMSGSIZE: it passes the limit. The last
    /// two break the receiving direction.
    pub fn read<R: Rng>(&mut self, want: Want, room: &mut AnswerRoom, keys: &mut R) -> ReadOut
        requires room { HasRoom want room.old }
        requires reserved { limit_of_want want ≤ self.old.most }
        ensures said { result ≡ (read want (R.stream keys.old) self.old.held).said }
        ensures stack { self.new ≡ record self.old { held = (read want (R.stream keys.old) self.old.held).stack } }
        ensures random { R.stream keys.new ≡ (read want (R.stream keys.old) self.old.held).random }
        ensures kept { KeepsRoom result room.old room.new }
        ensures copied { (r : Sizes) → HasRoom want r → FitsGiven result r }
        ensures short { FitsTop want self.old.held.layers → result ≡ ReadOut.Need → length self.new.held.unread < need want self.old.held }
        ensures ready { FitsTop want self.old.held.layers → result ≡ ReadOut.Need → length self.new.held.unread ≤ unread_bound self.new.most }
    {
        prefix_laws();
        suffix_laws();
        http_laws();
        self.stands();
        self.pass_frames(want, keys);
        self.look(want, room)
    }

    /// Its layers stand on one another as they may, with short lengths, terminators and terminal messages.
    pub fn stands(&self)
        ensures standing { IsStanding self.now.held.layers }
        ensures formed { IsFormed self.now.held.layers }
        ensures bounded { 1 ≤ length self.now.held.layers → IsDroppable self.now.held.layers }
    {
        let _ = &self.base;
    }

    // The answer to this receive, which passes nothing more and draws no random number.
    fn look(&mut self, want: Want, room: &mut AnswerRoom) -> ReadOut
        requires room { HasRoom want room.old }
        requires joined { limit_of_want want ≤ max 16384 self.old.most }
        requires last { PassesNothing want self.old.held }
        ensures said { result ≡ (read_of want self.old.held).said }
        ensures after { self.new ≡ after (read_of want self.old.held) self.old }
        ensures plain { DrawsNone (read_of want self.old.held) self.old.held }
        ensures kept { KeepsRoom result room.old room.new }
        ensures within { FitsGiven result (room_of want) }
    {
        match want {
            Want::Exact(count) => self.read_exactly(count, room),
            Want::Message(limit) => self.read_message(limit, room),
            _ => self.read_line(want, room),
        }
    }

    #[tactic(auto, using(crate::proofs::TowerReads::draws_none), unfolding(crate::specs::Read::read_list))]
    fn read_exactly(&mut self, count: usize, room: &mut AnswerRoom) -> ReadOut
        requires { count ≤ room.old.first }
        ensures said { result ≡ (read_of (want.Exact count) self.old.held).said }
        ensures after { self.new ≡ after (read_of (want.Exact count) self.old.held) self.old }
        ensures plain { DrawsNone (read_of (want.Exact count) self.old.held) self.old.held }
        ensures kept { KeepsRoom result room.old room.new }
        ensures within { FitsGiven result (sizes count 0) }
    {
        if self.unread.as_slice().len() < count {
            return if self.receiving.done {
                ReadOut::Fault(Errno::Epipe)
            } else {
                ReadOut::Need
            };
        }
        let given = room.give(&self.unread.as_slice()[..count]);
        self.unread.use_up(count);
        ReadOut::Given(Answer::Bytes(given))
    }

    // A message. Bytes and a head have none.
    #[tactic(auto, using(crate::proofs::TowerReads::draws_plain))]
    fn read_message(&mut self, limit: usize, room: &mut AnswerRoom) -> ReadOut
        requires room { limit ≤ room.old.first }
        requires joined { limit ≤ max 16384 self.old.most }
        requires last { next_pass limit self.old.held ≡ None }
        ensures said { result ≡ (read_of (want.Message limit) self.old.held).said }
        ensures after { self.new ≡ after (read_of (want.Message limit) self.old.held) self.old }
        ensures plain { DrawsNone (read_of (want.Message limit) self.old.held) self.old.held }
        ensures kept { KeepsRoom result room.old room.new }
        ensures within { FitsGiven result (sizes limit 0) }
    {
        if self.has_frames() {
            return self.read_frames(limit, room);
        }
        match self.top() {
            Top::Bytes => ReadOut::Need,
            Top::Http => ReadOut::Need,
            _ => self.read_framed(limit, room),
        }
    }

    // A WebSocket layer is on the link.
    pub(crate) fn has_frames(&self) -> bool
        ensures { result ≡ is_some (ws_of self.now.held.layers) }
    {
        self.base.is_frames()
    }

    // A message in the framing on the link.
    #[tactic(auto, using(crate::proofs::TowerReads::draws_plain))]
    fn read_framed(&mut self, limit: usize, room: &mut AnswerRoom) -> ReadOut
        requires room { limit ≤ room.old.first }
        requires fits { HasMessages self.old.held.layers }
        requires plain { ws_of self.old.held.layers ≡ None }
        ensures said { result ≡ (read_of (want.Message limit) self.old.held).said }
        ensures after { self.new ≡ after (read_of (want.Message limit) self.old.held) self.old }
        ensures plain { DrawsNone (read_of (want.Message limit) self.old.held) self.old.held }
        ensures kept { KeepsRoom result room.old room.new }
        ensures within { FitsGiven result (sizes limit 0) }
    {
        if any_met(self.terms.as_slice()) {
            return ReadOut::Fault(Errno::Epipe);
        }
        match front_on_link(&self.base, self.unread.as_slice(), limit) {
            Front::Whole { from, to, used } => self.take_message(from, to, used, room),
            Front::Need => self.nothing_whole(true),
            Front::Fault(e) => self.refuse(e),
        }
    }

    // A message of the WebSocket layer on the link, which passes nothing more.
    fn read_frames(&mut self, limit: usize, room: &mut AnswerRoom) -> ReadOut
        requires room { limit ≤ room.old.first }
        requires joined { limit ≤ max 16384 self.old.most }
        requires last { next_pass limit self.old.held ≡ None }
        requires framed { is_some (ws_of self.old.held.layers) ≡ true }
        ensures said { result ≡ (read_of (want.Message limit) self.old.held).said }
        ensures after { self.new ≡ after (read_of (want.Message limit) self.old.held) self.old }
        ensures plain { DrawsNone (read_of (want.Message limit) self.old.held) self.old.held }
        ensures kept { KeepsRoom result room.old room.new }
        ensures within { FitsGiven result (sizes limit 0) }
    {
        self.stands();
        if self.has_met() {
            return ReadOut::Fault(Errno::Epipe);
        }
        match self.see(limit) {
            Seen::Message => self.give_joined(room),
            Seen::Close => ReadOut::Fault(Errno::Epipe),
            Seen::Open(boundary) => self.nothing_whole(boundary),
            Seen::Refused(e) => self.refuse(e),
        }
    }

    // The end of some layer was met.
    pub(crate) fn has_met(&self) -> bool
        ensures { result ≡ is_met self.now.held.layers }
    {
        has_met(self.terms.as_slice(), &self.base)
    }

    // The message that was joined is an end of a layer, or the answer.
    fn give_joined(&mut self, room: &mut AnswerRoom) -> ReadOut
        requires { length (joined_in self.old.held.layers) ≤ room.old.first }
        ensures said { result ≡ (joined_given self.old.held).said }
        ensures after { self.new ≡ after (joined_given self.old.held) self.old }
        ensures kept { KeepsRoom result room.old room.new }
        ensures within { FitsGiven result (sizes (length (joined_in self.old.held.layers)) 0) }
    {
        match lowest_of(self.terms.as_slice(), self.base.joined()) {
            Some(at) => {
                meet_at(&mut self.terms, at);
                self.base.empty();
                ReadOut::Fault(Errno::Epipe)
            }
            None => {
                let given = room.give(self.base.joined());
                self.base.empty();
                ReadOut::Given(Answer::Bytes(given))
            }
        }
    }

    // The whole message at the front is an end of a layer, or the answer.
    fn take_message(
        &mut self,
        from: usize,
        to: usize,
        used: usize,
        room: &mut AnswerRoom,
    ) -> ReadOut
        requires { IsWithin room.old.first self.old.held.unread (Front.Whole from to used) }
        ensures said { result ≡ (taken from to used self.old.held).said }
        ensures after { self.new ≡ after (taken from to used self.old.held) self.old }
        ensures kept { KeepsRoom result room.old room.new }
        ensures within { FitsGiven result (sizes (to - from) 0) }
    {
        let message = &self.unread.as_slice()[from..to];
        match lowest_of(self.terms.as_slice(), message) {
            Some(at) => {
                meet_at(&mut self.terms, at);
                self.unread.use_up(used);
                ReadOut::Fault(Errno::Epipe)
            }
            None => {
                let given = room.give(message);
                self.unread.use_up(used);
                ReadOut::Given(Answer::Bytes(given))
            }
        }
    }

    // Nothing whole is at the front, which may be a boundary between two items.
    pub(crate) fn nothing_whole(&mut self, boundary: bool) -> ReadOut
        ensures said { result ≡ no_more self.old.held.receiving.done boundary self.old.held.unread }
        ensures after { self.new ≡ record self.old { held = broken_by result self.old.held } }
    {
        if !self.receiving.done {
            return ReadOut::Need;
        }
        if boundary && self.unread.as_slice().is_empty() {
            return ReadOut::Fault(Errno::Epipe);
        }
        self.refuse(Errno::Eproto)
    }

    // A refusal, which may break the receiving direction.
    pub(crate) fn refuse(&mut self, e: Errno) -> ReadOut
        ensures said { result ≡ ReadOut.Fault e }
        ensures after { self.new ≡ record self.old { held = broken_by (ReadOut.Fault e) self.old.held } }
    {
        match e {
            Errno::Eproto => self.receiving.broken = true,
            Errno::Emsgsize => self.receiving.broken = true,
            _ => {}
        }
        ReadOut::Fault(e)
    }
}
