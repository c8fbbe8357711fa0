ghost use Rattle.std.specs.Prelude.{◌≡◌, ◌≤◌, ◌<◌, ◌∷◌, [], length, drop, is_some, true, None};
ghost use Rattle.dill_stack.specs.Layers.{Http};
ghost use Rattle.dill_stack.specs.Dropping.{drop_line};
ghost use Rattle.dill_stack.specs.Leaving.{below_layers, close_dropped, joined_dropped, top_met, step_of, outcome_of, next_dropped, sifted_message, is_top_met, below_top, step_at, terms_at};
ghost use Rattle.dill_stack.specs.Read.{no_more};
ghost use Rattle.dill_stack.specs.Receiving.{ws_of};
ghost use Rattle.dill_stack.specs.Standing.{ends_of};
ghost use Rattle.dill_stack.specs.Stepping.{next_pass};
ghost use Rattle.dill_stack.specs.Taking.{behind, IsWithin};

use crate::layer::Top;
use crate::placed::{Base, HttpLayer, Place, TermLayer};
use crate::receiving::{any_met, front_on_link, lowest_of, meet_at};
use crate::seeing::Seen;
use crate::stack::Stack;
use crate::want::ReadOut;
use dill_base::{Errno, Front};
use dill_http::line_front;

/// The most bytes of a message that a detach drops.
pub(crate) const DROP_LIMIT: usize = 16_384;

/// What a detach does with the item at the front: it drops it, or it is the peer's end, or the detach stops.
#[derive(Debug, Drop)]
pub(crate) enum DropStep {
    Item,
    End,
    Stops(ReadOut),
}

impl Stack {
    // One item at the front is dropped, or is the end, after which the layers below are left. It passes no frame.
    pub(crate) fn drop_one(&mut self) -> DropStep
        requires last { next_pass 16384 self.old.held ≡ None }
        ensures step { result ≡ step_of (next_dropped self.old.held) }
        ensures after { self.new ≡ record self.old { held = behind (outcome_of (next_dropped self.old.held)) self.old.held } }
    {
        self.stands();
        if self.has_frames() {
            return self.drop_frames();
        }
        self.drop_framed()
    }

    // The same over a WebSocket layer.
    fn drop_frames(&mut self) -> DropStep
        requires last { next_pass 16384 self.old.held ≡ None }
        requires framed { is_some (ws_of self.old.held.layers) ≡ true }
        ensures step { result ≡ step_of (next_dropped self.old.held) }
        ensures after { self.new ≡ record self.old { held = behind (outcome_of (next_dropped self.old.held)) self.old.held } }
    {
        self.stands();
        if self.has_top_met() {
            self.leave();
            return DropStep::End;
        }
        if self.has_met() {
            return DropStep::Stops(ReadOut::Fault(Errno::Epipe));
        }
        match self.see(DROP_LIMIT) {
            Seen::Message => self.drop_joined(),
            Seen::Close => self.drop_close(),
            Seen::Open(boundary) => DropStep::Stops(self.awaits(boundary)),
            Seen::Refused(e) => DropStep::Stops(ReadOut::Fault(e)),
        }
    }

    // The end of the top layer was met.
    fn has_top_met(&self) -> bool
        ensures { result ≡ top_met self.now.held.layers }
    {
        match self.terms.as_slice() {
            [] => self.base.is_met(),
            [_, ..] => is_top_met(self.terms.as_slice()),
        }
    }

    // The top layer is left.
    fn leave(&mut self)
        requires { is_some (ws_of self.old.held.layers) ≡ true }
        ensures { self.new ≡ record self.old { held = record self.old.held { layers = below_layers self.old.held.layers } } }
    {
        match self.terms.as_slice() {
            [] => self.base = Base::Bytes,
            [_, ..] => leave_top(&mut self.terms),
        }
    }

    // Nothing whole is there, which may be a boundary between two items.
    fn awaits(&self, boundary: bool) -> ReadOut
        ensures { result ≡ no_more self.now.held.receiving.done boundary self.now.held.unread }
    {
        no_more(self.receiving.done, boundary, self.unread.as_slice())
    }

    // The message that was joined is dropped, or is the end of a layer.
    fn drop_joined(&mut self) -> DropStep
        requires { is_some (ws_of self.old.held.layers) ≡ true }
        ensures step { result ≡ step_of (joined_dropped self.old.held) }
        ensures after { self.new ≡ record self.old { held = behind (outcome_of (joined_dropped self.old.held)) self.old.held } }
    {
        match lowest_of(self.terms.as_slice(), self.base.joined()) {
            Some(at) => {
                let step = meet_end(&mut self.terms, at);
                self.base.empty();
                step
            }
            None => {
                self.base.empty();
                DropStep::Item
            }
        }
    }

    // A close frame is the end, or cuts off the detach of a layer above.
    fn drop_close(&mut self) -> DropStep
        requires { is_some (ws_of self.old.held.layers) ≡ true }
        ensures step { result ≡ step_of (close_dropped self.old.held.layers) }
        ensures after { self.new ≡ record self.old { held = behind (outcome_of (close_dropped self.old.held.layers)) self.old.held } }
    {
        match self.top() {
            Top::Term => DropStep::Stops(ReadOut::Fault(Errno::Epipe)),
            _ => {
                self.leave();
                DropStep::End
            }
        }
    }

    // One item where no WebSocket layer stands below.
    fn drop_framed(&mut self) -> DropStep
        requires plain { ws_of self.old.held.layers ≡ None }
        ensures step { result ≡ step_of (next_dropped self.old.held) }
        ensures after { self.new ≡ record self.old { held = behind (outcome_of (next_dropped self.old.held)) self.old.held } }
    {
        match self.terms.as_slice() {
            [] => self.drop_on_link(),
            [_, ..] => self.drop_under_end(),
        }
    }

    // The same where an end by a terminal message is on top.
    fn drop_under_end(&mut self) -> DropStep
        requires plain { ws_of self.old.held.layers ≡ None }
        requires top { 1 ≤ length (ends_of self.old.held.layers) }
        ensures step { result ≡ step_of (next_dropped self.old.held) }
        ensures after { self.new ≡ record self.old { held = behind (outcome_of (next_dropped self.old.held)) self.old.held } }
    {
        if is_top_met(self.terms.as_slice()) {
            leave_top(&mut self.terms);
            return DropStep::End;
        }
        if any_met(self.terms.as_slice()) {
            return DropStep::Stops(ReadOut::Fault(Errno::Epipe));
        }
        match front_on_link(&self.base, self.unread.as_slice(), DROP_LIMIT) {
            Front::Whole { from, to, used } => self.drop_message(from, to, used),
            Front::Need => DropStep::Stops(no_more(
                self.receiving.done,
                true,
                self.unread.as_slice(),
            )),
            Front::Fault(e) => DropStep::Stops(ReadOut::Fault(e)),
        }
    }

    // The same where no end by a terminal message stands.
    fn drop_on_link(&mut self) -> DropStep
        requires plain { ws_of self.old.held.layers ≡ None }
        requires bare { ends_of self.old.held.layers ≡ [] }
        ensures step { result ≡ step_of (next_dropped self.old.held) }
        ensures after { self.new ≡ record self.old { held = behind (outcome_of (next_dropped self.old.held)) self.old.held } }
    {
        match self.base {
            Base::Bytes => DropStep::Stops(ReadOut::Need),
            Base::Http(http) => self.drop_line(http),
            _ => {
                self.leave_link(0);
                DropStep::End
            }
        }
    }

    // The layer on the link is left, and so many bytes are used.
    fn leave_link(&mut self, used: usize)
        requires bare { ends_of self.old.held.layers ≡ [] }
        requires within { used ≤ length self.old.held.unread }
        ensures { self.new ≡ record self.old { held = record self.old.held { layers = []; unread = drop used self.old.held.unread } } }
    {
        self.base = Base::Bytes;
        self.unread.use_up(used);
    }

    // The whole message at the front is dropped, or is the end of a layer.
    fn drop_message(&mut self, from: usize, to: usize, used: usize) -> DropStep
        requires within { IsWithin 16384 self.old.held.unread (Front.Whole from to used) }
        requires top { 1 ≤ length (ends_of self.old.held.layers) }
        ensures step { result ≡ step_of (sifted_message from to used self.old.held) }
        ensures after { self.new ≡ record self.old { held = behind (outcome_of (sifted_message from to used self.old.held)) self.old.held } }
    {
        let message = &self.unread.as_slice()[from..to];
        match lowest_of(self.terms.as_slice(), message) {
            Some(at) => {
                let step = meet_end(&mut self.terms, at);
                self.unread.use_up(used);
                step
            }
            None => {
                self.unread.use_up(used);
                DropStep::Item
            }
        }
    }

    // A line of the head on the link is dropped, or is its end.
    fn drop_line(&mut self, http: HttpLayer) -> DropStep
        requires head { self.old.held.layers ≡ Http http ∷ [] }
        ensures step { result ≡ step_of (next_dropped self.old.held) }
        ensures after { self.new ≡ record self.old { held = behind (outcome_of (next_dropped self.old.held)) self.old.held } }
    {
        if http.receiving.is_behind() {
            self.leave_link(0);
            return DropStep::End;
        }
        match line_front(self.unread.as_slice()) {
            Front::Whole { from, to, used } => self.drop_whole(http, from, to, used),
            Front::Need => DropStep::Stops(no_more(
                self.receiving.done,
                http.receiving.is_first(),
                self.unread.as_slice(),
            )),
            Front::Fault(e) => DropStep::Stops(ReadOut::Fault(e)),
        }
    }

    // The whole line at the front; an empty one is the end, but none stands before the first line.
    fn drop_whole(&mut self, http: HttpLayer, from: usize, to: usize, used: usize) -> DropStep
        requires head { self.old.held.layers ≡ Http http ∷ [] }
        requires within { IsWithin 8192 self.old.held.unread (Front.Whole from to used) }
        ensures step { result ≡ step_of (drop_line http [] self.old.held.unread self.old.held.receiving.done (Front.Whole from to used)) }
        ensures after { self.new ≡ record self.old { held = behind (outcome_of (drop_line http [] self.old.held.unread self.old.held.receiving.done (Front.Whole from to used))) self.old.held } }
    {
        if from != to {
            self.move_on(Place::AmongFields, used);
            return DropStep::Item;
        }
        if http.receiving.is_first() {
            return DropStep::Stops(ReadOut::Fault(Errno::Eproto));
        }
        self.leave_link(used);
        DropStep::End
    }
}

// The peer's end of the top layer was met.
fn is_top_met(terms: &[TermLayer]) -> bool
    ensures { result ≡ is_top_met terms.now }
{
    match terms.first() {
        Some(term) => term.met,
        None => false,
    }
}

// The top layer is left.
fn leave_top(terms: &mut Vec<TermLayer>)
    requires { 1 ≤ length terms.old.items }
    ensures { terms.new.items ≡ below_top terms.old.items }
{
    let _ = terms.remove(0);
}

// The end of the layer at this place stands at the front: that of the top is the end, and one below cuts the detach off.
fn meet_end(terms: &mut Vec<TermLayer>, at: usize) -> DropStep
    requires { at < length terms.old.items }
    ensures step { result ≡ step_at at }
    ensures terms { terms.new.items ≡ terms_at at terms.old.items }
{
    if at == 0 {
        leave_top(terms);
        return DropStep::End;
    }
    meet_at(terms, at);
    DropStep::Stops(ReadOut::Fault(Errno::Epipe))
}

// Nothing whole is at the front, which may be a boundary between two items.
pub(crate) fn no_more(ended: bool, boundary: bool, unread: &[u8]) -> ReadOut
    ensures { result ≡ no_more ended boundary unread.now }
{
    if !ended {
        return ReadOut::Need;
    }
    if boundary && unread.is_empty() {
        return ReadOut::Fault(Errno::Epipe);
    }
    ReadOut::Fault(Errno::Eproto)
}
