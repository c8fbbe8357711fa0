ghost use Rattle.std.specs.Int.{w16, to_be_bytes};
ghost use Rattle.std.specs.List.{list_any};
ghost use Rattle.dill_ws.specs.Frames.{frame_bytes};
ghost use Rattle.std.specs.Prelude.{◌≡◌, ◌≤◌, ◌<◌, ◌==◌, ◌&&◌, ◌++◌, [], not, length, true, Ok, None, if◌then◌else◌};
ghost use Rattle.rand_core.specs.Stream.{Stream};
ghost use Rattle.dill_stack.specs.declared.parting.Parting.{Parting};
ghost use Rattle.dill_stack.specs.Doing.{Ends, IsKey, below_parting};
ghost use Rattle.dill_stack.specs.Composed.{is_masking, random_after};
ghost use Rattle.dill_stack.specs.Refusals.{is_allowed_parting};
ghost use Rattle.dill_stack.specs.Parting.{parting_fault, is_cut_off, with_parting, detach_start, detach_finish, close_payload};
ghost use Rattle.dill_stack.specs.Sending.{is_sent, is_pong, item_of};
ghost use Rattle.dill_stack.specs.Standing.{tower, base_layers, has_end_of, is_top_done, is_frames_top, base_key, closed_base};
ghost use Rattle.dill_stack.specs.Leaving.{all_dropped};
ghost use Rattle.dill_stack.specs.Needs.{parting_need};
ghost use Rattle.dill_stack.specs.Held.{Idle, Leaves, Plain};
ghost use Rattle.dill_stack.specs.Dropping.{is_given};
ghost use Rattle.dill_stack.specs.Receiving.{looked_over};
ghost use Rattle.dill_stack.specs.Sinking.{Sinks};

use crate::dropping::{DROP_LIMIT, DropStep};
use crate::origin::Origin;
use crate::parting::Parting;
use crate::placed::{Base, TermLayer};
use crate::queue::Queue;
use crate::refusals::has_done;
use crate::sending::draw;
use crate::stack::Stack;
use crate::task::Task;
use crate::want::ReadOut;
use dill_base::Errno;
use dill_calls::Answer;
use dill_frames::{prefix_laws, suffix_laws};
use dill_http::http_laws;
use rand_core::Rng;

impl Stack {
    /// A detach begins: the end of the top layer is queued, if it has one and that wasn't sent. It takes no memory.
    ///
    /// ECONNRESET: a direction is broken. EPIPE: it has an end to send, and the direction is done or a layer below has sent
    /// its end.
    pub fn detach_start<R: Rng>(&mut self, parting: &Parting, keys: &mut R) -> Result<(), Errno>
        requires sent { is_sent self.old.held ≡ true }
        requires allowed { is_allowed_parting parting.now ≡ true }
        ensures { Ends (detach_start parting.now (R.stream keys.old) self.old.held) result self.old self.new (R.stream keys.old) (R.stream keys.new) }
    {
        match self.parting_fault() {
            Some(e) => Err(e),
            None => {
                let key = draw(self.masks_parting(), keys);
                self.start(parting, key);
                Ok(())
            }
        }
    }

    // Some layer masks what a detach sends.
    fn masks_parting(&self) -> bool
        ensures { result ≡ list_any is_masking (below_parting self.now.held.layers) }
    {
        masks_parting(self.terms.as_slice(), &self.base)
    }

    // A detach that isn't refused begins.
    fn start(&mut self, parting: &Parting, key: [u8; 4])
        requires sent { is_sent self.old.held ≡ true }
        requires allowed { is_allowed_parting parting.now ≡ true }
        ensures due { (random : Stream) → IsKey key (below_parting self.old.held.layers) random → with_parting parting.now self.old.held.layers random (record self.old.held { task = Leaves }) ≡ Ok (self.new.held, random_after (below_parting self.old.held.layers) random) }
        ensures rest { self.new ≡ record self.old { held = self.new.held } }
    {
        self.task = Task::Leaves;
        self.queue_parting(parting, key);
    }

    /// The errno with which a detach that is past its refusals ends at its entry.
    #[tactic(auto, unfolding(crate::specs::Parting::parting_fault))]
    pub fn parting_fault(&self) -> Option<Errno>
        ensures { result ≡ parting_fault self.now.held }
    {
        if self.is_broken() {
            return Some(Errno::Econnreset);
        }
        if is_cut_off(self.terms.as_slice(), &self.base, self.sending.done) {
            return Some(Errno::Epipe);
        }
        None
    }

    // Queues the end that is still to be sent.
    fn queue_parting(&mut self, parting: &Parting, key: [u8; 4])
        requires sent { is_sent self.old.held ≡ true }
        requires allowed { is_allowed_parting parting.now ≡ true }
        ensures due { (random : Stream) → IsKey key (below_parting self.old.held.layers) random → with_parting parting.now self.old.held.layers random self.old.held ≡ Ok (self.new.held, random_after (below_parting self.old.held.layers) random) }
        ensures rest { self.new ≡ record self.old { held = self.new.held } }
    {
        if is_frames_top(self.terms.as_slice(), &self.base) {
            push_close(&mut self.queue, &mut self.base, parting, key);
            return;
        }
        if has_end(self.terms.as_slice(), &self.base) {
            self.queue_end(key);
        }
    }

    /// A detach goes on: once all that was queued has gone, it drops what is there, and is answered when it has met the
    /// peer's end. Where it awaits more, fewer than 16,416 bytes are unread. It takes no memory.
    ///
    /// EPIPE: the end of a layer below was met, or the peer has ended at a boundary. EPROTO: it has ended inside, or what
    /// stands there is refused. EMSGSIZE: a message has more than 16,384 bytes, or a line more than 8,192.
    pub fn detach_finish<R: Rng>(&mut self, keys: &mut R) -> ReadOut
        ensures said { result ≡ (detach_finish (R.stream keys.old) self.old.held).said }
        ensures stack { self.new ≡ record self.old { held = (detach_finish (R.stream keys.old) self.old.held).stack } }
        ensures random { R.stream keys.new ≡ (detach_finish (R.stream keys.old) self.old.held).random }
        ensures short { result ≡ ReadOut.Need → is_sent self.new.held ≡ true → 1 ≤ length self.old.held.layers → length self.new.held.unread < parting_need }
    {
        prefix_laws();
        suffix_laws();
        http_laws();
        self.stands();
        self.finish(keys)
    }

    // The same, but for what stays unread.
    fn finish<R: Rng>(&mut self, keys: &mut R) -> ReadOut
        ensures look { detach_finish (R.stream keys.old) self.old.held ≡ record { stack = self.new.held; said = result; random = R.stream keys.new } }
        ensures rest { self.new ≡ record self.old { held = self.new.held } }
    {
        self.stands();
        if !self.is_sent() {
            return ReadOut::Need;
        }
        let said = self.drop_all(keys);
        self.rest_if(is_given(&said));
        said
    }

    // Where the detach was answered, it is over.
    fn rest_if(&mut self, answered: bool)
        ensures { self.new ≡ record self.old { held = if answered then record self.old.held { task = Idle } else self.old.held } }
    {
        if answered {
            self.task = Task::Idle;
        }
    }

    // Drops what is there until the peer's end was met.
    fn drop_all<R: Rng>(&mut self, keys: &mut R) -> ReadOut
        ensures look { looked_over (all_dropped self.old.held) (R.stream keys.old) self.old.held ≡ record { stack = self.new.held; said = result; random = R.stream keys.new } }
        ensures rest { self.new ≡ record self.old { held = self.new.held } }
    {
        let most = self.unread_count();
        for _item in 0..most + 1 {
            match self.drop_next(keys) {
                DropStep::Item => {}
                DropStep::End => return ReadOut::Given(Answer::Number(0)),
                DropStep::Stops(said) => return said,
            }
        }
        ReadOut::Need
    }

    // A frame at the front is passed, or an item is dropped.
    fn drop_next<R: Rng>(&mut self, keys: &mut R) -> DropStep
        ensures { Sinks result self.old self.new (R.stream keys.old) (R.stream keys.new) }
    {
        prefix_laws();
        suffix_laws();
        http_laws();
        self.stands();
        if self.pass_next(DROP_LIMIT, keys) {
            return DropStep::Item;
        }
        self.drop_one()
    }
}

// It is an answer.
fn is_given(said: &ReadOut) -> bool
    ensures { result ≡ is_given said.now }
{
    match said {
        ReadOut::Given(_) => true,
        _ => false,
    }
}

// The top layer has an end to send.
fn has_end(terms: &[TermLayer], base: &Base) -> bool
    ensures { result ≡ has_end_of (tower terms.now (base_layers base.now)) }
{
    match terms.first() {
        Some(term) => !term.done,
        None => base.has_end(),
    }
}

// It has an end to send, and nothing more is sent below it.
fn is_cut_off(terms: &[TermLayer], base: &Base, done: bool) -> bool
    ensures { result ≡ is_cut_off (tower terms.now (base_layers base.now)) done }
{
    match terms.split_first() {
        Some((term, below)) => !term.done && (done || has_done(below, base)),
        None => base.has_end() && done,
    }
}

// A WebSocket layer is on top.
fn is_frames_top(terms: &[TermLayer], base: &Base) -> bool
    ensures { result ≡ is_frames_top (tower terms.now (base_layers base.now)) }
{
    match terms {
        [] => base.is_frames(),
        [_, ..] => false,
    }
}

// Some layer masks what a detach sends.
fn masks_parting(terms: &[TermLayer], base: &Base) -> bool
    ensures { result ≡ list_any is_masking (below_parting (tower terms.now (base_layers base.now))) }
{
    match terms {
        [] => base.masks(),
        [_, ..] => masks_undone(terms, base),
    }
}

// The same where an end by a terminal message is on top.
fn masks_undone(terms: &[TermLayer], base: &Base) -> bool
    requires { 1 ≤ length terms.now }
    ensures { result ≡ list_any is_masking (below_parting (tower terms.now (base_layers base.now))) }
{
    if is_top_done(terms) {
        return false;
    }
    base.masks()
}

// The end of the top layer was sent.
fn is_top_done(terms: &[TermLayer]) -> bool
    ensures { result ≡ is_top_done terms.now }
{
    match terms.first() {
        Some(term) => term.done,
        None => false,
    }
}

// Queues the close frame of the WebSocket layer on the link. It takes no memory.
fn push_close(queue: &mut Queue, base: &mut Base, parting: &Parting, key: [u8; 4])
    requires allowed { is_allowed_parting parting.now ≡ true }
    requires sent { not (list_any (λ item. not (is_pong item)) queue.old.items) ≡ true }
    requires room { 2048 ≤ queue.old.room }
    ensures queued { queue.new ≡ record queue.old { items = queue.old.items ++ item_of Plain (frame_bytes true 8 (base_key base.old key) (close_payload parting.now)) } }
    ensures closed { base.new ≡ closed_base base.old }
{
    let key = base.close(key);
    match parting {
        Parting::Plain => queue.push_frame(Origin::Plain, 8, key, &[]),
        Parting::Close { code, reason } => push_reason(queue, key, *code, reason.as_slice()),
    }
}

// Queues a close frame with this code and reason.
fn push_reason(queue: &mut Queue, key: Option<[u8; 4]>, code: u16, reason: &[u8])
    requires short { length reason.now ≤ 123 }
    requires sent { not (list_any (λ item. not (is_pong item)) queue.old.items) ≡ true }
    requires room { 2048 ≤ queue.old.room }
    ensures { queue.new ≡ record queue.old { items = queue.old.items ++ item_of Plain (frame_bytes true 8 key (if code == 0 && length reason.now == 0 then [] else to_be_bytes w16 code ++ reason.now)) } }
{
    if code == 0 && reason.is_empty() {
        queue.push_frame(Origin::Plain, 8, key, &[]);
        return;
    }
    let count = reason.len();
    let mut payload = [0; 125];
    payload[..2].copy_from_slice(&code.to_be_bytes());
    payload[2..2 + count].copy_from_slice(reason);
    queue.push_frame(Origin::Plain, 8, key, &payload[..2 + count]);
}
