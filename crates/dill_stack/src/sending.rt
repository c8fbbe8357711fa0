ghost use Rattle.std.specs.Prelude.{◌≡◌, ◌+◌, ◌≤◌, ◌++◌, [], not, length, true, false, None, Ok, OnOk, OnErr, IfErr, if◌then◌else◌};
ghost use Rattle.dill_stack.specs.declared.fault.StackFault.TheVariants as fault;
ghost use Rattle.dill_stack.specs.Composed.{drawn_key, is_masking, random_after};
ghost use Rattle.std.specs.List.{list_any};
ghost use Rattle.rand_core.specs.Stream.{Stream};
ghost use Rattle.dill_stack.specs.Held.{Line, Plain};
ghost use Rattle.dill_stack.specs.Layers.{AmongFields};
ghost use Rattle.dill_stack.specs.Refusals.{send_fault};
ghost use Rattle.dill_stack.specs.Doing.{Sends, Ends, Changes, IsKey, on_link, below_end};
ghost use Rattle.dill_stack.specs.Standing.{FitsBase, HasEnds, base_at_place, base_layers, tower, ends_of, ending_of, done_top, undone_top};
ghost use Rattle.dill_stack.specs.Sending.{is_sent, is_pong, item_of, sending_place, done, with_end, frame, line as lined, queued, with_line, withdraw, reopened, taken_back};

use crate::fault::StackFault;
use crate::framing::{FRAMING, push_framed};
use crate::layer::Top;
use crate::origin::Origin;
use crate::placed::{Base, Place, TermLayer};
use crate::queue::Queue;
use crate::stack::Stack;
use dill_base::{Errno, Octets};
use rand_core::Rng;

impl Stack {
    /// Queues a message in the framing of all layers, or bytes where no layer stands.
    ///
    /// EINVAL: a layer refuses the message as such. EPIPE: the direction is done, or a layer has sent its end. ECONNRESET:
    /// the sending direction is broken. EMSGSIZE: it is too long for a layer, or has more than 1,048,576 bytes.
    pub fn frame<R: Rng>(&mut self, message: &[u8], keys: &mut R) -> Result<(), StackFault>
        requires sent { is_sent self.old.held ≡ true }
        ensures { Sends (frame message.now (R.stream keys.old) self.old.held) result self.old self.new (R.stream keys.old) (R.stream keys.new) }
    {
        match self.send_fault(message, false) {
            Some(e) => Err(StackFault::Refused(e)),
            None => self.put_message(message, keys),
        }
    }

    // Queues a message that isn't refused.
    fn put_message<R: Rng>(&mut self, message: &[u8], keys: &mut R) -> Result<(), StackFault>
        requires sent { is_sent self.old.held ≡ true }
        requires free { send_fault message.now false self.old.held ≡ None }
        ensures { Sends (frame message.now (R.stream keys.old) self.old.held) result self.old self.new (R.stream keys.old) (R.stream keys.new) }
    {
        self.spells(message);
        let masks = self.masks();
        match self.queue.make_room(message.len() + FRAMING) {
            Ok(()) => {
                let key = draw(masks, keys);
                push_framed(&mut self.queue, &self.base, Origin::Plain, message, key);
                Ok(())
            }
            Err(_) => Err(StackFault::NoMemory),
        }
    }

    // A message that isn't refused is short, and is queued in its framing.
    fn spells(&self, message: &[u8])
        requires { send_fault message.now false self.now.held ≡ None }
        ensures short { length message.now ≤ 1048576 }
        ensures due { (random : Stream) → frame message.now random self.now.held ≡ Ok (queued Plain (on_link (drawn_key random).0 self.now.held.layers message.now) self.now.held, random_after self.now.held.layers random) }
    {
        let _ = &self.base;
    }

    // Some layer masks what is sent.
    fn masks(&self) -> bool
        ensures { result ≡ list_any is_masking self.now.held.layers }
    {
        self.base.masks()
    }

    // Some layer masks the end of the top layer.
    fn masks_end(&self) -> bool
        ensures { result ≡ list_any is_masking (below_end self.now.held.layers) }
    {
        masks_end(self.terms.as_slice(), &self.base)
    }

    /// Queues a first line, or a field. The line has its CRLF.
    ///
    /// EINVAL: it is out of its order. EPIPE: the empty line was sent, or the direction is done. ECONNRESET: the sending
    /// direction is broken.
    pub fn line(&mut self, first: bool, line: Octets) -> Result<(), StackFault>
        requires sent { is_sent self.old.held ≡ true }
        ensures { Changes (lined first line self.old.held) result self.old self.new }
    {
        match self.line_fault(first, false) {
            Some(e) => Err(StackFault::Refused(e)),
            None => self.queue_line(line.as_slice()),
        }
    }

    // Queues a line that isn't refused.
    fn queue_line(&mut self, line: &[u8]) -> Result<(), StackFault>
        requires sent { is_sent self.old.held ≡ true }
        ensures ok { OnOk result (self.new ≡ record self.old { held = with_line AmongFields line.now self.old.held }) }
        ensures err { OnErr result (self.new ≡ self.old) }
        ensures memory { IfErr result (λ e. e ≡ fault.NoMemory) }
    {
        match self.queue.make_room(line.len()) {
            Ok(()) => {
                push_line(&mut self.queue, &mut self.base, line, Place::AmongFields);
                Ok(())
            }
            Err(_) => Err(StackFault::NoMemory),
        }
    }

    /// The end of the top layer, or of the link's direction where no layer stands on it. It takes no memory.
    ///
    /// EPIPE: the direction is done, or a layer has sent its end. ECONNRESET: the sending direction is broken.
    pub fn done<R: Rng>(&mut self, keys: &mut R) -> Result<(), Errno>
        requires sent { is_sent self.old.held ≡ true }
        ensures { Ends (done (R.stream keys.old) self.old.held) result self.old self.new (R.stream keys.old) (R.stream keys.new) }
    {
        match self.done_fault(false) {
            Some(e) => Err(e),
            None => {
                let key = draw(self.masks_end(), keys);
                self.queue_end(key);
                Ok(())
            }
        }
    }

    // Queues the end of the top layer, if it has one, or marks the link's direction.
    pub(crate) fn queue_end(&mut self, key: [u8; 4])
        requires sent { is_sent self.old.held ≡ true }
        ensures due { (random : Stream) → IsKey key (below_end self.old.held.layers) random → with_end self.old.held.layers random self.old.held ≡ Ok (self.new.held, random_after (below_end self.old.held.layers) random) }
        ensures rest { self.new ≡ record self.old { held = self.new.held } }
    {
        match self.terms.as_slice() {
            [] => self.end_on_link(),
            [_, ..] => push_ending(&mut self.queue, &self.base, &mut self.terms, key),
        }
    }

    // The same where no end by a terminal message stands.
    fn end_on_link(&mut self)
        requires sent { is_sent self.old.held ≡ true }
        requires bare { ends_of self.old.held.layers ≡ [] }
        ensures due { (random : Stream) → with_end self.old.held.layers random self.old.held ≡ Ok (self.new.held, random_after (below_end self.old.held.layers) random) }
        ensures rest { self.new ≡ record self.old { held = self.new.held } }
    {
        match self.base {
            Base::Bytes => self.sending.done = true,
            Base::Http(_) => push_line(
                &mut self.queue,
                &mut self.base,
                b"\r\n",
                Place::BehindEmpty,
            ),
            _ => {}
        }
    }

    /// The pending send, or the pending end of a direction, is given up: where a byte of it has gone, the sending
    /// direction is broken.
    #[tactic(auto, unfolding(crate::specs::Sending::withdraw))]
    pub fn withdraw(&mut self)
        ensures { self.new ≡ record self.old { held = withdraw self.old.held } }
    {
        match self.queue.pending() {
            None => self.reopen(),
            Some(pending) if pending.gone == 0 => {
                self.queue.give_up();
                self.take_back(pending.origin);
            }
            Some(_) => self.break_off(),
        }
    }

    // The end of the link's direction is taken back, where no layer stands on it.
    fn reopen(&mut self)
        ensures { self.new ≡ record self.old { held = reopened self.old.held.layers self.old.held } }
    {
        if self.top() == Top::Bytes {
            self.sending.done = false;
        }
    }

    // A send of this origin is taken back from the layers.
    fn take_back(&mut self, origin: Origin)
        ensures { self.new ≡ record self.old { held = record self.old.held { layers = taken_back origin self.old.held.layers } } }
    {
        match origin {
            Origin::Plain => {}
            Origin::Ending => undo(&mut self.terms),
            Origin::Line(place) => self.base.set_place(place),
            Origin::Pong => {}
        }
    }
}

// The terminal message of the top is queued in the framing of the layer on the link.
fn push_ending(queue: &mut Queue, base: &Base, terms: &mut Vec<TermLayer>, key: [u8; 4])
    requires fits { FitsBase base.now }
    requires ends { HasEnds terms.old.items (base_layers base.now) }
    requires sent { not (list_any (λ item. not (is_pong item)) queue.old.items) ≡ true }
    requires room { 2048 ≤ queue.old.room }
    ensures queued { queue.new ≡ record queue.old { items = queue.old.items ++ ending_of key (base_layers base.now) terms.old.items } }
    ensures done { terms.new.items ≡ done_top terms.old.items }
{
    if let Some(term) = terms.first_mut() {
        push_framed(queue, base, Origin::Ending, term.terminal.as_slice(), key);
        term.done = true;
    }
}

// Queues a line of a head, which stands at this place behind it. It takes no memory.
fn push_line(queue: &mut Queue, base: &mut Base, line: &[u8], place: Place)
    requires sent { not (list_any (λ item. not (is_pong item)) queue.old.items) ≡ true }
    requires room { length line.now ≤ queue.old.room }
    ensures queued { queue.new ≡ record queue.old { items = queue.old.items ++ item_of (Line (sending_place (base_layers base.old))) line.now } }
    ensures placed { base.new ≡ base_at_place place base.old }
{
    let before = base.sending_place();
    queue.push(Origin::Line(before), &[], line);
    base.set_place(place);
}

// Some layer masks the end of the top layer.
fn masks_end(terms: &[TermLayer], base: &Base) -> bool
    ensures { result ≡ list_any is_masking (below_end (tower terms.now (base_layers base.now))) }
{
    match terms {
        [] => false,
        [_, ..] => base.masks(),
    }
}

// The masking key that the next random number makes, where one is drawn.
pub(crate) fn draw<R: Rng>(masks: bool, keys: &mut R) -> [u8; 4]
    ensures left { R.stream keys.new ≡ (if masks then (drawn_key (R.stream keys.old)).1 else R.stream keys.old) }
    ensures key { masks ≡ true → result ≡ (drawn_key (R.stream keys.old)).0 }
{
    if masks {
        return keys.next_u32().to_be_bytes();
    }
    [0; 4]
}

// The top layer's end was not sent.
fn undo(terms: &mut Vec<TermLayer>)
    ensures { terms.new.items ≡ undone_top terms.old.items }
{
    if let Some(term) = terms.first_mut() {
        term.done = false;
    }
}
