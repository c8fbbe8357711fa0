ghost use Rattle.std.specs.Prelude.{◌≡◌, ◌≤◌, ◌<◌, ◌+◌, [], true, false, length, None, OnOk, OnErr};
ghost use Rattle.dill_stack.specs.Attaching.{expect_greet, greet_fault};
ghost use Rattle.dill_stack.specs.Doing.{Sends, Changes};
ghost use Rattle.dill_stack.specs.Greeting.{greet, greeted, nonce, offer_fault, heard_by};
ghost use Rattle.dill_stack.specs.Held.{Greets, Expects, Answers};
ghost use Rattle.dill_stack.specs.Needs.{needs_head, head_need};
ghost use Rattle.dill_stack.specs.Sending.{is_sent};

use crate::attaching::joined_room;
use crate::dropping::no_more;
use crate::fault::StackFault;
use crate::origin::Origin;
use crate::placed::{Base, Framed};
use crate::queue::Queue;
use crate::refusals::{first_fault, is_invalid, is_refused};
use crate::stack::Stack;
use crate::task::Task;
use crate::want::ReadOut;
use dill_base::{Errno, Front, NoMemory};
use dill_calls::Answer;
use dill_ws::{
    Asked, Side, accept_of, handshake_laws, head_fault, key_text, read_client_head,
    read_server_head, server_head,
};
use rand_core::Rng;

/// The most bytes of a client's head besides its resource and its host.
const HEAD: usize = 138;

impl Stack {
    /// The handshake of a client begins: its layer stands on top from now on, with room for what it joins, and its head is
    /// queued.
    ///
    /// EINVAL: a resource or a host that isn't one or more bytes 21 to 7e. EPIPE: the link's direction is done.
    /// ECONNRESET: a direction is broken. EMSGSIZE: a line of over 8,192 bytes, or a head of over 16,384.
    pub fn greet<R: Rng>(
        &mut self,
        text: bool,
        resource: &[u8],
        host: &[u8],
        keys: &mut R,
    ) -> Result<(), StackFault>
        requires bare { self.old.held.layers ≡ [] }
        requires sent { is_sent self.old.held ≡ true }
        ensures { Sends (greet text resource.now host.now (R.stream keys.old) self.old.held) result self.old self.new (R.stream keys.old) (R.stream keys.new) }
    {
        match self.offer_fault(resource, host) {
            Some(e) => Err(StackFault::Refused(e)),
            None => self.offer(text, resource, host, keys),
        }
    }

    // A handshake that isn't refused begins.
    fn offer<R: Rng>(
        &mut self,
        text: bool,
        resource: &[u8],
        host: &[u8],
        keys: &mut R,
    ) -> Result<(), StackFault>
        requires bare { self.old.held.layers ≡ [] }
        requires sent { is_sent self.old.held ≡ true }
        requires free { offer_fault resource.now host.now self.old.held ≡ None }
        ensures { Sends (greet text resource.now host.now (R.stream keys.old) self.old.held) result self.old self.new (R.stream keys.old) (R.stream keys.new) }
    {
        let Ok(joined) = joined_room(self.alloc, self.most) else {
            return Err(StackFault::NoMemory);
        };
        match make_head_room(&mut self.queue, resource, host) {
            Ok(()) => {
                let key = key_text(draw_nonce(keys));
                self.queue.push_head(resource, host, &key);
                self.task = Task::Greets {
                    accept: accept_of(&key),
                };
                self.put_on_link(Base::Ws(Framed {
                    side: Side::Client,
                    text,
                    joining: None,
                    joined,
                    met: false,
                    closed: false,
                }));
                Ok(())
            }
            Err(_) => Err(StackFault::NoMemory),
        }
    }

    /// The refusal of a client's handshake.
    pub fn offer_fault(&self, resource: &[u8], host: &[u8]) -> Option<Errno>
        ensures { result ≡ offer_fault resource.now host.now self.now.held }
    {
        let own = head_fault(resource, host);
        first_fault(
            is_invalid(own),
            false,
            self.is_done(),
            self.is_broken(),
            is_refused(own),
        )
    }

    /// The handshake of a server begins: its layer stands on top from now on, with room for what it joins, and waits for the
    /// client's head.
    ///
    /// EPIPE: the link's direction is done. ECONNRESET: a direction is broken.
    pub fn expect_greet(&mut self, text: bool) -> Result<(), StackFault>
        requires bare { self.old.held.layers ≡ [] }
        requires sent { is_sent self.old.held ≡ true }
        ensures { Changes (expect_greet text self.old.held) result self.old self.new }
    {
        if let Some(e) = self.greet_fault() {
            return Err(StackFault::Refused(e));
        }
        match self.put_frames(Side::Server, text) {
            Ok(()) => {
                self.set_task(Task::Expects);
                Ok(())
            }
            Err(e) => Err(e),
        }
    }

    /// The refusal of a server's handshake.
    #[tactic(auto, unfolding(crate::specs::Attaching::greet_fault))]
    pub fn greet_fault(&self) -> Option<Errno>
        ensures { result ≡ greet_fault false false self.now.held }
    {
        first_fault(false, false, self.is_done(), self.is_broken(), false)
    }

    // The call that goes on is this one now.
    fn set_task(&mut self, task: Task)
        ensures { self.new ≡ record self.old { held = record self.old.held { task = task } } }
    {
        self.task = task;
    }

    /// A handshake goes on: a client looks for the server's head once its own has gone, and a server answers the client's
    /// and waits until its own has gone. Where it awaits a head, fewer than 16,384 bytes are unread. It takes no memory.
    ///
    /// EPIPE: the peer has ended before its head. EPROTO: it has ended inside, or its head is refused. EMSGSIZE: a line of
    /// its head or the whole head is over its limit.
    pub fn greeted(&mut self) -> ReadOut
        requires { self.old.held.task ≡ Expects → is_sent self.old.held ≡ true }
        ensures said { result ≡ (greeted self.old.held).said }
        ensures stack { self.new ≡ record self.old { held = (greeted self.old.held).stack } }
        ensures short { result ≡ ReadOut.Need → needs_head self.new.held ≡ true → length self.new.held.unread < head_need }
    {
        handshake_laws();
        self.hear()
    }

    // A look at the handshake that has begun.
    fn hear(&mut self) -> ReadOut
        requires { self.old.held.task ≡ Expects → is_sent self.old.held ≡ true }
        ensures said { result ≡ (greeted self.old.held).said }
        ensures stack { self.new ≡ record self.old { held = (greeted self.old.held).stack } }
    {
        match self.task {
            Task::Greets { accept } => self.hear_server(accept),
            Task::Expects => self.hear_client(),
            Task::Answers => self.hear_sent(),
            _ => ReadOut::Need,
        }
    }

    // A server's own head has gone, or not.
    fn hear_sent(&mut self) -> ReadOut
        ensures said { result ≡ (heard_by Answers self.old.held).said }
        ensures stack { self.new ≡ record self.old { held = (heard_by Answers self.old.held).stack } }
    {
        if !self.is_sent() {
            return ReadOut::Need;
        }
        self.task = Task::Idle;
        ReadOut::Given(Answer::Number(0))
    }

    // The server's head stands at the front, or doesn't yet, or is refused.
    fn hear_server(&mut self, accept: [u8; 28]) -> ReadOut
        ensures said { result ≡ (heard_by (Greets accept) self.old.held).said }
        ensures stack { self.new ≡ record self.old { held = (heard_by (Greets accept) self.old.held).stack } }
    {
        if !self.is_sent() {
            return ReadOut::Need;
        }
        match read_server_head(self.unread.as_slice(), accept) {
            Front::Whole { used, .. } => {
                self.unread.use_up(used);
                self.task = Task::Idle;
                ReadOut::Given(Answer::Number(0))
            }
            Front::Need => no_more(self.receiving.done, true, self.unread.as_slice()),
            Front::Fault(e) => ReadOut::Fault(e),
        }
    }

    // The client's head stands at the front, and the own is queued, or it doesn't yet, or is refused.
    fn hear_client(&mut self) -> ReadOut
        requires sent { is_sent self.old.held ≡ true }
        ensures said { result ≡ (heard_by Expects self.old.held).said }
        ensures stack { self.new ≡ record self.old { held = (heard_by Expects self.old.held).stack } }
    {
        match read_client_head(self.unread.as_slice()) {
            Asked::Whole { key, used } => {
                self.queue
                    .push(Origin::Plain, &[], &server_head(accept_of(&key)));
                self.unread.use_up(used);
                self.task = Task::Answers;
                ReadOut::Need
            }
            Asked::Need => no_more(self.receiving.done, true, self.unread.as_slice()),
            Asked::Fault(e) => ReadOut::Fault(e),
        }
    }
}

// A client's head gets room.
fn make_head_room(queue: &mut Queue, resource: &[u8], host: &[u8]) -> Result<(), NoMemory>
    ensures ok { OnOk result ((queue.new ≡ record queue.old { room = queue.new.room }) × (queue.old.room ≤ queue.new.room) × (length resource.now + length host.now + HEAD ≤ queue.new.room)) }
    ensures err { OnErr result (queue.new ≡ queue.old) }
{
    let Some(lines) = resource.len().checked_add(host.len()) else {
        return Err(NoMemory);
    };
    let Some(count) = lines.checked_add(HEAD) else {
        return Err(NoMemory);
    };
    queue.make_room(count)
}

// Sixteen bytes of four random numbers.
fn draw_nonce<R: Rng>(keys: &mut R) -> [u8; 16]
    ensures nonce { result ≡ (nonce (R.stream keys.old)).0 }
    ensures left { R.stream keys.new ≡ (nonce (R.stream keys.old)).1 }
{
    let mut bytes = [0; 16];
    bytes[..4].copy_from_slice(&keys.next_u32().to_be_bytes());
    bytes[4..8].copy_from_slice(&keys.next_u32().to_be_bytes());
    bytes[8..12].copy_from_slice(&keys.next_u32().to_be_bytes());
    bytes[12..].copy_from_slice(&keys.next_u32().to_be_bytes());
    bytes
}
