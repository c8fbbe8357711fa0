ghost use Rattle.std.specs.Prelude.{◌≡◌, ◌<◌, ◌++◌, ◌∷◌, ℕ, List, [], Some, None, length, take, OnErr, true, false, not, if◌then◌else◌};
ghost use Rattle.std.specs.Option.{option_map};
ghost use Rattle.dill_kernel.specs.declared.replies.KernelAsk.TheVariants.{Wait, Listen, Connect, Finish, Accept, Write, Shut, Read};
ghost use Rattle.dill_kernel.specs.declared.replies.KernelReply.TheVariants.{Failed};
ghost use Rattle.dill_kernel.specs.declared.replies.KernelFault.TheVariants.{Other};
ghost use Rattle.dill_kernel.specs.Entry.{fits, plain, woke, made_reply, finished_reply, read_reply, write_reply, is_failure, is_want, ReplyHasCause, MovesAtMost};
ghost use Rattle.dill_kernel.specs.Replay.{ReplayStep, Takes, Notes, is_close};

use crate::{
    Entry, Finished, Flow, Kernel, KernelAsk, KernelFault, KernelReply, Limit, Made, ReadyList,
};
use dill_base::{Address, Octets};
use std::alloc::Global;
use std::marker::Model;
use std::vec::IntoIter;

/// A kernel that answers from a list of replies and keeps what it was asked. Each ask but a close takes the next reply;
/// one that is missing or doesn't fit makes the call fail. Where it finds no memory for an entry of its history it answers
/// all the same, and tells nothing from then on.
#[derive(Drop)]
pub struct ReplayKernel {
    alloc: Global,
    left: IntoIter<KernelReply>,
    history: Option<Vec<Entry>>,
    count: u64,
}

impl Model for ReplayKernel {
    ghost use Rattle.std.specs.Vec.Iter.{into_iter_items};
    ghost use Rattle.std.specs.Option.{option_map};
    ghost use Rattle.dill_kernel.specs.Replay.{Replayed};

    ghost Value = { Replayed };

    ghost view = { λ k. record { told = option_map (λ h. record { left = into_iter_items k.left; history = h.items }) k.history; faults = k.count } };
}

impl ReplayKernel {
    /// A kernel with these replies, which was asked nothing. It takes no memory.
    pub fn new(alloc: Global, replies: Vec<KernelReply>) -> ReplayKernel
        ensures { result ≡ record { told = Some (record { left = replies.items; history = [] }); faults = 0 } }
    {
        ReplayKernel {
            alloc,
            left: replies.into_iter(),
            history: Some(Vec::new(alloc)),
            count: 0,
        }
    }

    /// What it was asked and what it replied, from the first call on, as long as it tells it.
    pub fn history(&self) -> Option<&[Entry]>
        ensures { option_map (λ h. h.now) result ≡ option_map (λ r. r.history) self.now.told }
    {
        match &self.history {
            Some(history) => Some(history.as_slice()),
            None => None,
        }
    }

    /// Takes the next reply for an ask that is no close, if it fits.
    fn take(&mut self, ask: &KernelAsk) -> KernelReply
        ensures taken { Takes ask.now self.old.told result self.new.told }
        ensures fits { is_close ask.now ≡ false → fits ask.now result ≡ true }
        ensures faults { self.new.faults ≡ self.old.faults }
    {
        match self.left.next() {
            Some(reply) => fitting(ask, reply),
            None => KernelReply::Failed(KernelFault::Other),
        }
    }

    /// Keeps a call in the history, and counts a failure.
    fn note(&mut self, ask: KernelAsk, reply: KernelReply)
        ensures noted { Notes (record { ask = ask; reply = reply }) self.old.told self.new.told }
        ensures cause { ReplyHasCause self.old.faults self.new.faults (is_failure reply) }
    {
        self.count_failure(&reply);
        self.keep(Entry { ask, reply });
    }

    /// A write whose bytes can be kept.
    fn write_told(&mut self, link: u64, bytes: Octets) -> Flow
        requires { 0 < length bytes }
        ensures step { ReplayStep self.old.told (record { ask = Write link bytes; reply = write_reply result }) self.new.told }
        ensures allowed { fits (Write link bytes) (write_reply result) ≡ true }
        ensures cause { ReplyHasCause self.old.faults self.new.faults (is_failure (write_reply result)) }
    {
        let ask = KernelAsk::Write(link, bytes);
        let reply = self.take(&ask);
        let result = write_result(&reply);
        self.note(ask, reply);
        result
    }

    /// A write whose bytes can't be kept is answered all the same.
    fn write_untold(&mut self, _link: u64, bytes: &[u8]) -> Flow
        requires { 0 < length bytes.now }
        ensures step { ReplayStep self.old.told (record { ask = Write _link bytes.now; reply = write_reply result }) self.new.told }
        ensures allowed { fits (Write _link bytes.now) (write_reply result) ≡ true }
        ensures cause { ReplyHasCause self.old.faults self.new.faults (is_failure (write_reply result)) }
    {
        let reply = self.take_for_write(_link, bytes);
        let result = write_result(&reply);
        self.count_failure(&reply);
        self.history = None;
        result
    }

    /// Takes the next reply for a write, if it fits.
    fn take_for_write(&mut self, _link: u64, bytes: &[u8]) -> KernelReply
        ensures taken { Takes (Write _link bytes.now) self.old.told result self.new.told }
        ensures fits { fits (Write _link bytes.now) result ≡ true }
        ensures faults { self.new.faults ≡ self.old.faults }
    {
        match self.left.next() {
            Some(reply) => fitting_to_write(reply, bytes),
            None => KernelReply::Failed(KernelFault::Other),
        }
    }

    /// Counts a reply that is a failure.
    fn count_failure(&mut self, reply: &KernelReply)
        ensures told { self.new.told ≡ self.old.told }
        ensures cause { ReplyHasCause self.old.faults self.new.faults (is_failure reply.now) }
    {
        if let KernelReply::Failed(_) = reply {
            self.count = self.count.saturating_add(1);
        }
    }

    /// Puts an entry at the end of the history.
    fn keep(&mut self, entry: Entry)
        ensures noted { Notes entry self.old.told self.new.told }
        ensures faults { self.new.faults ≡ self.old.faults }
    {
        if let Some(history) = &mut self.history {
            if history.push(entry).is_err() {
                self.history = None;
            }
        }
    }
}

/// The reply, or a failure where it doesn't fit.
fn fitting(ask: &KernelAsk, reply: KernelReply) -> KernelReply
    ensures value { result ≡ (if fits ask.now reply then reply else Failed Other) }
    ensures fits { is_close ask.now ≡ false → fits ask.now result ≡ true }
{
    if allows(ask, &reply) {
        reply
    } else {
        KernelReply::Failed(KernelFault::Other)
    }
}

/// The reply, or a failure where it doesn't fit to a write.
fn fitting_to_write(reply: KernelReply, bytes: &[u8]) -> KernelReply
    ensures value { (link : ℕ) → result ≡ (if fits (Write link bytes.now) reply then reply else Failed Other) }
    ensures fits { (link : ℕ) → fits (Write link bytes.now) result ≡ true }
{
    if allows_write(&reply, bytes) {
        reply
    } else {
        KernelReply::Failed(KernelFault::Other)
    }
}

/// Whether a fault is no want of memory.
fn is_no_want(fault: KernelFault) -> bool
    ensures { result ≡ not (is_want fault) }
{
    match fault {
        KernelFault::NoMemory => false,
        _ => true,
    }
}

/// Whether the ask may be answered so.
fn allows(ask: &KernelAsk, reply: &KernelReply) -> bool
    ensures { result ≡ fits ask.now reply.now }
{
    match ask {
        KernelAsk::Wait(_) => match reply {
            KernelReply::Woke(_, ready) => ready.len() <= 256,
            KernelReply::Failed(fault) => is_no_want(*fault),
            _ => false,
        },
        KernelAsk::Listen(_, _, _) | KernelAsk::Connect(_, _) => match reply {
            KernelReply::Done | KernelReply::Failed(_) => true,
            _ => false,
        },
        KernelAsk::Finish(_) => match reply {
            KernelReply::Done | KernelReply::NotYet => true,
            KernelReply::Failed(fault) => is_no_want(*fault),
            _ => false,
        },
        KernelAsk::Accept(_, _) => match reply {
            KernelReply::Done | KernelReply::NotYet | KernelReply::Failed(_) => true,
            _ => false,
        },
        KernelAsk::Write(_, bytes) => allows_write(reply, bytes.as_slice()),
        KernelAsk::Shut(_) => match reply {
            KernelReply::Done => true,
            KernelReply::Failed(fault) => is_no_want(*fault),
            _ => false,
        },
        KernelAsk::Read(_, size) => match reply {
            KernelReply::Came(bytes) => {
                let count = bytes.as_slice().len();
                0 < count && count <= *size
            }
            KernelReply::End | KernelReply::NotYet => true,
            KernelReply::Failed(fault) => is_no_want(*fault),
            _ => false,
        },
        KernelAsk::Close(_) => matches!(reply, KernelReply::Done),
    }
}

/// Whether a write of these bytes may be answered so.
fn allows_write(reply: &KernelReply, bytes: &[u8]) -> bool
    ensures { (link : ℕ) → result ≡ fits (Write link bytes.now) reply.now }
{
    match reply {
        KernelReply::Took(count) => 0 < *count && *count <= bytes.len(),
        KernelReply::NotYet => true,
        KernelReply::Failed(fault) => is_no_want(*fault),
        _ => false,
    }
}

/// The result of a call that is done or fails.
fn plain_result(reply: &KernelReply) -> Result<(), KernelFault>
    ensures listen { (link : ℕ) (at : Address) (backlog : ℕ) → fits (Listen link at backlog) reply.now ≡ true → plain result ≡ reply.now }
    ensures connect { (link : ℕ) (to : Address) → fits (Connect link to) reply.now ≡ true → plain result ≡ reply.now }
    ensures shut { (link : ℕ) → fits (Shut link) reply.now ≡ true → plain result ≡ reply.now }
{
    match reply {
        KernelReply::Failed(fault) => Err(*fault),
        _ => Ok(()),
    }
}

/// How a connection that was begun went on.
fn finished_result(reply: &KernelReply) -> Finished
    ensures { (link : ℕ) → fits (Finish link) reply.now ≡ true → finished_reply result ≡ reply.now }
{
    match reply {
        KernelReply::Done => Finished::Done,
        KernelReply::Failed(fault) => Finished::Failed(*fault),
        _ => Finished::NotYet,
    }
}

/// How an accept went.
fn made_result(reply: &KernelReply) -> Made
    ensures { (listener link : ℕ) → fits (Accept listener link) reply.now ≡ true → made_reply result ≡ reply.now }
{
    match reply {
        KernelReply::Done => Made::Made,
        KernelReply::Failed(fault) => Made::Failed(*fault),
        _ => Made::NotYet,
    }
}

/// What a write took.
fn write_result(reply: &KernelReply) -> Flow
    ensures { (link : ℕ) (bytes : List ℕ) → fits (Write link bytes) reply.now ≡ true → write_reply result ≡ reply.now }
{
    match reply {
        KernelReply::Took(count) => Flow::Moved(*count),
        KernelReply::Failed(fault) => Flow::Failed(*fault),
        _ => Flow::NotYet,
    }
}

/// What a read gave, and its bytes at the front of the buffer.
fn read_result(reply: &KernelReply, buf: &mut [u8]) -> Flow
    ensures reply { (link : ℕ) → fits (Read link (length buf.old)) reply.now ≡ true → read_reply buf.new result ≡ reply.now }
    ensures most { MovesAtMost (length buf.old) result }
{
    match reply {
        KernelReply::Came(bytes) => {
            let bytes = bytes.as_slice();
            let count = bytes.len().min(buf.len());
            buf[..count].copy_from_slice(&bytes[..count]);
            Flow::Moved(count)
        }
        KernelReply::End => Flow::End,
        KernelReply::Failed(fault) => Flow::Failed(*fault),
        _ => Flow::NotYet,
    }
}

/// The moment of a wait, and the links that it told.
fn wait_result(reply: &KernelReply, ready: &mut ReadyList) -> Result<u64, KernelFault>
    ensures reply { (limit : Limit) → fits (Wait limit) reply.now ≡ true → woke ready.new result ≡ reply.now }
    ensures none { OnErr result (ready.new ≡ []) }
{
    ready.clear();
    match reply {
        KernelReply::Woke(moment, links) => {
            ready.copy_from(links);
            Ok(*moment)
        }
        KernelReply::Failed(fault) => Err(*fault),
        _ => Err(KernelFault::Other),
    }
}

impl Kernel for ReplayKernel {
    ghost step = { λ old entry new. ReplayStep old.told entry new.told };

    ghost faults = { λ k. k.faults };

    fn wait(&mut self, limit: Limit, ready: &mut ReadyList) -> Result<u64, KernelFault> {
        let ask = KernelAsk::Wait(limit);
        let reply = self.take(&ask);
        let result = wait_result(&reply, ready);
        self.note(ask, reply);
        result
    }

    fn listen(&mut self, link: u64, at: Address, backlog: u32) -> Result<(), KernelFault> {
        let ask = KernelAsk::Listen(link, at, backlog);
        let reply = self.take(&ask);
        let result = plain_result(&reply);
        self.note(ask, reply);
        result
    }

    fn connect(&mut self, link: u64, to: Address) -> Result<(), KernelFault> {
        let ask = KernelAsk::Connect(link, to);
        let reply = self.take(&ask);
        let result = plain_result(&reply);
        self.note(ask, reply);
        result
    }

    fn finish_connect(&mut self, link: u64) -> Finished {
        let ask = KernelAsk::Finish(link);
        let reply = self.take(&ask);
        let result = finished_result(&reply);
        self.note(ask, reply);
        result
    }

    fn accept(&mut self, listener: u64, link: u64) -> Made {
        let ask = KernelAsk::Accept(listener, link);
        let reply = self.take(&ask);
        let result = made_result(&reply);
        self.note(ask, reply);
        result
    }

    fn read(&mut self, link: u64, buf: &mut [u8]) -> Flow {
        let ask = KernelAsk::Read(link, buf.len());
        let reply = self.take(&ask);
        let result = read_result(&reply, buf);
        self.note(ask, reply);
        result
    }

    fn write(&mut self, link: u64, bytes: &[u8]) -> Flow {
        match Octets::from_slice(self.alloc, bytes) {
            Ok(bytes) => self.write_told(link, bytes),
            Err(_) => self.write_untold(link, bytes),
        }
    }

    fn shut(&mut self, link: u64) -> Result<(), KernelFault> {
        let ask = KernelAsk::Shut(link);
        let reply = self.take(&ask);
        let result = plain_result(&reply);
        self.note(ask, reply);
        result
    }

    fn close(&mut self, link: u64) {
        self.keep(Entry {
            ask: KernelAsk::Close(link),
            reply: KernelReply::Done,
        });
    }
}
