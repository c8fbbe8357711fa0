ghost use Rattle.std.specs.Prelude.{◌≡◌, ℕ, true, ◌+◌, ◌*◌, ◌<◌, ◌≤◌, ◌==◌, length, filter, not, false, OnOk, OnErr, IfSome, IfNone, vec_capacity, vec_len};
ghost use Rattle.dill_base.specs.Maps.{change};
ghost use Rattle.dill_kernel.specs.Entry.{plain, made_reply};
ghost use Rattle.dill_loop.specs.Calls as calls;
ghost use Rattle.dill_loop.specs.Network.{Live, waits_at, listener_with, with_mark};
ghost use Rattle.dill_kernel.specs.declared.replies.KernelReply.TheVariants.{Done, Failed};
ghost use Rattle.dill_kernel.specs.declared.replies.KernelFault.TheVariants.{Refused};
ghost use Rattle.dill_loop.specs.Consistent.{most_links};
ghost use Rattle.dill_loop.specs.Steps.{Makes};
ghost use Rattle.dill_loop.specs.Store.{network_of};

use crate::finding::{find_address, find_listener, queue_len, queued_place};
use crate::network::Net;
use crate::stream::{End, Listener, Pair, Place};
use dill_base::Address;
use dill_kernel::{KernelFault, Made};
use std::alloc::{AllocError, Global};

/// The calls that make a link. Each makes all room first: a stream has that of both directions from its `connect` on, and
/// there is room for a mark of each link, so that no other call takes memory.
impl Net {
    /// Makes room for the marks of so many more links.
    fn reserve_marks(&mut self, more: usize) -> Result<(), AllocError>
        requires { more ≤ 2 }
        ensures network { network_of self.new ≡ network_of self.old }
        ensures marks { vec_len self.new.marks ≡ vec_len self.old.marks }
        ensures kept { vec_capacity self.old.marks ≤ vec_capacity self.new.marks }
        ensures room { OnOk result (most_links (network_of self.new) + more < vec_capacity self.new.marks) }
    {
        let streams = self.pairs.len().saturating_mul(2);
        let most = self.listeners.len().saturating_add(streams);
        self.marks
            .reserve(most.saturating_add(more).saturating_add(1))
    }

    /// Makes a listener.
    pub fn listen(&mut self, link: u64, address: Address, backlog: u32) -> Result<(), KernelFault>
        requires { most_links (network_of self.old) < vec_capacity self.old.marks }
        ensures made { Makes (calls.listened link address backlog (network_of self.old)) (network_of self.old) (plain result) (network_of self.new) }
        ensures room { most_links (network_of self.new) < vec_capacity self.new.marks }
    {
        if self.is_there(link) {
            return Err(KernelFault::Other);
        }
        if self.has_address(address) {
            return Err(KernelFault::InUse);
        }
        if self.reserve_marks(1).is_err() {
            return Err(KernelFault::NoMemory);
        }
        let listener = Listener {
            link,
            address,
            backlog,
        };
        match self.listeners.push(listener) {
            Ok(()) => Ok(()),
            Err(_) => Err(KernelFault::NoMemory),
        }
    }

    /// Makes a stream to the listener of an address, whose other end waits in the listener's queue.
    pub fn connect(&mut self, alloc: Global, link: u64, to: Address) -> Result<(), KernelFault>
        requires mark { vec_len self.old.marks < vec_capacity self.old.marks }
        requires room { most_links (network_of self.old) < vec_capacity self.old.marks }
        ensures made { Makes (calls.connected link to (network_of self.old)) (network_of self.old) (plain result) (network_of self.new) }
        ensures room { most_links (network_of self.new) < vec_capacity self.new.marks }
    {
        if self.is_there(link) {
            return Err(KernelFault::Other);
        }
        let Some(listener) = self.open_listener(to) else {
            return Err(KernelFault::Refused);
        };
        if self.dial(alloc, link, listener).is_err() {
            return Err(KernelFault::NoMemory);
        }
        self.mark(true, false, Place::Live(listener));
        Ok(())
    }

    /// The link of the listener with an address, where its queue isn't full.
    fn open_listener(&self, address: Address) -> Option<u64>
        ensures none { IfNone result ((link : ℕ) → calls.dialed_by link (listener_with address (network_of self.now)) (network_of self.now) ≡ calls.unchanged (network_of self.now) (Failed Refused)) }
        ensures some { IfSome result (λ l. (link : ℕ) → calls.dialed_by link (listener_with address (network_of self.now)) (network_of self.now) ≡ record { after = with_mark true false (Live l) (calls.with_dialed link l (network_of self.now)); reply = Done }) }
    {
        let listener = find_address(self.listeners.as_slice(), address)?;
        let waiting = queue_len(self.pairs.as_slice(), listener.link);
        if waiting < listener.backlog as usize {
            Some(listener.link)
        } else {
            None
        }
    }

    /// Adds a stream from a link to a listener's queue.
    fn dial(&mut self, alloc: Global, link: u64, listener: u64) -> Result<(), AllocError>
        ensures ok { OnOk result (network_of self.new ≡ calls.with_dialed link listener (network_of self.old)) }
        ensures err { OnErr result (network_of self.new ≡ network_of self.old) }
        ensures marks { vec_len self.new.marks ≡ vec_len self.old.marks }
        ensures kept { vec_capacity self.old.marks ≤ vec_capacity self.new.marks }
        ensures room { OnOk result (most_links (network_of self.new) < vec_capacity self.new.marks) }
    {
        self.reserve_marks(2)?;
        let dialed = End::new(alloc, Place::Live(link))?;
        let taken = End::new(alloc, Place::Queued(listener))?;
        match self.pairs.push(Pair { dialed, taken }) {
            Ok(()) => Ok(()),
            Err(_) => Err(AllocError),
        }
    }

    /// Gives the oldest end in a listener's queue a link. It takes no memory.
    pub fn accept(&mut self, listener: u64, link: u64) -> Made
        ensures network { network_of self.new ≡ (calls.accepted listener link (network_of self.old)).after }
        ensures reply { made_reply result ≡ (calls.accepted listener link (network_of self.old)).reply }
        ensures capacity { vec_capacity self.old.marks ≤ vec_capacity self.new.marks }
    {
        if find_listener(self.listeners.as_slice(), listener).is_none() || self.is_there(link) {
            return Made::Failed(KernelFault::Other);
        }
        if take_queued(&mut self.pairs, listener, link) {
            Made::Made
        } else {
            Made::NotYet
        }
    }
}

/// The oldest end in a listener's queue gets a link, if one waits.
fn take_queued(pairs: &mut Vec<Pair>, listener: u64, link: u64) -> bool
    ensures pairs { pairs.new.items ≡ change (waits_at listener) (calls.linked link) pairs.old.items }
    ensures none { (length (filter (waits_at listener) pairs.old.items) == 0) ≡ not result }
    ensures same { result ≡ false → pairs.new.items ≡ pairs.old.items }
{
    match queued_place(pairs.as_slice(), listener) {
        None => false,
        Some(at) => {
            let pair = &mut pairs[at];
            pair.take(link);
            true
        }
    }
}
