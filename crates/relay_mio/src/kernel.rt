ghost use Rattle.std.specs.Prelude.{◌≡◌, ◌≤◌, Bool, true, false, length, [], OnOk, OnErr, IfOk, IfErr, is_err, vec_len, vec_capacity, ◌<◌};
ghost use Rattle.mio.specs.Events.{items, capacity as events_capacity};
ghost use Rattle.dill_kernel.specs.declared.replies.KernelAsk.TheVariants.{Wait};
ghost use Rattle.dill_kernel.specs.Entry.{fits, woke, is_failure, is_want, ReplyHasCause};

use crate::calls::{finish, read_from, socket_addr, timeout_of, write_to};
use crate::fault::{making_fault_of, plain_fault_of};
use crate::links::{Links, Socket};
use dill_base::Address;
use dill_kernel::{Finished, Flow, Kernel, KernelFault, Limit, Made, Ready, ReadyList, Ticker};
use mio::event::Event;
use mio::net::{TcpListener, TcpStream};
use mio::{Events, Interest, Poll, Token};
use std::alloc::Global;
use std::io;
use std::io::ErrorKind;
use std::net::{Net, Shutdown};

/// Real sockets of TCP over IPv4, by the numbers of their links, and a clock that is handed in. It tells nothing, and keeps
/// the count of its faults.
///
/// A wait that is over 24 days, or that a signal ends, comes back early. The system chooses how many connections wait at a
/// listener.
#[derive(Drop)]
pub struct MioKernel<N, T> {
    net: N,
    ticker: T,
    poll: Poll,
    events: Events,
    links: Links,
    count: u64,
    ghost room: { events_capacity events ≡ 256 },
}

/// The most events of one wait, as many as a list of ready links holds. Later ones stay with the system until the next wait.
const MOST_EVENTS: usize = 256;

/// What an event says of a link. An error and a hang-up wake both directions.
fn ready_of(event: &Event) -> Ready {
    Ready {
        link: event.token().0 as u64,
        read: event.is_readable() || event.is_read_closed() || event.is_error(),
        write: event.is_writable() || event.is_write_closed() || event.is_error(),
    }
}

/// Tells the events of the links that are there.
fn tell(events: &Events, links: &Links, ready: &mut ReadyList)
    requires most { length (items events.now) ≤ 256 }
    requires none { ready.old ≡ [] }
    ensures { length ready.new ≤ 256 }
{
    for event in events {
        let one = ready_of(event);
        if links.has(one.link) {
            ready.push(one);
        }
    }
}

impl<N: Net + Drop, T: Ticker + Drop> MioKernel<N, T> {
    /// No link, no fault yet, and the clock of the ticker. Its refusal is `NoMemory` for want of memory, and else what the
    /// system answered.
    pub fn new(alloc: Global, net: N, ticker: T) -> Result<MioKernel<N, T>, KernelFault>
        ensures { IfOk result (λ k. k.count ≡ 0) }
    {
        let Ok(events) = Events::with_capacity(alloc, MOST_EVENTS) else {
            return Err(KernelFault::NoMemory);
        };
        let poll = match Poll::new(&net) {
            Ok(poll) => poll,
            Err(error) => return Err(making_fault_of(&error)),
        };
        Ok(MioKernel {
            net,
            ticker,
            poll,
            events,
            links: Links::new(alloc),
            count: 0,
        })
    }

    /// Counts a call that failed.
    fn counted(&mut self, failed: bool)
        ensures { ReplyHasCause self.old.count self.new.count failed }
    {
        if failed {
            self.count = self.count.saturating_add(1);
        }
    }

    /// Makes room for a link that isn't there yet.
    fn reserve(&mut self, link: u64) -> Result<(), KernelFault>
        ensures count { self.new.count ≡ self.old.count }
        ensures room { OnOk result (vec_len self.new.links.all < vec_capacity self.new.links.all) }
    {
        if self.links.has(link) {
            return Err(KernelFault::Other);
        }
        self.links.reserve().map_err(|_| KernelFault::NoMemory)
    }

    /// Opens a listener and has its connections reported.
    fn open_listener(&self, link: u64, at: Address) -> io::Result<TcpListener> {
        let mut listener = TcpListener::bind(&self.net, socket_addr(at))?;
        let registry = self.poll.registry();
        registry.register(&mut listener, Token(link as usize), Interest::READABLE)?;
        Ok(listener)
    }

    /// Begins to connect and has the stream reported.
    fn open_stream(&self, link: u64, to: Address) -> io::Result<TcpStream> {
        let stream = TcpStream::connect(&self.net, socket_addr(to))?;
        self.report(link, stream)
    }

    /// Has a stream reported for both directions.
    fn report(&self, link: u64, mut stream: TcpStream) -> io::Result<TcpStream> {
        let both = Interest::READABLE | Interest::WRITABLE;
        let registry = self.poll.registry();
        registry.register(&mut stream, Token(link as usize), both)?;
        Ok(stream)
    }

    /// Makes a listener.
    fn make_listener(&mut self, link: u64, at: Address, backlog: u32) -> Result<(), KernelFault>
        ensures { self.new.count ≡ self.old.count }
    {
        if backlog == 0 || 4096 < backlog {
            return Err(KernelFault::Other);
        }
        self.reserve(link)?;
        match self.open_listener(link, at) {
            Ok(listener) => {
                self.links.put(link, Socket::Listener(listener));
                Ok(())
            }
            Err(error) => Err(making_fault_of(&error)),
        }
    }

    /// Makes a stream that begins to connect.
    fn make_stream(&mut self, link: u64, to: Address) -> Result<(), KernelFault>
        ensures { self.new.count ≡ self.old.count }
    {
        self.reserve(link)?;
        match self.open_stream(link, to) {
            Ok(stream) => {
                self.links.put(link, Socket::Stream(stream));
                Ok(())
            }
            Err(error) => Err(making_fault_of(&error)),
        }
    }

    /// The next connection to a listener, if one waits.
    fn next_stream(&self, listener: u64) -> Result<Option<TcpStream>, KernelFault> {
        let Some(listener) = self.links.listener(listener) else {
            return Err(KernelFault::Other);
        };
        match listener.accept() {
            Ok((stream, _)) => Ok(Some(stream)),
            Err(error) => match error.kind() {
                ErrorKind::WouldBlock => Ok(None),
                _ => Err(making_fault_of(&error)),
            },
        }
    }

    /// Takes the next connection. Room for it is made first, so that none is lost for want of memory.
    fn take_stream(&mut self, listener: u64, link: u64) -> Result<bool, KernelFault>
        ensures { self.new.count ≡ self.old.count }
    {
        self.reserve(link)?;
        let Some(stream) = self.next_stream(listener)? else {
            return Ok(false);
        };
        match self.report(link, stream) {
            Ok(stream) => {
                self.links.put(link, Socket::Stream(stream));
                Ok(true)
            }
            Err(error) => Err(making_fault_of(&error)),
        }
    }

    /// Waits, and tells what is ready.
    fn wait_for(&mut self, limit: Limit, ready: &mut ReadyList) -> Result<u64, KernelFault>
        requires { ready.old ≡ [] }
        ensures count { self.new.count ≡ self.old.count }
        ensures allowed { fits (Wait limit) (woke ready.new result) ≡ true }
        ensures none { OnErr result (ready.new ≡ []) }
    {
        let timeout = timeout_of(limit, self.ticker.now());
        match self.poll.poll(&mut self.events, timeout) {
            Ok(()) => {
                tell(&self.events, &self.links, ready);
                Ok(self.ticker.now())
            }
            Err(error) => Err(plain_fault_of(&error)),
        }
    }

    /// Sends the end of what is written.
    fn shut_stream(&self, link: u64) -> Result<(), KernelFault>
        ensures { IfErr result (λ fault. is_want fault ≡ false) }
    {
        match self.links.stream(link) {
            Some(stream) => match stream.shutdown(Shutdown::Write) {
                Ok(()) => Ok(()),
                Err(error) => Err(plain_fault_of(&error)),
            },
            None => Err(KernelFault::Other),
        }
    }
}

impl<N: Net + Drop, T: Ticker + Drop> Kernel for MioKernel<N, T> {
    ghost step = { λ _ _ _. Unit {0} };

    ghost faults = { λ k. k.count };

    fn wait(&mut self, limit: Limit, ready: &mut ReadyList) -> Result<u64, KernelFault> {
        ready.clear();
        let result = self.wait_for(limit, ready);
        self.counted(result.is_err());
        result
    }

    fn listen(&mut self, link: u64, at: Address, backlog: u32) -> Result<(), KernelFault> {
        let result = self.make_listener(link, at, backlog);
        self.counted(result.is_err());
        result
    }

    fn connect(&mut self, link: u64, to: Address) -> Result<(), KernelFault> {
        let result = self.make_stream(link, to);
        self.counted(result.is_err());
        result
    }

    fn finish_connect(&mut self, link: u64) -> Finished {
        let finished = match self.links.stream(link) {
            Some(stream) => finish(stream),
            None => Finished::Failed(KernelFault::Other),
        };
        self.counted(matches!(finished, Finished::Failed(_)));
        finished
    }

    fn accept(&mut self, listener: u64, link: u64) -> Made {
        match self.take_stream(listener, link) {
            Ok(true) => Made::Made,
            Ok(false) => Made::NotYet,
            Err(fault) => {
                self.counted(true);
                Made::Failed(fault)
            }
        }
    }

    fn read(&mut self, link: u64, buf: &mut [u8]) -> Flow {
        let flow = match self.links.stream(link) {
            Some(stream) => read_from(stream, buf),
            None => Flow::Failed(KernelFault::Other),
        };
        self.counted(matches!(flow, Flow::Failed(_)));
        flow
    }

    fn write(&mut self, link: u64, bytes: &[u8]) -> Flow {
        let flow = match self.links.stream(link) {
            Some(stream) => write_to(stream, bytes),
            None => Flow::Failed(KernelFault::Other),
        };
        self.counted(matches!(flow, Flow::Failed(_)));
        flow
    }

    fn shut(&mut self, link: u64) -> Result<(), KernelFault> {
        let result = self.shut_stream(link);
        self.counted(result.is_err());
        result
    }

    fn close(&mut self, link: u64) {
        self.links.remove(link);
    }
}
