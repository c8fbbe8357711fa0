ghost use Rattle.std.specs.Prelude.{◌≡◌, ◌⊎◌, ◌<◌, ℕ, List, length, Some, None, true, false, OnOk, OnErr};
ghost use Rattle.rand_core.specs.Stream.{Stream};
ghost use Rattle.dill_base.specs.Causes.{HasCause};
ghost use Rattle.dill_base.specs.declared.status.Status.TheVariants.{Well, Sink as SinkFailed};
ghost use Rattle.dill_kernel.specs.declared.replies.KernelAsk.{KernelAsk};
ghost use Rattle.dill_kernel.specs.declared.replies.KernelAsk.TheVariants as kernel_asks;
ghost use Rattle.dill_kernel.specs.Entry as entries;
ghost use Rattle.dill_kernel.specs.Entry.{ReplyHasCause, MovesAtMost};
ghost use Rattle.dill_drive.specs.Asks.{Counted, asks_for, IsOffered, said, fits_due};
ghost use Rattle.dill_drive.specs.Story.{Place, Closing, Closes, is_sink, is_well};

use crate::lines::write_notes;
use crate::progress::Progress;
use crate::{Ask, Reply, Stepper};
use dill_base::{Address, Failed, Sink, Status};
use dill_kernel::{Finished, Flow, Kernel, KernelFault, Made};
use rand_core::Rng;

/// How many bytes a read asks for.
const READ_SIZE: usize = 4096;

fn plain(done: Result<(), KernelFault>) -> Reply<'static>
    ensures { said result ≡ entries.plain done }
{
    match done {
        Ok(()) => Reply::Done,
        Err(fault) => Reply::Failed(fault),
    }
}

fn made(one: Made) -> Reply<'static>
    ensures { said result ≡ entries.made_reply one }
{
    match one {
        Made::Made => Reply::Done,
        Made::NotYet => Reply::NotYet,
        Made::Failed(fault) => Reply::Failed(fault),
    }
}

fn finished(how: Finished) -> Reply<'static>
    ensures { said result ≡ entries.finished_reply how }
{
    match how {
        Finished::Done => Reply::Done,
        Finished::NotYet => Reply::NotYet,
        Finished::Failed(fault) => Reply::Failed(fault),
    }
}

/// What was read into a buffer.
fn came(flow: Flow, buf: &[u8]) -> Reply<'_>
    requires { MovesAtMost (length buf.now) flow }
    ensures { said result ≡ entries.read_reply buf.now flow }
{
    match flow {
        Flow::Moved(count) => Reply::Came(&buf[..count]),
        Flow::End => Reply::End,
        Flow::NotYet => Reply::NotYet,
        Flow::Failed(fault) => Reply::Failed(fault),
    }
}

fn took(flow: Flow) -> Reply<'static>
    ensures { said result ≡ entries.write_reply flow }
{
    match flow {
        Flow::Moved(count) => Reply::Took(count),
        Flow::End => Reply::End,
        Flow::NotYet => Reply::NotYet,
        Flow::Failed(fault) => Reply::Failed(fault),
    }
}

impl<M: Stepper> Progress<M> {
    ghost use Rattle.dill_drive.specs.Progress.{stands, Runs, Heard, Hears, IsShut, IsTrying, KeepsTurns, fails_now};

    /// The reply to what was asked is heard and counted.
    fn hear<R: Rng>(&mut self, reply: Reply<'_>, keys: &mut R)
        requires due { fits_due (M.means.next_try self.old.core) (said reply) ≡ true }
        ensures heard { (ask : KernelAsk) → M.means.next_try self.old.core ≡ Some ask → Heard M.means self.old self.new ask (said reply.entry) (R.stream keys.old) (R.stream keys.new) }
        ensures fewer { M.tries self.new.core < M.tries self.old.core }
    {
        self.tally = self.tally.reply(reply);
        self.core.hear(reply, keys);
    }

    fn close_link<K: Kernel, R: Rng>(&mut self, link: u64, kernel: &mut K, keys: &mut R)
        requires due { M.means.next_try self.old.core ≡ Some (kernel_asks.Close link) }
        ensures hears { Hears M.means (Counted K.step K.faults) kernel.old kernel.new self.old self.new (kernel_asks.Close link) (R.stream keys.old) (R.stream keys.new) }
        ensures fewer { M.tries self.new.core < M.tries self.old.core }
    {
        kernel.close(link);
        self.hear(Reply::Done, keys);
    }

    fn listen<K: Kernel, R: Rng>(
        &mut self,
        link: u64,
        at: Address,
        backlog: u32,
        kernel: &mut K,
        keys: &mut R,
    )
        requires due { M.means.next_try self.old.core ≡ Some (kernel_asks.Listen link at backlog) }
        ensures hears { Hears M.means (Counted K.step K.faults) kernel.old kernel.new self.old self.new (kernel_asks.Listen link at backlog) (R.stream keys.old) (R.stream keys.new) }
        ensures fewer { M.tries self.new.core < M.tries self.old.core }
    {
        let reply = plain(kernel.listen(link, at, backlog));
        self.hear(reply, keys);
    }

    fn connect<K: Kernel, R: Rng>(&mut self, link: u64, to: Address, kernel: &mut K, keys: &mut R)
        requires due { M.means.next_try self.old.core ≡ Some (kernel_asks.Connect link to) }
        ensures hears { Hears M.means (Counted K.step K.faults) kernel.old kernel.new self.old self.new (kernel_asks.Connect link to) (R.stream keys.old) (R.stream keys.new) }
        ensures fewer { M.tries self.new.core < M.tries self.old.core }
    {
        let reply = plain(kernel.connect(link, to));
        self.hear(reply, keys);
    }

    fn finish_connect<K: Kernel, R: Rng>(&mut self, link: u64, kernel: &mut K, keys: &mut R)
        requires due { M.means.next_try self.old.core ≡ Some (kernel_asks.Finish link) }
        ensures hears { Hears M.means (Counted K.step K.faults) kernel.old kernel.new self.old self.new (kernel_asks.Finish link) (R.stream keys.old) (R.stream keys.new) }
        ensures fewer { M.tries self.new.core < M.tries self.old.core }
    {
        let reply = finished(kernel.finish_connect(link));
        self.hear(reply, keys);
    }

    fn accept<K: Kernel, R: Rng>(&mut self, listener: u64, link: u64, kernel: &mut K, keys: &mut R)
        requires due { M.means.next_try self.old.core ≡ Some (kernel_asks.Accept listener link) }
        ensures hears { Hears M.means (Counted K.step K.faults) kernel.old kernel.new self.old self.new (kernel_asks.Accept listener link) (R.stream keys.old) (R.stream keys.new) }
        ensures fewer { M.tries self.new.core < M.tries self.old.core }
    {
        let reply = made(kernel.accept(listener, link));
        self.hear(reply, keys);
    }

    fn write<K: Kernel, R: Rng>(&mut self, link: u64, kernel: &mut K, keys: &mut R)
        requires due { M.means.next_try self.old.core ≡ Some (kernel_asks.Write link (M.offers self.old.core)) }
        requires some { 0 < length (M.offers self.old.core) }
        ensures hears { Hears M.means (Counted K.step K.faults) kernel.old kernel.new self.old self.new (kernel_asks.Write link (M.offers self.old.core)) (R.stream keys.old) (R.stream keys.new) }
        ensures fewer { M.tries self.new.core < M.tries self.old.core }
    {
        let reply = took(kernel.write(link, self.core.offered()));
        self.hear(reply, keys);
    }

    fn shut_link<K: Kernel, R: Rng>(&mut self, link: u64, kernel: &mut K, keys: &mut R)
        requires due { M.means.next_try self.old.core ≡ Some (kernel_asks.Shut link) }
        ensures hears { Hears M.means (Counted K.step K.faults) kernel.old kernel.new self.old self.new (kernel_asks.Shut link) (R.stream keys.old) (R.stream keys.new) }
        ensures fewer { M.tries self.new.core < M.tries self.old.core }
    {
        let reply = plain(kernel.shut(link));
        self.hear(reply, keys);
    }

    fn read<K: Kernel, R: Rng>(&mut self, link: u64, kernel: &mut K, keys: &mut R)
        requires due { M.means.next_try self.old.core ≡ Some (kernel_asks.Read link 4096) }
        ensures hears { Hears M.means (Counted K.step K.faults) kernel.old kernel.new self.old self.new (kernel_asks.Read link 4096) (R.stream keys.old) (R.stream keys.new) }
        ensures fewer { M.tries self.new.core < M.tries self.old.core }
    {
        let mut piece = [0; READ_SIZE];
        let flow = kernel.read(link, &mut piece);
        self.hear(came(flow, &piece), keys);
    }

    /// The kernel is asked for what is due, and its reply is heard.
    fn ask<K: Kernel, R: Rng>(&mut self, ask: Ask, kernel: &mut K, keys: &mut R)
        requires due { M.means.next_try self.old.core ≡ Some (asks_for ask (M.offers self.old.core)) }
        requires offers { IsOffered ask (M.offers self.old.core) }
        ensures hears { Hears M.means (Counted K.step K.faults) kernel.old kernel.new self.old self.new (asks_for ask (M.offers self.old.core)) (R.stream keys.old) (R.stream keys.new) }
        ensures fewer { M.tries self.new.core < M.tries self.old.core }
    {
        match ask {
            Ask::Close(link) => self.close_link(link, kernel, keys),
            Ask::Listen(link, at, backlog) => self.listen(link, at, backlog, kernel, keys),
            Ask::Connect(link, to) => self.connect(link, to, kernel, keys),
            Ask::Finish(link) => self.finish_connect(link, kernel, keys),
            Ask::Accept(listener, link) => self.accept(listener, link, kernel, keys),
            Ask::Write(link) => self.write(link, kernel, keys),
            Ask::Shut(link) => self.shut_link(link, kernel, keys),
            Ask::Read(link) => self.read(link, kernel, keys),
        }
    }

    /// A try of a round or a close after the end of `main`, and the notes of its step. Where these aren't written the run stops.
    fn one_try<K: Kernel, W: Sink, R: Rng>(
        &mut self,
        ask: Ask,
        traced: bool,
        kernel: &mut K,
        out: &mut W,
        keys: &mut R,
    ) -> Result<(), Failed>
        requires due { M.means.next_try self.old.core ≡ Some (asks_for ask (M.offers self.old.core)) }
        requires offers { IsOffered ask (M.offers self.old.core) }
        ensures ok { OnOk result ((most : ℕ) (place : Place) → IsTrying place → Runs M.means (Counted K.step K.faults) kernel.old kernel.new traced most (stands self.old place Well (R.stream keys.old)) (stands self.new place Well (R.stream keys.new)) (W.told out.old) (W.told out.new)) }
        ensures err { OnErr result ((most : ℕ) (place : Place) → IsTrying place → Runs M.means (Counted K.step K.faults) kernel.old kernel.new traced most (stands self.old place Well (R.stream keys.old)) (stands self.new Closing SinkFailed (R.stream keys.new)) (W.told out.old) (W.told out.new)) }
        ensures shut { OnErr result (IsShut M.closed M.owed self.new.core) }
        ensures fewer { OnOk result (M.tries self.new.core < M.tries self.old.core) }
        ensures counts { KeepsTurns self.old.tally self.new.tally }
        ensures cause { HasCause (W.faults out.old) (W.faults out.new) result }
    {
        self.ask(ask, kernel, keys);
        match write_notes(self.core.notes(), traced, out) {
            Ok(()) => Ok(()),
            Err(fault) => {
                self.core.shut();
                Err(fault)
            }
        }
    }

    /// All tries of a round, or all closes after the end of `main`. Where a line isn't written the run stops.
    pub(crate) fn tries<K: Kernel, W: Sink, R: Rng>(
        &mut self,
        traced: bool,
        kernel: &mut K,
        out: &mut W,
        keys: &mut R,
    ) -> Result<(), Failed>
        ensures ok { OnOk result ((most : ℕ) (place : Place) → IsTrying place → Runs M.means (Counted K.step K.faults) kernel.old kernel.new traced most (stands self.old place Well (R.stream keys.old)) (stands self.new place Well (R.stream keys.new)) (W.told out.old) (W.told out.new)) }
        ensures none { OnOk result (M.means.next_try self.new.core ≡ None) }
        ensures err { OnErr result ((most : ℕ) (place : Place) → IsTrying place → Runs M.means (Counted K.step K.faults) kernel.old kernel.new traced most (stands self.old place Well (R.stream keys.old)) (stands self.new Closing SinkFailed (R.stream keys.new)) (W.told out.old) (W.told out.new)) }
        ensures shut { OnErr result (IsShut M.closed M.owed self.new.core) }
        ensures counts { KeepsTurns self.old.tally self.new.tally }
        ensures cause { HasCause (W.faults out.old) (W.faults out.new) result }
    {
        while let Some(ask) = self.core.next_try() {
            self.one_try(ask, traced, kernel, out, keys)?;
        }
        Ok(())
    }

    /// A close after a stop and the end of `main`. After a failed write it writes no more.
    fn one_close<K: Kernel, W: Sink, R: Rng>(
        &mut self,
        ask: Ask,
        status: Status,
        traced: bool,
        kernel: &mut K,
        out: &mut W,
        keys: &mut R,
    ) -> Status
        requires due { M.means.next_try self.old.core ≡ Some (asks_for ask (M.offers self.old.core)) }
        requires offers { IsOffered ask (M.offers self.old.core) }
        requires stopped { is_well status ≡ false }
        ensures runs { (most : ℕ) → Runs M.means (Counted K.step K.faults) kernel.old kernel.new traced most (stands self.old Closes status (R.stream keys.old)) (stands self.new Closes result (R.stream keys.new)) (W.told out.old) (W.told out.new) }
        ensures status { (result ≡ status) ⊎ (result ≡ SinkFailed) }
        ensures fewer { M.tries self.new.core < M.tries self.old.core }
        ensures cause { ReplyHasCause (W.faults out.old) (W.faults out.new) (fails_now status result) }
    {
        self.ask(ask, kernel, keys);
        if let Status::Sink = status {
            return Status::Sink;
        }
        match write_notes(self.core.notes(), traced, out) {
            Ok(()) => status,
            Err(_) => Status::Sink,
        }
    }

    /// All closes after a stop and the end of `main`.
    fn closes<K: Kernel, W: Sink, R: Rng>(
        &mut self,
        stop: Status,
        traced: bool,
        kernel: &mut K,
        out: &mut W,
        keys: &mut R,
    ) -> Status
        requires stopped { is_well stop ≡ false }
        ensures runs { (most : ℕ) → Runs M.means (Counted K.step K.faults) kernel.old kernel.new traced most (stands self.old Closes stop (R.stream keys.old)) (stands self.new Closes result (R.stream keys.new)) (W.told out.old) (W.told out.new) }
        ensures none { M.means.next_try self.new.core ≡ None }
        ensures status { (result ≡ stop) ⊎ (result ≡ SinkFailed) }
        ensures cause { ReplyHasCause (W.faults out.old) (W.faults out.new) (fails_now stop result) }
    {
        let mut status = stop;
        while let Some(ask) = self.core.next_try() {
            status = self.one_close(ask, status, traced, kernel, out, keys);
        }
        status
    }

    /// What follows a stop: turns until `main` has ended, and then the closes that are still due.
    pub(crate) fn close_all<K: Kernel, W: Sink, R: Rng>(
        &mut self,
        stop: Status,
        traced: bool,
        kernel: &mut K,
        out: &mut W,
        keys: &mut R,
    ) -> Status
        requires shut { IsShut M.closed M.owed self.old.core }
        requires stopped { is_well stop ≡ false }
        requires room { self.old.tally.closing ≡ 0 }
        ensures runs { (most : ℕ) → Runs M.means (Counted K.step K.faults) kernel.old kernel.new traced most (stands self.old Closing stop (R.stream keys.old)) (stands self.new Closes result (R.stream keys.new)) (W.told out.old) (W.told out.new) }
        ensures none { M.means.next_try self.new.core ≡ None }
        ensures status { (result ≡ stop) ⊎ (result ≡ SinkFailed) }
        ensures cause { ReplyHasCause (W.faults out.old) (W.faults out.new) (fails_now stop result) }
    {
        let last = self.close(stop, traced, out, keys);
        self.closes(last, traced, kernel, out, keys)
    }
}
