ghost use Rattle.std.specs.Prelude.{◌≡◌, ◌⊎◌, ◌<◌, ◌≤◌, ◌+◌, ◌^◌, [], ℕ, None, true, false, Bool, IfNone, IfSome, is_some};
ghost use Rattle.rand_core.specs.Stream.{Stream};
ghost use Rattle.dill_base.specs.declared.status.Status.TheVariants.{Well, Fault, Stuck, Spent, Sink as SinkFailed};
ghost use Rattle.dill_base.specs.Causes.{Rose};
ghost use Rattle.dill_kernel.specs.Entry.{ReplyHasCause};
ghost use Rattle.dill_drive.specs.Asks.{Counted};
ghost use Rattle.dill_drive.specs.Leading.{Leads};
ghost use Rattle.dill_drive.specs.Progress.{WasStuck, HasFault, IsEnd, is_wait};
ghost use Rattle.dill_drive.specs.Story.{Place, here, showing, final, fault_shown, no_tally, Trying, Stopping, Closing, Closes, Round, Over, is_sink, is_well};
ghost use Rattle.dill_drive.specs.Tells.{Concludes, NamesErrno, status_of};
ghost use Rattle.dill_drive.specs.Waiting.{waiter_lines};

use crate::lines::write_waiters;
use crate::progress::Progress;
use crate::{RunEnd, Stepper, Tally};
use dill_base::{Errno, Sink, Status};
use dill_calls::Counts;
use dill_kernel::{Kernel, ReadyList};
use rand_core::Rng;
use relay_trace::{Summary, write_summary};

fn well_or_fault(outcome: Option<Option<Errno>>) -> Status
    ensures { result ≡ final Well outcome }
{
    match outcome {
        Some(fault) => match fault {
            Some(_) => Status::Fault,
            None => Status::Well,
        },
        None => Status::Well,
    }
}

/// How a run ended whose rounds and closing turns ended so, by how `main` did.
fn final_of(stop: Status, outcome: Option<Option<Errno>>) -> Status
    ensures { result ≡ final stop outcome }
{
    match stop {
        Status::Well => well_or_fault(outcome),
        other => other,
    }
}

/// The errno that the summary names.
fn fault_of(status: Status, outcome: Option<Option<Errno>>) -> Option<Errno>
    ensures { result ≡ fault_shown status outcome }
{
    match status {
        Status::Fault => match outcome {
            Some(fault) => fault,
            None => None,
        },
        _ => None,
    }
}

impl<M: Stepper> Progress<M> {
    ghost use Rattle.dill_drive.specs.Progress.{stands, Runs, IsShut, KeepsBudget, place_at, StopsRounds, fails_now, stops_sink, stops_wait};

    /// Nobody can go on any more: those who wait are shown, and the run stops.
    fn stop_stuck<W: Sink>(&mut self, traced: bool, out: &mut W) -> Status
        ensures leads { (most : ℕ) (keys : Stream) → Leads M.means traced most (showing M.means traced most (stands self.old Round Stuck keys) Stopping (waiter_lines (M.means.waiting self.old.core))) (stands self.new Closing result keys) [] (W.told out.old) (W.told out.new) }
        ensures shut { IsShut M.closed M.owed self.new.core }
        ensures tally { self.new.tally ≡ self.old.tally }
        ensures status { (result ≡ Stuck) ⊎ (result ≡ SinkFailed) }
        ensures cause { ReplyHasCause (W.faults out.old) (W.faults out.new) (is_sink result) }
    {
        match write_waiters(&self.core, out) {
            Ok(()) => self.stop(Status::Stuck, traced, out),
            Err(_) => self.stop(Status::Sink, traced, out),
        }
    }

    /// A round behind its wait: its tries, what has expired, and its turns.
    fn round<K: Kernel, W: Sink, R: Rng>(
        &mut self,
        traced: bool,
        most: u64,
        kernel: &mut K,
        out: &mut W,
        keys: &mut R,
    ) -> Option<Status>
        requires budget { self.old.tally.turns + self.old.tally.rounds ≤ most }
        requires limit { most < 2 ^ 60 }
        ensures none { IfNone result (Runs M.means (Counted K.step K.faults) kernel.old kernel.new traced most (stands self.old Trying Well (R.stream keys.old)) (stands self.new Round Well (R.stream keys.new)) (W.told out.old) (W.told out.new)) }
        ensures some { IfSome result (λ stop. Runs M.means (Counted K.step K.faults) kernel.old kernel.new traced most (stands self.old Trying Well (R.stream keys.old)) (stands self.new Closing stop (R.stream keys.new)) (W.told out.old) (W.told out.new)) }
        ensures shut { IfSome result (λ stop. IsShut M.closed M.owed self.new.core) }
        ensures stop { IfSome result (λ stop. (stop ≡ Spent) ⊎ (stop ≡ SinkFailed)) }
        ensures counts { KeepsBudget self.old.tally self.new.tally most }
        ensures cause { ReplyHasCause (W.faults out.old) (W.faults out.new) (stops_sink result) }
    {
        if self.tries(traced, kernel, out, keys).is_err() {
            return Some(Status::Sink);
        }
        if self.expire(traced, out).is_err() {
            return Some(Status::Sink);
        }
        self.turns_of_round(traced, most, out, keys)
    }

    /// One round, where none of the reasons for a stop is met before it.
    fn one_round<K: Kernel, W: Sink, R: Rng>(
        &mut self,
        traced: bool,
        most: u64,
        ready: &mut ReadyList,
        kernel: &mut K,
        out: &mut W,
        keys: &mut R,
    ) -> Option<Status>
        requires going { is_some (M.means.ended self.old.core) ≡ false }
        requires budget { self.old.tally.turns + self.old.tally.rounds ≤ most }
        requires limit { most < 2 ^ 60 }
        ensures none { IfNone result (Runs M.means (Counted K.step K.faults) kernel.old kernel.new traced most (stands self.old Round Well (R.stream keys.old)) (stands self.new Round Well (R.stream keys.new)) (W.told out.old) (W.told out.new)) }
        ensures some { IfSome result (λ stop. Runs M.means (Counted K.step K.faults) kernel.old kernel.new traced most (stands self.old Round Well (R.stream keys.old)) (stands self.new Closing stop (R.stream keys.new)) (W.told out.old) (W.told out.new)) }
        ensures shut { IfSome result (λ stop. IsShut M.closed M.owed self.new.core) }
        ensures stop { IfSome result StopsRounds }
        ensures stuck { IfSome result (λ stop. stop ≡ Stuck → WasStuck M.means) }
        ensures rounds { IfNone result (self.new.tally.rounds ≡ self.old.tally.rounds + 1) }
        ensures budget { self.new.tally.turns + self.new.tally.rounds ≤ most }
        ensures turns { self.old.tally.turns ≤ self.new.tally.turns }
        ensures closing { self.new.tally.closing ≡ self.old.tally.closing }
        ensures cause { ReplyHasCause (W.faults out.old) (W.faults out.new) (stops_sink result) }
        ensures wait { stops_wait result ≡ true → Rose (K.faults kernel.old) (K.faults kernel.new) }
    {
        if self.core.is_stuck() {
            return Some(self.stop_stuck(traced, out));
        }
        if self.is_spent(most) {
            return Some(self.stop(Status::Spent, traced, out));
        }
        self.tally = self.tally.round();
        match kernel.wait(self.core.limit(), ready) {
            Ok(moment) => {
                self.core.woke(moment, ready);
                self.round(traced, most, kernel, out, keys)
            }
            Err(_) => Some(self.stop(Status::Wait, traced, out)),
        }
    }

    /// The rounds, until a stop or until `main` has ended (`Well`).
    fn rounds<K: Kernel, W: Sink, R: Rng>(
        &mut self,
        traced: bool,
        most: u64,
        kernel: &mut K,
        out: &mut W,
        keys: &mut R,
    ) -> Status
        requires budget { self.old.tally.turns + self.old.tally.rounds ≤ most }
        requires limit { most < 2 ^ 60 }
        ensures ended { result ≡ Well → is_some (M.means.ended self.new.core) ≡ true }
        ensures shut { is_well result ≡ false → IsShut M.closed M.owed self.new.core }
        ensures stop { (result ≡ Well) ⊎ StopsRounds result }
        ensures stuck { result ≡ Stuck → WasStuck M.means }
        ensures runs { Runs M.means (Counted K.step K.faults) kernel.old kernel.new traced most (stands self.old Round Well (R.stream keys.old)) (stands self.new (place_at result) result (R.stream keys.new)) (W.told out.old) (W.told out.new) }
        ensures closing { self.new.tally.closing ≡ self.old.tally.closing }
        ensures cause { ReplyHasCause (W.faults out.old) (W.faults out.new) (is_sink result) }
        ensures wait { is_wait result ≡ true → Rose (K.faults kernel.old) (K.faults kernel.new) }
    {
        let mut ready = ReadyList::new();
        while !self.has_ended() {
            if let Some(stop) = self.one_round(traced, most, &mut ready, kernel, out, keys) {
                return stop;
            }
        }
        Status::Well
    }

    fn summary(&self, status: Status) -> Summary
        ensures { result ≡ record {
          status = status;
          errno = fault_shown status (M.means.ended self.now.core);
          turns = self.now.tally.turns;
          rounds = self.now.tally.rounds;
          closing = self.now.tally.closing;
          counts = record { made = M.means.made self.now.core; gone = M.means.gone self.now.core; lacks = self.now.tally.lacks };
        } }
    {
        Summary {
            status,
            errno: fault_of(status, self.core.ended()),
            turns: self.tally.turns,
            rounds: self.tally.rounds,
            closing: self.tally.closing,
            counts: Counts {
                made: self.core.made(),
                gone: self.core.gone(),
                lacks: self.tally.lacks,
            },
        }
    }

    /// What follows the end of `main` in a run that wasn't stopped: the closes that are still due. Where a line isn't written
    /// the run stops, and goes on from there.
    fn end_well<K: Kernel, W: Sink, R: Rng>(
        &mut self,
        traced: bool,
        kernel: &mut K,
        out: &mut W,
        keys: &mut R,
    ) -> Status
        requires ended { is_some (M.means.ended self.old.core) ≡ true }
        requires room { self.old.tally.closing ≡ 0 }
        ensures runs { (most : ℕ) → Runs M.means (Counted K.step K.faults) kernel.old kernel.new traced most (stands self.old Round Well (R.stream keys.old)) (stands self.new Closes result (R.stream keys.new)) (W.told out.old) (W.told out.new) }
        ensures none { M.means.next_try self.new.core ≡ None }
        ensures status { (result ≡ Well) ⊎ (result ≡ SinkFailed) }
        ensures cause { ReplyHasCause (W.faults out.old) (W.faults out.new) (fails_now Well result) }
    {
        match self.tries(traced, kernel, out, keys) {
            Ok(()) => Status::Well,
            Err(_) => self.close_all(Status::Sink, traced, kernel, out, keys),
        }
    }

    /// What follows the rounds: after a stop the turns until `main` has ended, and then the closes that are still due.
    fn wind_up<K: Kernel, W: Sink, R: Rng>(
        &mut self,
        stop: Status,
        traced: bool,
        kernel: &mut K,
        out: &mut W,
        keys: &mut R,
    ) -> Status
        requires ended { stop ≡ Well → is_some (M.means.ended self.old.core) ≡ true }
        requires shut { is_well stop ≡ false → IsShut M.closed M.owed self.old.core }
        requires stop { (stop ≡ Well) ⊎ StopsRounds stop }
        requires room { self.old.tally.closing ≡ 0 }
        ensures runs { (most : ℕ) → Runs M.means (Counted K.step K.faults) kernel.old kernel.new traced most (stands self.old (place_at stop) stop (R.stream keys.old)) (stands self.new Closes result (R.stream keys.new)) (W.told out.old) (W.told out.new) }
        ensures none { M.means.next_try self.new.core ≡ None }
        ensures status { (result ≡ stop) ⊎ (result ≡ SinkFailed) }
        ensures cause { ReplyHasCause (W.faults out.old) (W.faults out.new) (fails_now stop result) }
    {
        if let Status::Well = stop {
            return self.end_well(traced, kernel, out, keys);
        }
        self.close_all(stop, traced, kernel, out, keys)
    }

    /// The summary of a run in which nothing is due any more. After a failed write it isn't written.
    fn finish<W: Sink>(&self, stop: Status, out: &mut W) -> Status
        requires none { M.means.next_try self.now.core ≡ None }
        ensures leads { (traced : Bool) (most : ℕ) (keys : Stream) → Leads M.means traced most (stands self.now Closes stop keys) (stands self.now Over result keys) [] (W.told out.old) (W.told out.new) }
        ensures status { (result ≡ final stop (M.means.ended self.now.core)) ⊎ (result ≡ SinkFailed) }
        ensures cause { ReplyHasCause (W.faults out.old) (W.faults out.new) (fails_now stop result) }
    {
        if let Status::Sink = stop {
            return Status::Sink;
        }
        let status = final_of(stop, self.core.ended());
        match write_summary(&self.summary(status), out) {
            Ok(()) => status,
            Err(_) => Status::Sink,
        }
    }

    /// A whole run, from before its first round.
    fn whole<K: Kernel, W: Sink, R: Rng>(
        &mut self,
        traced: bool,
        most: u64,
        kernel: &mut K,
        out: &mut W,
        keys: &mut R,
    ) -> Status
        requires counts { self.old.tally ≡ no_tally }
        requires limit { most < 2 ^ 60 }
        ensures end { IsEnd result }
        ensures fault { result ≡ Fault → HasFault (M.means.ended self.new.core) }
        ensures stuck { result ≡ Stuck → WasStuck M.means }
        ensures runs { Runs M.means (Counted K.step K.faults) kernel.old kernel.new traced most (stands self.old Round Well (R.stream keys.old)) (stands self.new Over result (R.stream keys.new)) (W.told out.old) (W.told out.new) }
        ensures cause { ReplyHasCause (W.faults out.old) (W.faults out.new) (is_sink result) }
        ensures wait { is_wait result ≡ true → Rose (K.faults kernel.old) (K.faults kernel.new) }
    {
        let stop = self.rounds(traced, most, kernel, out, keys);
        let last = self.wind_up(stop, traced, kernel, out, keys);
        self.finish(last, out)
    }
}

/// How a run ended whose `main` ended with an errno.
fn faulted(outcome: Option<Option<Errno>>) -> RunEnd
    requires { HasFault outcome }
    ensures status { status_of result ≡ Fault }
    ensures errno { NamesErrno outcome result }
{
    match outcome {
        Some(fault) => match fault {
            Some(errno) => RunEnd::Faulted(errno),
            None => RunEnd::Ended,
        },
        None => RunEnd::Ended,
    }
}

/// How a run ended, by the status at its end and by how `main` ended.
fn end_of(status: Status, outcome: Option<Option<Errno>>) -> RunEnd
    requires end { IsEnd status }
    requires fault { status ≡ Fault → HasFault outcome }
    ensures status { status_of result ≡ status }
    ensures errno { NamesErrno outcome result }
{
    match status {
        Status::Fault => faulted(outcome),
        Status::Stuck => RunEnd::Stuck,
        Status::Spent => RunEnd::Spent,
        Status::Wait => RunEnd::WaitFault,
        Status::Sink => RunEnd::WriteFault,
        _ => RunEnd::Ended,
    }
}

/// Drives a core over a kernel and a sink until `main` has ended and its summary was written, and says how the run ended.
///
/// `turns` bounds turns and rounds together; at most 999,999,999,999,999,999. After a stop further turns, which are counted apart, go on until `main` has ended. `traced` adds each call, answer and note to the texts that are printed. After a failed write no more is written: where a run goes on, the count of failed writes stayed. The kernel's count of failures rose in each of its calls that failed, and in no other.
pub fn drive<M: Stepper, K: Kernel, W: Sink, R: Rng>(
    first: M,
    traced: bool,
    turns: u64,
    kernel: &mut K,
    out: &mut W,
    keys: &mut R,
) -> RunEnd
    requires limit { turns ≤ 999999999999999999 }
    ensures end { IsEnd (status_of result) }
    ensures stuck { status_of result ≡ Stuck → WasStuck M.means }
    ensures runs { Concludes M.means (Counted K.step K.faults) kernel.old kernel.new traced turns first (R.stream keys.old) (R.stream keys.new) (W.told out.old) (W.told out.new) result }
    ensures cause { ReplyHasCause (W.faults out.old) (W.faults out.new) (is_sink (status_of result)) }
    ensures kernel_cause { K.faults kernel.old ≤ K.faults kernel.new }
    ensures wait { is_wait (status_of result) ≡ true → Rose (K.faults kernel.old) (K.faults kernel.new) }
{
    let mut progress = Progress {
        core: first,
        tally: Tally::new(),
    };
    let status = progress.whole(traced, turns, kernel, out, keys);
    end_of(status, progress.core.ended())
}
