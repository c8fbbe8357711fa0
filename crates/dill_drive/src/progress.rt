ghost use Rattle.std.specs.Prelude.{◌≡◌, ◌⊎◌, ◌==◌, ◌||◌, ◌<◌, ◌≤◌, ◌+◌, ◌-◌, ◌^◌, [], ℕ, None, true, false, not, OnOk, OnErr, IfNone, IfSome, is_some};
ghost use Rattle.rand_core.specs.Stream.{Stream};
ghost use Rattle.dill_base.specs.Causes.{HasCause};
ghost use Rattle.dill_base.specs.declared.status.Status.TheVariants.{Well, Spent, Sink as SinkFailed};
ghost use Rattle.dill_kernel.specs.Entry.{ReplyHasCause};
ghost use Rattle.dill_drive.specs.Leading.{Leads};
ghost use Rattle.dill_drive.specs.Story.{Place, here, stopped, Trying, Turns, Due, Last, Closing, Round, Over, is_sink, is_well};

use crate::lines::{write_notes, write_turn};
use crate::{Stepper, Tally};
use dill_base::{Failed, Sink, Status};
use rand_core::Rng;

/// A core and what its run has counted.
#[derive(Drop)]
pub(crate) struct Progress<M> {
    pub(crate) core: M,
    pub(crate) tally: Tally,
}

/// How many turns a round has at most.
const TURNS: u64 = 64;

impl<M: Stepper> Progress<M> {
    ghost use Rattle.dill_drive.specs.Progress.{stands, IsShut, KeepsBudget, fails_now, stops_sink};

    pub(crate) fn has_ended(&self) -> bool
        ensures { result ≡ is_some (M.means.ended self.now.core) }
    {
        self.core.ended().is_some()
    }

    /// Whether turns and rounds have reached the budget.
    pub(crate) fn is_spent(&self, most: u64) -> bool
        requires budget { self.now.tally.turns + self.now.tally.rounds ≤ most }
        requires limit { most < 2 ^ 60 }
        ensures { result ≡ (self.now.tally.turns + self.now.tally.rounds == most) }
    {
        self.tally.turns + self.tally.rounds == most
    }

    /// The root is closed after a stop. After a failed write it writes no more.
    pub(crate) fn stop<W: Sink>(&mut self, stop: Status, traced: bool, out: &mut W) -> Status
        requires { is_well stop ≡ false }
        ensures leads { (most : ℕ) (place : Place) (before : Status) (keys : Stream) → Leads M.means traced most (stopped M.means traced most (stands self.old place before keys) stop) (stands self.new Closing result keys) [] (W.told out.old) (W.told out.new) }
        ensures shut { IsShut M.closed M.owed self.new.core }
        ensures tally { self.new.tally ≡ self.old.tally }
        ensures status { (result ≡ stop) ⊎ (result ≡ SinkFailed) }
        ensures cause { ReplyHasCause (W.faults out.old) (W.faults out.new) (fails_now stop result) }
    {
        self.core.shut();
        if let Status::Sink = stop {
            return Status::Sink;
        }
        match write_notes(self.core.notes(), traced, out) {
            Ok(()) => stop,
            Err(_) => Status::Sink,
        }
    }

    /// The deadlines that have passed, and their notes. Where these aren't written the run stops.
    pub(crate) fn expire<W: Sink>(&mut self, traced: bool, out: &mut W) -> Result<(), Failed>
        requires none { M.means.next_try self.old.core ≡ None }
        ensures ok { OnOk result ((most : ℕ) (keys : Stream) → Leads M.means traced most (stands self.old Trying Well keys) (stands self.new (Turns 64) Well keys) [] (W.told out.old) (W.told out.new)) }
        ensures err { OnErr result ((most : ℕ) (keys : Stream) → Leads M.means traced most (stands self.old Trying Well keys) (stands self.new Closing SinkFailed keys) [] (W.told out.old) (W.told out.new)) }
        ensures shut { OnErr result (IsShut M.closed M.owed self.new.core) }
        ensures tally { self.new.tally ≡ self.old.tally }
        ensures cause { HasCause (W.faults out.old) (W.faults out.new) result }
    {
        self.core.expire();
        match write_notes(self.core.notes(), traced, out) {
            Ok(()) => Ok(()),
            Err(fault) => {
                self.core.shut();
                Err(fault)
            }
        }
    }

    /// One turn of a round, its lines and the notes of its step. Where these aren't written the run stops.
    fn one_turn<W: Sink, R: Rng>(
        &mut self,
        traced: bool,
        out: &mut W,
        keys: &mut R,
    ) -> Result<(), Failed>
        requires going { M.means.ended self.old.core ≡ None }
        requires answered { M.means.answered self.old.core ≡ true }
        requires room { self.old.tally.turns < 2 ^ 63 }
        ensures ok { OnOk result ((most left : ℕ) → Leads M.means traced most (stands self.old (Due left) Well (R.stream keys.old)) (stands self.new (Turns (left - 1)) Well (R.stream keys.new)) [] (W.told out.old) (W.told out.new)) }
        ensures err { OnErr result ((most left : ℕ) → Leads M.means traced most (stands self.old (Due left) Well (R.stream keys.old)) (stands self.new Closing SinkFailed (R.stream keys.new)) [] (W.told out.old) (W.told out.new)) }
        ensures shut { OnErr result (IsShut M.closed M.owed self.new.core) }
        ensures turns { self.new.tally.turns ≡ self.old.tally.turns + 1 }
        ensures rounds { self.new.tally.rounds ≡ self.old.tally.rounds }
        ensures closing { self.new.tally.closing ≡ self.old.tally.closing }
        ensures cause { HasCause (W.faults out.old) (W.faults out.new) result }
    {
        let ran = self.core.turn(keys);
        self.tally = self.tally.turn(ran.lack);
        match write_turn(&ran, self.core.notes(), traced, out) {
            Ok(()) => Ok(()),
            Err(fault) => {
                self.core.shut();
                Err(fault)
            }
        }
    }

    /// Whether no turn can be made in this round any more: `main` has ended, or nobody has an answer.
    fn rests(&self) -> bool
        ensures { result ≡ (is_some (M.means.ended self.now.core) || not (M.means.answered self.now.core)) }
    {
        self.has_ended() || !self.core.is_answered()
    }

    /// The turns of a round, until a stop.
    pub(crate) fn turns_of_round<W: Sink, R: Rng>(
        &mut self,
        traced: bool,
        most: u64,
        out: &mut W,
        keys: &mut R,
    ) -> Option<Status>
        requires budget { self.old.tally.turns + self.old.tally.rounds ≤ most }
        requires limit { most < 2 ^ 60 }
        ensures none { IfNone result (Leads M.means traced most (stands self.old (Turns 64) Well (R.stream keys.old)) (stands self.new Round Well (R.stream keys.new)) [] (W.told out.old) (W.told out.new)) }
        ensures some { IfSome result (λ stop. Leads M.means traced most (stands self.old (Turns 64) Well (R.stream keys.old)) (stands self.new Closing stop (R.stream keys.new)) [] (W.told out.old) (W.told out.new)) }
        ensures shut { IfSome result (λ stop. IsShut M.closed M.owed self.new.core) }
        ensures stop { IfSome result (λ stop. (stop ≡ Spent) ⊎ (stop ≡ SinkFailed)) }
        ensures counts { KeepsBudget self.old.tally self.new.tally most }
        ensures cause { ReplyHasCause (W.faults out.old) (W.faults out.new) (stops_sink result) }
    {
        for made in 0..TURNS {
            if self.rests() {
                return None;
            }
            if self.is_spent(most) {
                return Some(self.stop(Status::Spent, traced, out));
            }
            if self.one_turn(traced, out, keys).is_err() {
                return Some(Status::Sink);
            }
        }
        None
    }

    /// One turn after a stop. After a failed write it writes no more.
    fn last_turn<W: Sink, R: Rng>(
        &mut self,
        status: Status,
        traced: bool,
        out: &mut W,
        keys: &mut R,
    ) -> Status
        requires going { M.means.ended self.old.core ≡ None }
        requires closed { M.closed self.old.core }
        requires stopped { is_well status ≡ false }
        requires room { self.old.tally.closing < 2 ^ 63 }
        ensures leads { (most : ℕ) → Leads M.means traced most (stands self.old Last status (R.stream keys.old)) (stands self.new Closing result (R.stream keys.new)) [] (W.told out.old) (W.told out.new) }
        ensures status { (result ≡ status) ⊎ (result ≡ SinkFailed) }
        ensures closed { M.closed self.new.core }
        ensures fewer { M.owed self.new.core < M.owed self.old.core }
        ensures counts { self.new.tally.closing ≡ self.old.tally.closing + 1 }
        ensures cause { ReplyHasCause (W.faults out.old) (W.faults out.new) (fails_now status result) }
    {
        let ran = self.core.turn(keys);
        self.tally = self.tally.last_turn(ran.lack);
        if let Status::Sink = status {
            return Status::Sink;
        }
        match write_turn(&ran, self.core.notes(), traced, out) {
            Ok(()) => status,
            Err(_) => Status::Sink,
        }
    }

    /// The turns after a stop, until `main` has ended.
    pub(crate) fn close<W: Sink, R: Rng>(
        &mut self,
        stop: Status,
        traced: bool,
        out: &mut W,
        keys: &mut R,
    ) -> Status
        requires shut { IsShut M.closed M.owed self.old.core }
        requires stopped { is_well stop ≡ false }
        requires room { self.old.tally.closing ≡ 0 }
        ensures ended { is_some (M.means.ended self.new.core) ≡ true }
        ensures leads { (most : ℕ) → Leads M.means traced most (stands self.old Closing stop (R.stream keys.old)) (stands self.new Closing result (R.stream keys.new)) [] (W.told out.old) (W.told out.new) }
        ensures status { (result ≡ stop) ⊎ (result ≡ SinkFailed) }
        ensures cause { ReplyHasCause (W.faults out.old) (W.faults out.new) (fails_now stop result) }
    {
        let mut status = stop;
        while !self.has_ended() {
            status = self.last_turn(status, traced, out, keys);
        }
        status
    }
}
