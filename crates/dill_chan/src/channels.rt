ghost use Rattle.std.specs.Prelude.{◌≡◌, ◌+◌, ◌*◌, ◌<◌, ◌≤◌, ◌==◌, [], filter, length, true, false, not, nat_lt, IfOk, IfSome, OnOk, OnErr, vec_capacity, vec_len};
ghost use Rattle.std.specs.List.{list_all};
ghost use Rattle.dill_slots.specs.Pairs.{each_pair, has};
ghost use Rattle.dill_chan.specs.Channels as channels;
ghost use Rattle.dill_chan.specs.Choosing as choosing;
ghost use Rattle.dill_chan.specs.Channels.{is_live, next_ends};
ghost use Rattle.dill_chan.specs.Meetings as meetings;
ghost use Rattle.dill_chan.specs.Meetings.{meeting, has_ended, next_ended};
ghost use Rattle.dill_chan.specs.declared.end.Want.TheVariants.{Send, Recv};
ghost use Rattle.dill_chan.specs.Seats as seats;
ghost use Rattle.dill_chan.specs.Seats.{nobody, has_seat, has_room_for, is_above_all, is_waiting, waits_under, are_two_waits, are_clauses, may_wait, entered, channels_of, on_channels, most_seats, most_clauses};

use crate::ends::{find_end, has_ended, mark_done, recv_has_ended, remove_end, send_has_ended};
use crate::waits::{find_partner, is_waiting, leave, meet, meet_copied, next_ended, take_partner};
use crate::{End, Meeting, Wait, Want};
use dill_base::{NoMemory, Octets};
use dill_slots::Steps;
use std::alloc::Global;
use std::marker::Model;
use std::sync::ledger::Ledger;

/// How many clauses of a coroutine wait at most.
const CLAUSES: usize = 16;

/// Channels without room, and the at most 65,536 coroutines that may wait at their ends, under 16 clauses each. A plain send or
/// receive is the clause 0. Each call looks at all ends and at all that wait.
#[derive(Drop)]
pub struct Channels {
    ends: Vec<End>,
    waits: Vec<Wait>,
    seats: Vec<u64>,
    last: u64,
}

impl Model for Channels {
    ghost use Rattle.std.specs.Prelude.{vec_capacity};
    ghost use Rattle.dill_chan.specs.Seats.{Seated, seated, IsHeld};

    ghost Value = { Seated };

    ghost view = { λ c. seated c.ends.items c.waits.items c.seats.items c.last };

    ghost invariant = { λ c. IsHeld c.waits.items c.seats.items (vec_capacity c.waits) };
}

/// A clause is entered at an end: it has its end, or meets the clause that has waited longest, or waits.
fn enter(ends: &[End], waits: &mut Vec<Wait>, wait: Wait) -> Meeting
    requires { vec_len waits.old < vec_capacity waits.old }
    ensures met { result ≡ meeting (channels_of ends.now waits.old.items 0) wait.who wait.end wait.want }
    ensures left { waits.new.items ≡ (entered (channels_of ends.now waits.old.items 0) wait).waits }
    ensures capacity { vec_capacity waits.new ≡ vec_capacity waits.old }
{
    if has_ended(ends, wait.end, &wait.want) {
        return Meeting::Ended;
    }
    let other = match find_end(ends, wait.end) {
        Some(here) => here.other,
        None => return Meeting::Ended,
    };
    match take_partner(waits, wait.who, other, &wait.want) {
        Some(found) => Meeting::Met(meet(wait.want, found)),
        None => {
            waits.push_reserved(wait);
            Meeting::Waits
        }
    }
}

/// What would come of a clause, with a copy of the bytes.
fn comes_of(alloc: Global, ends: &[End], waits: &[Wait], wait: &Wait) -> Result<Meeting, NoMemory>
    ensures { IfOk result (λ m. m ≡ meeting (channels_of ends.now waits.now 0) wait.now.who wait.now.end wait.now.want) }
{
    if has_ended(ends, wait.end, &wait.want) {
        return Ok(Meeting::Ended);
    }
    let other = match find_end(ends, wait.end) {
        Some(here) => here.other,
        None => return Ok(Meeting::Ended),
    };
    match find_partner(waits, wait.who, other, &wait.want) {
        Some(found) => Ok(Meeting::Met(meet_copied(alloc, &wait.want, found)?)),
        None => Ok(Meeting::Waits),
    }
}

/// Whether the clause waits on.
fn waits_on(meeting: &Meeting) -> bool
    ensures { result ≡ choosing.is_waiting meeting.now }
{
    matches!(meeting, Meeting::Waits)
}

/// A coroutine has no seat any more.
fn stand_up(seats: &mut Vec<u64>, who: u64)
    ensures { seats.new.items ≡ filter (λ other. not (other == who)) seats.old.items }
{
    seats.retain(|other| *other != who);
}

/// Whether all of these are below a number.
fn are_below(seats: &[u64], who: u64) -> bool
    ensures { result ≡ list_all (λ other. nat_lt other who) seats.now }
{
    seats.iter().all(|other| *other < who)
}

/// Whether a coroutine is among these.
fn is_among(seats: &[u64], who: u64) -> bool
    ensures { result ≡ has seats.now who }
{
    seats.iter().any(|other| *other == who)
}

/// What the machine asks for, without a count of looks. Any end may be named: where it isn't live, a clause there has its end.
impl Channels {
    /// Whether there is room for the clauses of a coroutine: it has a seat, and waits nowhere.
    pub fn has_room_for(&self, who: u64) -> bool
        ensures { result ≡ has_room_for self.now who }
    {
        is_among(self.seats.as_slice(), who) && !is_waiting(self.waits.as_slice(), who)
    }

    /// Whether a send at an end has its end.
    pub fn send_has_ended(&self, end: u64) -> bool
        ensures { result ≡ has_ended self.now.channels end (Send []) }
    {
        send_has_ended(self.ends.as_slice(), end)
    }

    /// Whether a receive at an end has its end.
    pub fn recv_has_ended(&self, end: u64) -> bool
        ensures { result ≡ has_ended self.now.channels end (Recv 0) }
    {
        recv_has_ended(self.ends.as_slice(), end)
    }

    /// A new channel, as long as there are names for its ends. Answers these. Refused, it changes nothing.
    pub fn add(&mut self) -> Result<(u64, u64), NoMemory>
        ensures names { IfOk result (λ ends. ends ≡ next_ends self.old.channels) }
        ensures ok { OnOk result (self.new ≡ on_channels channels.make self.old) }
        ensures err { OnErr result (self.new ≡ self.old) }
    {
        if 9_223_372_036_854_775_806 < self.last {
            return Err(NoMemory);
        }
        self.make()
    }

    /// A coroutine has a seat, if it can have one. Refused, it changes nothing.
    pub fn sit(&mut self, who: u64) -> Result<(), NoMemory>
        ensures ok { OnOk result (self.new ≡ seats.seat self.old who) }
        ensures err { OnErr result (self.new ≡ self.old) }
    {
        if !are_below(self.seats.as_slice(), who) || 65_536 <= self.seats.len() {
            return Err(NoMemory);
        }
        self.seat(who)
    }

    /// A coroutine has no seat any more, if it had one and waits nowhere.
    pub fn rise(&mut self, who: u64)
        ensures { self.new ≡ seats.rise self.old who }
    {
        if self.has_room_for(who) {
            self.unseat(who);
        }
    }

    /// A coroutine enters a clause. What is wanted goes to whom it meets, or waits. Who is met waits under no clause any more.
    pub fn enter(&mut self, wait: Wait) -> Meeting
        requires seat { has_seat self.old wait.who ≡ true }
        requires clause { wait.clause < most_clauses }
        requires new { waits_under self.old.channels wait.who wait.clause ≡ false }
        ensures met { result ≡ meeting self.old.channels wait.who wait.end wait.want }
        ensures left { self.new ≡ on_channels (λ c. entered c wait) self.old }
    {
        enter(self.ends.as_slice(), &mut self.waits, wait)
    }

    /// What would come of a clause, which isn't entered and whose partner waits on. The bytes that are given are a copy.
    pub fn comes_of(&self, alloc: Global, wait: &Wait) -> Result<Meeting, NoMemory>
        ensures { IfOk result (λ m. m ≡ choosing.comes_of self.now.channels wait.now) }
    {
        comes_of(alloc, self.ends.as_slice(), self.waits.as_slice(), wait)
    }

    /// The first of some clauses that is done as it is entered, by its number. None of them is entered.
    pub fn first_done(
        &self,
        alloc: Global,
        clauses: &[Wait],
    ) -> Result<Option<(u8, Meeting)>, NoMemory>
        ensures { IfOk result (λ found. found ≡ choosing.first_done self.now.channels clauses.now) }
    {
        for wait in clauses {
            let meeting = self.comes_of(alloc, wait)?;
            if !waits_on(&meeting) {
                return Ok(Some((wait.clause, meeting)));
            }
        }
        Ok(None)
    }

    /// The clauses of a coroutine, for which there is room, wait behind all others. Whom they could meet isn't looked for.
    pub fn wait_all(&mut self, who: u64, clauses: Vec<Wait>)
        requires room { has_room_for self.old who ≡ true }
        requires rising { are_clauses who 0 clauses.items ≡ true }
        ensures { self.new ≡ on_channels (λ c. choosing.wait_all c clauses.items) self.old }
    {
        let mut clauses = clauses;
        let _ = self.waits.append(&mut clauses);
    }

    /// A coroutine waits under no clause any more.
    pub fn forget(&mut self, who: u64)
        ensures { self.new ≡ on_channels (λ c. channels.leave c who) self.old }
    {
        leave(&mut self.waits, who);
    }

    /// The sending direction of an end is done. False, where it was done or an end is gone; then it changes nothing.
    pub fn finish(&mut self, end: u64) -> bool
        ensures done { result ≡ not (has_ended self.old.channels end (Send [])) }
        ensures left { self.new ≡ on_channels (λ c. seats.done_unless_ended c end) self.old }
    {
        if send_has_ended(self.ends.as_slice(), end) {
            return false;
        }
        mark_done(&mut self.ends, end);
        true
    }

    /// An end is gone. Who waits there waits on until it leaves.
    pub fn remove(&mut self, end: u64)
        ensures { self.new ≡ on_channels (λ c. channels.drop_end c end) self.old }
    {
        remove_end(&mut self.ends, end);
    }
}

impl Channels {
    /// No channels, and no seats. It takes no memory.
    pub fn new(alloc: Global) -> Channels
        ensures { result ≡ nobody }
    {
        Channels {
            ends: Vec::new(alloc),
            waits: Vec::new(alloc),
            seats: Vec::new(alloc),
            last: 0,
        }
    }

    /// What holds of channels and seats at any time.
    pub fn known(&self)
        ensures rising { each_pair nat_lt self.now.seats ≡ true }
        ensures few { length self.now.seats ≤ most_seats }
        ensures once { each_pair are_two_waits self.now.channels.waits ≡ true }
        ensures seated { list_all (may_wait self.now.seats) self.now.channels.waits ≡ true }
    {
        let _ = &self.waits;
    }

    /// A new channel (`chmake`). Answers the names of its two ends, which aren't given again. Refused, it changes nothing.
    pub fn make(&mut self) -> Result<(u64, u64), NoMemory>
        requires { self.old.channels.last + 1 < 9223372036854775808 }
        ensures names { IfOk result (λ ends. ends ≡ next_ends self.old.channels) }
        ensures ok { OnOk result (self.new ≡ on_channels channels.make self.old) }
        ensures err { OnErr result (self.new ≡ self.old) }
    {
        match self.ends.reserve(2) {
            Ok(()) => {}
            Err(_) => return Err(NoMemory),
        }
        let first = self.last + 1;
        let second = self.last + 2;
        self.ends.push_reserved(End {
            name: first,
            other: second,
            done: false,
        });
        self.ends.push_reserved(End {
            name: second,
            other: first,
            done: false,
        });
        self.last = second;
        Ok((first, second))
    }

    /// A seat for a coroutine of a greater number than all that have one: room for its 16 clauses. Refused, it changes nothing.
    pub fn seat(&mut self, who: u64) -> Result<(), NoMemory>
        requires above { is_above_all self.old who ≡ true }
        requires few { length self.old.seats < most_seats }
        ensures ok { OnOk result (self.new ≡ seats.seat self.old who) }
        ensures err { OnErr result (self.new ≡ self.old) }
    {
        let room = (self.seats.len() + 1) * CLAUSES;
        let more = room.saturating_sub(self.waits.len());
        match self.waits.reserve(more) {
            Ok(()) => {}
            Err(_) => return Err(NoMemory),
        }
        match self.seats.reserve(1) {
            Ok(()) => {}
            Err(_) => return Err(NoMemory),
        }
        self.seats.push_reserved(who);
        Ok(())
    }

    /// A coroutine that waits nowhere has no seat any more.
    pub fn unseat(&mut self, who: u64)
        requires seat { has_seat self.old who ≡ true }
        requires waits { is_waiting self.old.channels who ≡ false }
        ensures { self.new ≡ seats.unseat self.old who }
    {
        stand_up(&mut self.seats, who);
    }

    /// A coroutine with a seat enters a clause that sends an item at a live end (`chsend`), under which it doesn't wait yet. The
    /// bytes are moved to whom it meets, or into the place where they wait. Who is met waits under no clause any more. `Ended` is
    /// EPIPE: this end is done, or the other is gone. Unequal sizes are EMSGSIZE for both.
    pub fn send<L: Ledger>(
        &mut self,
        who: u64,
        clause: u8,
        end: u64,
        bytes: Octets,
        steps: &mut Steps<L>,
    ) -> Meeting
        requires seat { has_seat self.old who ≡ true }
        requires clause { clause < most_clauses }
        requires new { waits_under self.old.channels who clause ≡ false }
        requires live { is_live self.old.channels end ≡ true }
        ensures met { result ≡ meeting self.old.channels who end (Send bytes) }
        ensures left { self.new ≡ on_channels (λ c. entered c (record { who = who; clause = clause; end = end; want = Send bytes })) self.old }
        ensures counted { steps.old < steps.new }
    {
        steps.tick();
        let want = Want::Send(bytes);
        self.enter(Wait {
            who,
            clause,
            end,
            want,
        })
    }

    /// A coroutine with a seat enters a clause that receives an item of so many bytes at a live end (`chrecv`), under which it
    /// doesn't wait yet. Who is met waits under no clause any more. `Ended` is EPIPE: the other end is done or gone. Unequal sizes
    /// are EMSGSIZE for both.
    pub fn recv<L: Ledger>(
        &mut self,
        who: u64,
        clause: u8,
        end: u64,
        size: usize,
        steps: &mut Steps<L>,
    ) -> Meeting
        requires seat { has_seat self.old who ≡ true }
        requires clause { clause < most_clauses }
        requires new { waits_under self.old.channels who clause ≡ false }
        requires live { is_live self.old.channels end ≡ true }
        ensures met { result ≡ meeting self.old.channels who end (Recv size) }
        ensures left { self.new ≡ on_channels (λ c. entered c (record { who = who; clause = clause; end = end; want = Recv size })) self.old }
        ensures counted { steps.old < steps.new }
    {
        steps.tick();
        let want = Want::Recv(size as u64);
        self.enter(Wait {
            who,
            clause,
            end,
            want,
        })
    }

    /// A coroutine with a seat waits under no clause any more: it is answered, or gives up.
    pub fn leave<L: Ledger>(&mut self, who: u64, steps: &mut Steps<L>)
        requires { has_seat self.old who ≡ true }
        ensures left { self.new ≡ on_channels (λ c. channels.leave c who) self.old }
        ensures counted { steps.old < steps.new }
    {
        steps.tick();
        self.forget(who);
    }

    /// The sending direction of a live end is done (`chdone`). False is EPIPE: it was done, or the other end is gone; then it changes
    /// nothing.
    pub fn done<L: Ledger>(&mut self, end: u64, steps: &mut Steps<L>) -> bool
        requires { is_live self.old.channels end ≡ true }
        ensures done { result ≡ not (has_ended self.old.channels end (Send [])) }
        ensures left { self.new ≡ on_channels (λ c. seats.done_unless_ended c end) self.old }
        ensures counted { steps.old < steps.new }
    {
        steps.tick();
        self.finish(end)
    }

    /// The least waiter above a number that has its end (EPIPE), with the least of its clauses that has it.
    pub fn next_ended<L: Ledger>(&self, after: u64, steps: &mut Steps<L>) -> Option<(u64, u8)>
        ensures next { result ≡ next_ended self.now.channels after }
        ensures seat { IfSome result (λ x. has_seat self.now x.0 ≡ true) }
        ensures counted { steps.old < steps.new }
    {
        steps.tick();
        next_ended(self.ends.as_slice(), self.waits.as_slice(), after)
    }

    /// A live end is gone. Who waits there waits on until it leaves.
    pub fn drop_end<L: Ledger>(&mut self, end: u64, steps: &mut Steps<L>)
        requires { is_live self.old.channels end ≡ true }
        ensures left { self.new ≡ on_channels (λ c. channels.drop_end c end) self.old }
        ensures counted { steps.old < steps.new }
    {
        steps.tick();
        self.remove(end);
    }
}
