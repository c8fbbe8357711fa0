ghost use Rattle.std.specs.Prelude.{◌≡◌, ◌+◌, ◌<◌, ◌≤◌, length, true, false, slice_get, Some, option_map, IfOk, IfErr, OnOk, OnErr, IfSome, vec_len, vec_capacity};
ghost use Rattle.std.specs.Borrow.{sem};
ghost use Rattle.dill_slots.specs.Slots.{no_slots, most_slots, most_clauses, is_new_id, is_live, is_ready, has_timer, is_waiting, waits_under, wait_on as put_on, first_waiting, leave, value_at, insert as inserted, remove as removed, push_ready, pop_ready, set_timer as timed, clear_timer as cleared, expire as expired, first_passed, IsConsistent, Refuses};
ghost use Rattle.dill_slots.specs.Whole.{Grows, FitsOneMore};

use crate::place::place_of;
use crate::queue::Queue;
use crate::timers::Timers;
use crate::waits::first_on;
use crate::{Slot, SlotFault, Steps, Timer, Waiting};
use dill_base::NoMemory;
use std::alloc::Global;
use std::marker::Model;
use std::sync::ledger::Ledger;

/// How many slots are live at most.
const MOST: usize = 65_536;

/// How many clauses of a slot wait at most.
const CLAUSES: usize = 16;

/// At most 65,536 values under the numbers of their slots, in rising id; a queue of slots that are ready; what each
/// slot waits on, in the order of waiting; and timers.
#[derive(Drop)]
pub struct Slots<T> {
    live: Vec<Slot<T>>,
    free: Queue<u32>,
    ready: Queue<u32>,
    timers: Timers,
    waits: Queue<Waiting>,
}

impl<T> Model for Slots<T> {
    ghost use Rattle.dill_slots.specs.Slots.{Slots as Held};

    ghost Value = { Held T };

    ghost use Rattle.dill_slots.specs.Whole.{slots_of, IsWhole};

    ghost view = { λ s. slots_of s.live.items s.ready s.timers s.waits };

    ghost invariant = { λ s. IsWhole s.live.items s.free s.ready s.timers s.waits };
}

/// Makes room for one more live slot in each part, or leaves what there is.
fn make_room<T>(
    live: &mut Vec<Slot<T>>,
    free: &mut Queue<u32>,
    ready: &mut Queue<u32>,
    timers: &mut Timers,
    waits: &mut Queue<Waiting>,
) -> Result<(), NoMemory>
    requires { vec_len live.old + length free.old.items ≤ most_slots }
    ensures live { live.new.items ≡ live.old.items }
    ensures free { Grows free.old free.new }
    ensures ready { Grows ready.old ready.new }
    ensures timers { Grows timers.old timers.new }
    ensures waits { Grows waits.old waits.new }
    ensures ok { OnOk result (FitsOneMore (length live.old.items) free.new ready.new timers.new waits.new) }
    ensures room { OnOk result (vec_len live.new < vec_capacity live.new) }
{
    let count = live.len() + 1;
    free.make_room(count + free.len())?;
    ready.make_room(count)?;
    timers.make_room(count)?;
    waits.make_room(count * CLAUSES)?;
    match live.reserve(1) {
        Ok(()) => Ok(()),
        Err(_) => Err(NoMemory),
    }
}

impl<T> Slots<T> {
    ghost use Rattle.dill_slots.specs.Lending.{lends_value};

    /// None. It takes no memory.
    pub fn new(alloc: Global) -> Slots<T>
        ensures { result ≡ no_slots }
    {
        Slots {
            live: Vec::new(alloc),
            free: Queue::new(alloc),
            ready: Queue::new(alloc),
            timers: Timers::new(alloc),
            waits: Queue::new(alloc),
        }
    }

    /// What holds of all slots at any time.
    pub fn known(&self)
        ensures { IsConsistent self.now }
    {
        let _ = &self.live;
    }

    /// The value of a live slot.
    pub fn get<L: Ledger>(&self, slot: u32, steps: &mut Steps<L>) -> &T
        requires { is_live self.now slot ≡ true }
        ensures value { value_at self.now slot ≡ Some result.now }
        ensures counted { steps.old < steps.new }
    {
        let at = place_of(self.live.as_slice(), slot, steps);
        &self.live[at].value
    }

    /// The value of a live slot. Writes through the reference change it alone.
    pub fn get_mut<L: Ledger>(&mut self, slot: u32, steps: &mut Steps<L>) -> &mut T
        requires { is_live self.old slot ≡ true }
        ensures* writes_back { sem 𝓛 (lends_value T.row self.entry slot result) }
        ensures value { value_at self.old slot ≡ Some result.now }
        ensures counted { steps.old < steps.new }
    {
        let at = place_of(self.live.as_slice(), slot, steps);
        let held = &mut self.live[at];
        &mut held.value
    }

    /// Takes a slot whose number is free, and puts the value there under an id that is greater than every live one. It makes
    /// the room that every other call needs. Refused, where 65,536 slots are live or for want of memory, it changes nothing.
    pub fn insert(&mut self, id: u64, value: T) -> Result<u32, SlotFault<T>>
        requires { is_new_id self.old id ≡ true }
        ensures ok { IfOk result (λ slot. self.new ≡ inserted self.old slot id value) }
        ensures free { IfOk result (λ slot. is_live self.old slot ≡ false) }
        ensures below { IfOk result (λ slot. slot < most_slots) }
        ensures room { OnOk result (length self.old.live < most_slots) }
        ensures err { OnErr result (self.new ≡ self.old) }
        ensures fault { IfErr result (λ fault. Refuses self.old value fault) }
    {
        let count = self.live.len();
        if count >= MOST {
            return Err(SlotFault::Full(value));
        }
        let made = make_room(
            &mut self.live,
            &mut self.free,
            &mut self.ready,
            &mut self.timers,
            &mut self.waits,
        );
        if made.is_err() {
            return Err(SlotFault::NoMemory(value));
        }
        let slot = self.free.pop().unwrap_or(count as u32);
        self.live.push_reserved(Slot { slot, id, value });
        Ok(slot)
    }

    /// Takes the value out of a slot that isn't ready, waits on nothing and has no timer. Its number is free again.
    pub fn remove<L: Ledger>(&mut self, slot: u32, steps: &mut Steps<L>) -> T
        requires live { is_live self.old slot ≡ true }
        requires unready { is_ready self.old slot ≡ false }
        requires untimed { has_timer self.old slot ≡ false }
        requires unwaiting { is_waiting self.old slot ≡ false }
        ensures value { value_at self.old slot ≡ Some result }
        ensures rest { self.new ≡ removed self.old slot }
        ensures counted { steps.old < steps.new }
    {
        let at = place_of(self.live.as_slice(), slot, steps);
        self.free.push(slot);
        let Slot {
            slot: _,
            id: _,
            value,
        } = self.live.remove(at);
        value
    }

    /// Puts a slot that isn't ready at the end of the ready queue.
    pub fn ready_push<L: Ledger>(&mut self, slot: u32, steps: &mut Steps<L>)
        requires live { is_live self.old slot ≡ true }
        requires unready { is_ready self.old slot ≡ false }
        ensures pushed { self.new ≡ push_ready self.old slot }
        ensures counted { steps.old < steps.new }
    {
        steps.tick();
        self.ready.push(slot);
    }

    /// Takes the first slot of the ready queue, if there is one.
    pub fn ready_pop<L: Ledger>(&mut self, steps: &mut Steps<L>) -> Option<u32>
        ensures first { result ≡ slice_get self.old.ready 0 }
        ensures rest { self.new ≡ pop_ready self.old }
        ensures live { IfSome result (λ slot. is_live self.new slot ≡ true) }
        ensures counted { steps.old < steps.new }
    {
        steps.tick();
        self.ready.pop()
    }

    /// A clause of a slot waits on a queue, behind all that wait there. It waits on none yet.
    pub fn wait_on<L: Ledger>(&mut self, slot: u32, clause: u8, queue: u64, steps: &mut Steps<L>)
        requires live { is_live self.old slot ≡ true }
        requires clause { clause < most_clauses }
        requires new { waits_under self.old slot clause ≡ false }
        ensures waits { self.new ≡ put_on self.old slot clause queue }
        ensures counted { steps.old < steps.new }
    {
        steps.tick();
        self.waits.push(Waiting {
            slot,
            clause,
            queue,
        });
    }

    /// The slot and the clause that have waited longest on a queue, if any waits there.
    pub fn first_waiting<L: Ledger>(&self, queue: u64, steps: &mut Steps<L>) -> Option<(u32, u8)>
        ensures first { result ≡ first_waiting self.now queue }
        ensures live { IfSome result (λ x. is_live self.now x.0 ≡ true) }
        ensures counted { steps.old < steps.new }
    {
        steps.tick();
        first_on(self.waits.as_slice(), queue)
    }

    /// A slot waits on nothing any more.
    pub fn leave<L: Ledger>(&mut self, slot: u32, steps: &mut Steps<L>)
        requires { is_live self.old slot ≡ true }
        ensures left { self.new ≡ leave self.old slot }
        ensures counted { steps.old < steps.new }
    {
        steps.tick();
        self.waits.leave(slot);
    }

    /// Gives a slot that has no timer one, in milliseconds since the start.
    pub fn set_timer<L: Ledger>(&mut self, slot: u32, deadline: u64, steps: &mut Steps<L>)
        requires live { is_live self.old slot ≡ true }
        requires untimed { has_timer self.old slot ≡ false }
        ensures timed { self.new ≡ timed self.old slot deadline }
        ensures counted { steps.old < steps.new }
    {
        let at = place_of(self.live.as_slice(), slot, steps);
        let id = self.live[at].id;
        self.timers.put(Timer { deadline, id, slot }, steps);
    }

    /// Takes the timer of a slot away, if it has one.
    pub fn clear_timer<L: Ledger>(&mut self, slot: u32, steps: &mut Steps<L>)
        requires { is_live self.old slot ≡ true }
        ensures cleared { self.new ≡ cleared self.old slot }
        ensures counted { steps.old < steps.new }
    {
        self.timers.clear(slot, steps);
    }

    /// Takes the first timer away and gives its slot, if it is passed at this moment, in milliseconds since the start.
    pub fn expire<L: Ledger>(&mut self, moment: u64, steps: &mut Steps<L>) -> Option<u32>
        ensures first { result ≡ option_map (λ x. x.slot) (first_passed moment self.old.timers) }
        ensures rest { self.new ≡ expired self.old moment }
        ensures live { IfSome result (λ slot. is_live self.new slot ≡ true) }
        ensures counted { steps.old < steps.new }
    {
        let timer = self.timers.pop_passed(moment, steps)?;
        Some(timer.slot)
    }

    /// The deadline of the first timer, if there is one.
    pub fn least_timer(&self) -> Option<u64>
        ensures { result ≡ option_map (λ x. x.deadline) (slice_get self.now.timers 0) }
    {
        self.timers.least()
    }
}
