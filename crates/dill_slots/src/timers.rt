ghost use Rattle.std.specs.Prelude.{◌≡◌, ◌≤◌, ◌<◌, [], length, filter, slice_get, option_map, true, OnOk, OnErr, max};
ghost use Rattle.std.specs.List.{position_or_len};
ghost use Rattle.dill_slots.specs.Pairs.{each_pair, roomy};
ghost use Rattle.dill_slots.specs.Slots.{is_earlier as comes_before, is_timer_of, is_others_timer, are_two_timers, placed, first_passed, not_passed};

use crate::{Steps, Timer};
use dill_base::NoMemory;
use std::alloc::Global;
use std::marker::Model;
use std::sync::ledger::Ledger;

/// Timers by deadline and id, and how many there is room for. To put one takes no memory.
#[derive(Drop)]
pub(crate) struct Timers {
    timers: Vec<Timer>,
    room: usize,
}

impl Model for Timers {
    ghost use Rattle.std.specs.Prelude.{◌≤◌, vec_capacity};
    ghost use Rattle.dill_slots.specs.declared.slot.Timer.{Timer};
    ghost use Rattle.dill_slots.specs.Pairs.{Roomy, roomy};

    ghost Value = { Roomy Timer };

    ghost view = { λ q. roomy q.timers.items q.room };

    ghost invariant = { λ q. q.room ≤ vec_capacity q.timers };
}

/// Whether the first comes before the second.
fn is_earlier(first: Timer, second: Timer) -> bool
    ensures { result ≡ comes_before first second }
{
    first.deadline < second.deadline || (first.deadline == second.deadline && first.id < second.id)
}

/// The place of a timer that isn't there yet.
fn place_for<L: Ledger>(timers: &[Timer], timer: Timer, steps: &mut Steps<L>) -> usize
    ensures place { result ≡ position_or_len (comes_before timer) timers.now }
    ensures counted { steps.old ≤ steps.new }
{
    for (at, other) in timers.iter().enumerate() {
        steps.tick();
        if is_earlier(timer, *other) {
            return at;
        }
    }
    timers.len()
}

/// The place of the first timer of a slot, or how many timers there are.
fn place_of_slot<L: Ledger>(timers: &[Timer], slot: u32, steps: &mut Steps<L>) -> usize
    ensures place { result ≡ position_or_len (is_timer_of slot) timers.now }
    ensures counted { steps.old ≤ steps.new }
{
    for (at, timer) in timers.iter().enumerate() {
        steps.tick();
        if timer.slot == slot {
            return at;
        }
    }
    timers.len()
}

impl Timers {
    pub(crate) fn new(alloc: Global) -> Timers
        ensures { result ≡ roomy [] 0 }
    {
        Timers {
            timers: Vec::new(alloc),
            room: 0,
        }
    }

    /// Makes room for so many in all, or leaves the room that there is.
    pub(crate) fn make_room(&mut self, room: usize) -> Result<(), NoMemory>
        ensures ok { OnOk result (self.new ≡ roomy self.old.items (max self.old.room room)) }
        ensures err { OnErr result (self.new ≡ self.old) }
    {
        let more = room.saturating_sub(self.timers.len());
        match self.timers.reserve(more) {
            Ok(()) => {
                self.room = self.room.max(room);
                Ok(())
            }
            Err(_) => Err(NoMemory),
        }
    }

    pub(crate) fn put<L: Ledger>(&mut self, timer: Timer, steps: &mut Steps<L>)
        requires { length self.old.items < self.old.room }
        ensures put { self.new ≡ roomy (placed timer self.old.items) self.old.room }
        ensures counted { steps.old < steps.new }
    {
        steps.tick();
        let at = place_for(self.timers.as_slice(), timer, steps);
        let _ = self.timers.insert(at, timer);
    }

    /// Takes the timer of a slot out, if it has one.
    pub(crate) fn clear<L: Ledger>(&mut self, slot: u32, steps: &mut Steps<L>)
        requires { each_pair are_two_timers self.old.items ≡ true }
        ensures rest { self.new ≡ roomy (filter (is_others_timer slot) self.old.items) self.old.room }
        ensures counted { steps.old < steps.new }
    {
        steps.tick();
        let at = place_of_slot(self.timers.as_slice(), slot, steps);
        if at < self.timers.len() {
            let _ = self.timers.remove(at);
        }
    }

    /// Takes the first, if it is passed.
    pub(crate) fn pop_passed<L: Ledger>(
        &mut self,
        moment: u64,
        steps: &mut Steps<L>,
    ) -> Option<Timer>
        ensures first { result ≡ first_passed moment self.old.items }
        ensures rest { self.new ≡ roomy (not_passed moment self.old.items) self.old.room }
        ensures counted { steps.old < steps.new }
    {
        steps.tick();
        if self.timers.is_empty() || self.timers[0].deadline > moment {
            return None;
        }
        Some(self.timers.remove(0))
    }

    /// The deadline of the first, if there is one.
    pub(crate) fn least(&self) -> Option<u64>
        ensures { result ≡ option_map (λ x. x.deadline) (slice_get self.now.items 0) }
    {
        self.timers.first().map(|timer| timer.deadline)
    }
}
