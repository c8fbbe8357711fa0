ghost use Rattle.std.specs.Prelude.{◌≡◌, ◌≤◌, ◌<◌, ◌++◌, ◌∷◌, [], length, drop, filter, slice_get, OnOk, OnErr, max};
ghost use Rattle.dill_slots.specs.Pairs.{roomy};
ghost use Rattle.dill_slots.specs.Slots.{is_others_wait};

use crate::Waiting;
use crate::waits::keep_others;
use dill_base::NoMemory;
use std::alloc::Global;
use std::marker::Model;

/// Elements, first come first, and how many there is room for. A push takes no memory.
#[derive(Drop)]
pub(crate) struct Queue<T> {
    items: Vec<T>,
    room: usize,
}

impl<T> Model for Queue<T> {
    ghost use Rattle.std.specs.Prelude.{◌≤◌, vec_capacity};
    ghost use Rattle.dill_slots.specs.Pairs.{Roomy, roomy};

    ghost Value = { Roomy T };

    ghost view = { λ q. roomy q.items.items q.room };

    ghost invariant = { λ q. q.room ≤ vec_capacity q.items };
}

impl<T: Copy + Drop> Queue<T> {
    pub(crate) fn new(alloc: Global) -> Queue<T>
        ensures { result ≡ roomy [] 0 }
    {
        Queue {
            items: Vec::new(alloc),
            room: 0,
        }
    }

    /// Makes room for so many in all, or leaves the room that there is.
    pub(crate) fn make_room(&mut self, room: usize) -> Result<(), NoMemory>
        ensures ok { OnOk result (self.new ≡ roomy self.old.items (max self.old.room room)) }
        ensures err { OnErr result (self.new ≡ self.old) }
    {
        let more = room.saturating_sub(self.items.len());
        match self.items.reserve(more) {
            Ok(()) => {
                self.room = self.room.max(room);
                Ok(())
            }
            Err(_) => Err(NoMemory),
        }
    }

    pub(crate) fn len(&self) -> usize
        ensures { result ≡ length self.now.items }
    {
        self.items.len()
    }

    pub(crate) fn push(&mut self, item: T)
        requires { length self.old.items < self.old.room }
        ensures { self.new ≡ roomy (self.old.items ++ item ∷ []) self.old.room }
    {
        self.items.push_reserved(item);
    }

    /// Takes the first, if there is one.
    pub(crate) fn pop(&mut self) -> Option<T>
        ensures first { result ≡ slice_get self.old.items 0 }
        ensures rest { self.new ≡ roomy (drop 1 self.old.items) self.old.room }
    {
        if self.items.is_empty() {
            return None;
        }
        Some(self.items.remove(0))
    }
}

impl Queue<Waiting> {
    pub(crate) fn as_slice(&self) -> &[Waiting]
        ensures { result.now ≡ self.now.items }
    {
        self.items.as_slice()
    }

    /// Takes all that a slot waits for out.
    pub(crate) fn leave(&mut self, slot: u32)
        ensures { self.new ≡ roomy (filter (is_others_wait slot) self.old.items) self.old.room }
    {
        keep_others(&mut self.items, slot);
    }
}
