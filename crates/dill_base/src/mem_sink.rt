ghost use Rattle.std.specs.Prelude.{◌≡◌, List, ℕ, [], Some, Option, OnOk, OnErr, IfOk, is_ok};
ghost use Rattle.std.specs.Io.KnownBytes.{Appends};
ghost use Rattle.dill_base.specs.Causes.{HasCause};
ghost use Rattle.dill_base.specs.Sinks.{AppendsPart};
ghost use Rattle.dill_base.specs.MemSink.{after_write, is_written};

use crate::mem_shelf::listed;
use crate::{Failed, NoMemory, Sink};
use std::alloc::Global;
use std::marker::Model;

/// A sink in memory, with room for so many bytes. The calls of some numbers, counted from 1, fail before any byte,
/// and one that passes the room fails once the room is full.
#[derive(Drop)]
pub struct MemSink {
    held: Vec<u8>,
    room: usize,
    fails: Vec<u64>,
    calls: u64,
    count: u64,
}

impl Model for MemSink {
    ghost use Rattle.std.specs.Prelude.{◌≤◌, length, vec_capacity};
    ghost use Rattle.dill_base.specs.MemSink.{HeldBytes};

    ghost Value = { HeldBytes };

    ghost view = { λ s. record { bytes = s.held.items; room = s.room; fails = s.fails.items; calls = s.calls; faults = s.count } };

    ghost invariant = { λ s. (length s.held.items ≤ s.room) × (s.room ≤ vec_capacity s.held) };
}

impl MemSink {
    /// A sink that takes its room at once, and no memory later.
    pub fn new(alloc: Global, room: usize, fails: Vec<u64>) -> Result<MemSink, NoMemory>
        ensures { IfOk result (λ s. s ≡ record { bytes = []; room = room; fails = fails.items; calls = 0; faults = 0 }) }
    {
        match Vec::with_capacity(alloc, room) {
            Ok(held) => Ok(MemSink {
                held,
                room,
                fails,
                calls: 0,
                count: 0,
            }),
            Err(_) => Err(NoMemory),
        }
    }

    /// What went out.
    pub fn bytes(&self) -> &[u8]
        ensures { result.now ≡ self.now.bytes }
    {
        self.held.as_slice()
    }
}

impl Sink for MemSink {
    ghost told = { λ s. Some s.bytes };

    ghost faults = { λ s. s.faults };

    fn write(&mut self, bytes: &[u8]) -> Result<(), Failed>
        ensures whole { OnOk result (Appends (Some self.old.bytes) (Some self.new.bytes) bytes.now) }
        ensures part { OnErr result (AppendsPart (Some self.old.bytes) (Some self.new.bytes) bytes.now) }
        ensures cause { HasCause self.old.faults self.new.faults result }
        ensures exact { self.new ≡ after_write self.old bytes.now }
        ensures well { is_ok result ≡ is_written self.old bytes.now }
    {
        self.calls = self.calls.saturating_add(1);
        if listed(self.fails.as_slice(), self.calls) {
            self.count = self.count.saturating_add(1);
            return Err(Failed);
        }
        let free = self.room - self.held.len();
        if free < bytes.len() {
            self.count = self.count.saturating_add(1);
            let _ = self.held.extend_from_slice(&bytes[..free]);
            return Err(Failed);
        }
        let _ = self.held.extend_from_slice(bytes);
        Ok(())
    }
}
