ghost use Rattle.std.specs.Prelude.{None};

use crate::{Failed, Sink};
use std::io::Write;

/// A sink over a writer of the system, as standard output. It tells nothing, and keeps its count.
#[derive(Drop)]
pub struct OutSink<W> {
    inner: W,
    count: u64,
}

impl<W: Write> OutSink<W> {
    /// A sink that writes and flushes at each call.
    pub fn new(inner: W) -> OutSink<W> {
        OutSink { inner, count: 0 }
    }
}

impl<W: Write> Sink for OutSink<W> {
    ghost told = { λ _. None };

    ghost faults = { λ s. s.count };

    fn write(&mut self, bytes: &[u8]) -> Result<(), Failed> {
        if self.inner.write_all(bytes).is_ok() && self.inner.flush().is_ok() {
            return Ok(());
        }
        self.count = self.count.saturating_add(1);
        Err(Failed)
    }
}
