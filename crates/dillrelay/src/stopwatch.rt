use dill_kernel::Ticker;
use std::time::{Clock, Instant};

/// The system's clock in milliseconds since it was made. Where it can't be read, the last moment is told again.
#[derive(Drop)]
pub struct Stopwatch<'a, C: Clock> {
    clock: &'a C,
    begun: Option<Instant>,
    moment: u64,
}

impl<'a, C: Clock> Stopwatch<'a, C> {
    /// It stands at 0 now.
    pub fn new(clock: &'a C) -> Stopwatch<'a, C> {
        Stopwatch {
            clock,
            begun: Instant::now(clock).ok(),
            moment: 0,
        }
    }

    /// How many milliseconds have passed, if the clock can be read.
    fn passed(&self) -> Option<u64> {
        let passed = self.begun?.elapsed(self.clock).ok()?;
        Some(u64::try_from(passed.as_millis()).unwrap_or(u64::MAX))
    }
}

impl<'a, C: Clock> Ticker for Stopwatch<'a, C> {
    fn now(&mut self) -> u64 {
        self.moment = self.passed().unwrap_or(self.moment).max(self.moment);
        self.moment
    }
}
