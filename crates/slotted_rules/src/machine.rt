//! The clock of the machine.
ghost use Rattle.std.specs.Prelude.{◌≡◌, IfOk};
ghost use Rattle.slotted_rules.specs.Machine.{last_told};

use crate::clock::Clock;
use std::time::Instant;
use std::{io, rt};

/// The machine's clock, which tells the time since the clock was made.
///
/// If the machine does not answer, the clock tells the last time again.
#[derive(Drop)]
pub struct MachineClock<R> {
    runtime: R,
    made: Instant,
    last: u64,
}

impl<R: rt::Clock + Drop> MachineClock<R> {
    /// Returns a clock that tells the time from now on.
    pub fn new(runtime: R) -> io::Result<Self>
        ensures { IfOk result (λ k. last_told k ≡ 0) }
    {
        let made = Instant::now(&runtime)?;
        Ok(MachineClock {
            runtime,
            made,
            last: 0,
        })
    }
}

impl<R: rt::Clock + Drop> Clock for MachineClock<R> {
    ghost use Rattle.slotted_rules.specs.Machine.{TellsLater};

    ghost tells = { TellsLater };

    fn now(&mut self) -> u64 {
        if let Ok(passed) = self.made.elapsed(&self.runtime) {
            let time = u64::try_from(passed.as_nanos()).unwrap_or(u64::MAX);
            self.last = self.last.max(time);
        }
        self.last
    }
}
