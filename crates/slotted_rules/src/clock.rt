//! Clocks, by which runs tell how long they take.

/// A clock in nanoseconds. The difference of two readings is the time between them.
pub trait Clock: Drop {
    ghost use Rattle.std.specs.Prelude.{ℕ};

    // What the clock tells, and what it is afterwards.
    ghost tells: { Self → ℕ → Self → Type 0 };

    /// Returns the time now. Takes no memory.
    fn now(&mut self) -> u64
        ensures { tells self.old result self.new };
}
