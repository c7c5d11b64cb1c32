//! A clock that stands still, so that no limit of time is passed.
use slotted_rules::Clock;

/// The clock that tells 0.
#[derive(Drop)]
pub struct StillClock;

impl Clock for StillClock {
    ghost use Rattle.std.specs.Prelude.{◌≡◌};

    ghost tells = { λ k time l. (time ≡ 0) × (l ≡ k) };

    fn now(&mut self) -> u64 {
        0
    }
}
