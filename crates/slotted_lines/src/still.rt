//! A clock that stands still.
use slotted_rules::Clock;

/// The clock that always tells 0, so that no limit of time is ever passed.
#[derive(Drop, Debug)]
pub struct StillClock;

impl Clock for StillClock {
    ghost use Rattle.slotted_lines.specs.RunsOver.{TellsZero};

    ghost tells = { TellsZero };

    fn now(&mut self) -> u64 {
        0
    }
}
