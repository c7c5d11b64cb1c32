//! A clock of given times, and a hook that stops a run.
ghost use Rattle.std.specs.Prelude.{◌≡◌, ⊤};

use slotted_data::Analysis;
use slotted_graph::EGraph;
use slotted_rules::{Clock, Hook, HookStop};
use slotted_slots::Error;
use slotted_small::Small;
use std::alloc::Global;
use std::collections::VecDeque;

/// The clock that tells these times, and then 0.
#[derive(Drop)]
pub struct Times {
    pub left: VecDeque<u64>,
}

impl Clock for Times {
    ghost tells = { λ k time l. ⊤ };

    fn now(&mut self) -> u64 {
        self.left.pop_front().unwrap_or(0)
    }
}

/// The hook that stops the run once so many turns were taken.
#[derive(Drop)]
pub struct Enough {
    pub at: usize,
}

impl<N: Analysis<Small>> Hook<Small, N, String> for Enough {
    ghost leaves = { λ h g n i k stop. k ≡ g };

    ghost refuses = { λ e. ⊥ };

    ghost never_failed = { λ r. r };

    fn call(
        &mut self,
        alloc: Global,
        graph: &mut EGraph<Small, N>,
        iterations: usize,
    ) -> Result<(), HookStop<String>> {
        if iterations < self.at {
            return Ok(());
        }
        match String::from_str(alloc, "enough") {
            Ok(reason) => Err(HookStop::Stop(reason)),
            Err(_) => Err(HookStop::Refused(Error::OutOfMemory)),
        }
    }
}
