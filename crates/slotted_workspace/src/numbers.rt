//! Numbers that tell workspaces apart.
ghost use Rattle.std.specs.Prelude.{◌≡◌, ◌+◌, ◌-◌, ◌^◌, OnErr, OnOk, IfOk, IfErr};

use crate::error::WorkspaceError;
use slotted_slots::Error as GraphError;
use std::marker::Model;

/// A source of numbers for workspaces. Workspaces whose numbers come from one source refuse each other's handles.
#[derive(Drop, Debug)]
pub struct WorkspaceNumbers {
    next: u64,
}

impl Model for WorkspaceNumbers {
    ghost use Rattle.std.specs.Prelude.{ℕ};

    ghost Value = { ℕ };

    ghost view = { λ n. n.next };
}

impl WorkspaceNumbers {
    /// Returns a source whose first number is 0.
    pub fn new() -> WorkspaceNumbers
        ensures { result ≡ 0 }
    {
        WorkspaceNumbers { next: 0 }
    }

    /// Returns the next number, which was not returned before. After 2^64 - 1 numbers the error is `OutOfSlots`.
    pub fn take(&mut self) -> Result<u64, WorkspaceError>
        ensures number { IfOk result (λ n. n ≡ self.old) }
        ensures next { OnOk result (self.new ≡ self.old + 1) }
        ensures same { OnErr result (self.new ≡ self.old) }
        ensures err { IfErr result (λ e. (e ≡ WorkspaceError.Graph GraphError.OutOfSlots) × (self.old ≡ 2 ^ 64 - 1)) }
    {
        let number = self.next;
        match number.checked_add(1) {
            Some(next) => {
                self.next = next;
                Ok(number)
            }
            None => Err(WorkspaceError::Graph(GraphError::OutOfSlots)),
        }
    }
}
