//! The arguments of an e-node.
ghost use Rattle.std.specs.Prelude.{◌≡◌, IfOk, IfErr};
ghost use Rattle.slotted_slots.specs.Error.{IsOutOfMemory};

use slotted_slots::{AppliedId, Error, Slot};
use std::alloc::Global;

/// An argument of an e-node.
#[derive(Drop, Debug, Clone, PartialEq, Eq, PartialOrd, Ord, Hash)]
pub enum Argument {
    /// A slot. It is bound in the next child, or free if no child follows.
    Slot(Slot),
    /// A child.
    Child(AppliedId),
}

impl Argument {
    /// Returns an argument that equals this one.
    pub fn copy(&self, alloc: Global) -> Result<Argument, Error>
        ensures ok { IfOk result (λ c. c ≡ self.now) }
        ensures err { IfErr result IsOutOfMemory }
    {
        match self {
            Argument::Slot(x) => Ok(Argument::Slot(*x)),
            Argument::Child(a) => Ok(Argument::Child(a.copy(alloc)?)),
        }
    }
}
