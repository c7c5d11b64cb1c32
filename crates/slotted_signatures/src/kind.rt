//! The kinds of arguments.
ghost use Rattle.std.specs.Prelude.{◌≡◌, map, IfOk, IfErr};
ghost use Rattle.slotted_slots.specs.Error.{IsOutOfMemory};
ghost use Rattle.slotted_symbols.specs.Arguments.{elements, kinds};
ghost use Rattle.slotted_signatures.specs.Kinds.{number, number_of};

use slotted_slots::Error;
use slotted_symbols::Argument;
use std::alloc::Global;

/// What stands at a position behind an operator.
#[derive(Clone, Copy, PartialEq, Eq, Debug)]
pub enum Kind {
    /// A slot, which is bound in the next child if one follows.
    Slot,
    /// A child.
    Child,
}

/// Returns the kind of an argument.
pub fn kind_of(argument: &Argument) -> Kind
    ensures { number result ≡ number_of argument.now }
{
    match argument {
        Argument::Slot(_) => Kind::Slot,
        Argument::Child(_) => Kind::Child,
    }
}

/// Returns the kinds of arguments in their order.
pub fn kinds_of(alloc: Global, arguments: &[Argument]) -> Result<Vec<Kind>, Error>
    ensures ok { IfOk result (λ ks. map number ks.items ≡ kinds (elements arguments.now)) }
    ensures err { IfErr result IsOutOfMemory }
{
    let mut kinds = Vec::new(alloc);
    for argument in arguments {
        kinds.push(kind_of(argument))?;
    }
    Ok(kinds)
}
