//! The text of an equation.
ghost use Rattle.std.specs.Prelude.{Some};
ghost use Rattle.slotted_proofs.specs.Shown.{shown_equation};

use super::Equation;
use slotted_slots::{Show, SlotTable};
use std::fmt;

/// Prints `id0[$0 -> $3] = id1[]`: the two sides.
impl Show for Equation {
    ghost shown = { λ t e. Some (shown_equation t e) };

    fn write_shown<W: fmt::Write>(
        &self,
        table: &SlotTable,
        f: &mut fmt::Formatter<W>,
    ) -> fmt::Result {
        let left = self.l.show(table);
        let right = self.r.show(table);
        write!(f, "{left} = {right}")
    }
}
