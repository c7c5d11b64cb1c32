//! The text of a slot map.
ghost use Rattle.std.specs.Prelude.{Some};
ghost use Rattle.slotted_slots.specs.Shown.{shown_map};

use super::SlotMap;
use crate::{Show, SlotTable};
use std::fmt;

/// Prints `[$0 -> $3, $1 -> $2]`, or `[]`.
impl Show for SlotMap {
    ghost shown = { λ t m. Some (shown_map t m) };

    fn write_shown<W: fmt::Write>(
        &self,
        table: &SlotTable,
        f: &mut fmt::Formatter<W>,
    ) -> fmt::Result {
        write!(f, "[")?;
        let mut separator = "";
        for pair in self.pairs.iter() {
            let key = pair.0.show(table);
            let value = pair.1.show(table);
            write!(f, "{separator}{key} -> {value}")?;
            separator = ", ";
        }
        write!(f, "]")
    }
}
