//! What a pattern prints is read as that pattern.
ghost use Rattle.slotted_patterns.specs.ReadAgain.{IsWordAndPlaces, ReadsAsItself};

use slotted_languages::{Language, ReadBack};

/// Proves that a pattern which was read from a text prints a text that is read as the same pattern.
///
/// The pattern prints with the table that the first reading left, and the second reading leaves this table as it is.
/// This holds in each language that is read back, and writes a node as one word with the node's slots and children
/// after it.
pub fn each_print_reads_as_itself<L: Language + ReadBack>()
    requires plain { (a : L) → IsWordAndPlaces (L.form a) (L.shown a) }
    ensures { ReadsAsItself L.form L.shown L.read }
{}
