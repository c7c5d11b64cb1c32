//! What a term prints is read as that term.
ghost use Rattle.slotted_patterns.specs.ReadAgain.{IsWordAndPlaces};
ghost use Rattle.slotted_terms.specs.ReadAgain.{TermReadsAsItself};

use crate::expr::printing::Printable;
use slotted_languages::ReadBack;
use slotted_patterns::read_again::each_print_reads_as_itself;

/// Proves that a term which was read from a text prints a text that is read as the same term.
///
/// The text is read as a pattern, and then as the term that this is. The term prints with the table that the first
/// reading left, and the second reading leaves this table as it is. This holds in each language that is read back,
/// and writes a node as one word with the node's slots and children after it.
pub fn each_term_reads_as_itself<L: Printable + ReadBack>()
    requires plain { (a : L) → IsWordAndPlaces (L.form a) (L.shown a) }
    ensures { TermReadsAsItself L.form L.written L.read }
{
    each_print_reads_as_itself::<L>();
}
