//! What a pattern or a term of `Small` prints is read as that pattern or term.
ghost use Rattle.slotted_patterns.specs.ReadAgain.{ReadsAsItself};
ghost use Rattle.slotted_terms.specs.ReadAgain.{TermReadsAsItself};
ghost use Rattle.slotted_small.specs.Small.{small_form, small_shown, small_read};
ghost use Rattle.slotted_small.specs.SmallWritten.{small_written};

use crate::small::Small;
use slotted_patterns::read_again::each_print_reads_as_itself;

/// Proves that each pattern of `Small` which was read from a text is read back from what it prints.
///
/// A number that was read from `+5` prints `5`, which is read as the same number.
pub fn each_print_of_small_reads_as_itself()
    ensures { ReadsAsItself small_form small_shown small_read }
{
    each_print_reads_as_itself::<Small>();
}

/// Proves that each term of `Small` which was read from a text is read back from what it prints.
pub fn each_term_of_small_reads_as_itself()
    ensures { TermReadsAsItself small_form small_written small_read }
{
    each_print_of_small_reads_as_itself();
}
