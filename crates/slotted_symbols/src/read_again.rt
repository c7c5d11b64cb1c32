//! What a pattern or a term of `SymbolLang` prints is read as that pattern or term.
ghost use Rattle.slotted_patterns.specs.ReadAgain.{ReadsAsItself};
ghost use Rattle.slotted_terms.specs.ReadAgain.{TermReadsAsItself};
ghost use Rattle.slotted_symbols.specs.SymbolForms.{symbol_form, symbol_shown, symbol_read};
ghost use Rattle.slotted_symbols.specs.SymbolWritten.{symbol_written};

use crate::symbol_lang::SymbolLang;
use slotted_patterns::read_again::each_print_reads_as_itself;

/// Proves that each pattern of `SymbolLang` which was read from a text is read back from what it prints.
pub fn each_print_of_symbols_reads_as_itself()
    ensures { ReadsAsItself symbol_form symbol_shown symbol_read }
{
    each_print_reads_as_itself::<SymbolLang>();
}

/// Proves that each term of `SymbolLang` which was read from a text is read back from what it prints.
pub fn each_term_of_symbols_reads_as_itself()
    ensures { TermReadsAsItself symbol_form symbol_written symbol_read }
{
    each_print_of_symbols_reads_as_itself();
}
