//! Payloads that are written as the text that Rust prints for them, and read by Rust's reader.
ghost use Rattle.std.specs.Prelude.{◌≡◌, ℕ, List, [], ◌∷◌, map, Option, Some, IfOk, IfErr, Result};
ghost use Rattle.std.specs.Result.{result_ok};
ghost use Rattle.std.specs.Str.{IsUtf8};
ghost use Rattle.slotted_slots.specs.Error.{IsOutOfMemory};
ghost use Rattle.slotted_slots.specs.Syntax.{element_of, text};
ghost use Rattle.slotted_nodes.specs.Written.{read_text};

use slotted_slots::{Error, SyntaxElem};
use std::alloc::Global;
use std::fmt::Display;
use std::str::FromStr;

/// A value that is written in a node as its text.
pub(crate) trait Payload: Copy + Display + FromStr<Err: Drop> {
    // The text of a value.
    ghost written: { Self → List ℕ };

    // The value that a text writes.
    ghost reads: { List ℕ → Option Self };

    // The text is the one that Rust prints.
    ghost prints: { (p : Self) → Self.output p ≡ Some (written p) };

    // The value is the one that Rust reads.
    ghost parses: { (bs : List ℕ) (r : Result Self Self.Err) → IsUtf8 bs → Self.from_str_gives bs r
        → result_ok r ≡ reads bs };
}

/// Returns the value as the one element that it is written as.
pub(crate) fn write<P: Payload>(alloc: Global, value: P) -> Result<Vec<SyntaxElem>, Error>
    ensures ok { IfOk result (λ v. map element_of v.items ≡ text (P.written value) ∷ []) }
    ensures err { IfErr result IsOutOfMemory }
{
    Ok(vec![in alloc; SyntaxElem::String(value.to_string(alloc)?)]?)
}

/// Returns the value that a text writes.
pub(crate) fn parse<P: Payload>(text: &str) -> Option<P>
    ensures { result ≡ P.reads text.now }
{
    text.parse().ok()
}

/// Returns the value of a list of elements that is one text.
pub(crate) fn read<P: Payload>(elements: &[SyntaxElem]) -> Option<P>
    ensures { result ≡ read_text P.reads (map element_of elements.now) }
{
    match elements {
        [SyntaxElem::String(text)] => parse(text.as_str()),
        _ => None,
    }
}
