//! The reason of an entry, as its line in a printed proof says it.
ghost use Rattle.std.specs.Prelude.{◌≡◌, ◌++◌, [], string_bytes, codes, IfOk, OnOk, IfErr, IfSome, Option};
ghost use Rattle.slotted_slots.specs.Error.{IsOutOfMemory};
ghost use Rattle.slotted_proofs.specs.Reasons.{number_text, numbers_text, step_text, reason_of};

use crate::lines::ProofLines;
use crate::proof::{Proof, ProvenEq};
use slotted_slots::Error;
use std::alloc::Global;
use std::fmt::Write;

/// Returns the reason in the line of an entry with this proof.
///
/// For an asserted equation the reason is the debug form of the optional text. Else it is `refl`, or `symmetry`,
/// `transitivity` or `congruence` with the numbers of the parts' lines.
pub fn reason(alloc: Global, proof: &Proof, lines: &ProofLines) -> Result<String, Error>
    ensures ok { IfOk result (λ s. IfSome (reason_of lines.now proof.now) (λ bs. string_bytes s ≡ bs)) }
    ensures err { IfErr result IsOutOfMemory }
{
    match proof {
        Proof::Explicit(explicit) => {
            let text = &explicit.0;
            Ok(format!(in alloc; "{text:?}")?)
        }
        Proof::Reflexivity(_) => Ok(String::from_str(alloc, "refl")?),
        Proof::Symmetry(part) => step_text(alloc, "symmetry", &[part.0], lines),
        Proof::Transitivity(parts) => {
            step_text(alloc, "transitivity", &[parts.0, parts.1], lines)
        }
        Proof::Congruence(parts) => step_text(alloc, "congruence", &parts.0, lines),
    }
}

// Returns the name of a step with the lines of its parts.
fn step_text(
    alloc: Global,
    name: &str,
    parts: &[ProvenEq],
    lines: &ProofLines,
) -> Result<String, Error>
    ensures ok { IfOk result (λ s. string_bytes s ≡ step_text name.now lines.now parts.now) }
    ensures err { IfErr result IsOutOfMemory }
{
    let mut text = format!(in alloc; "{name}(")?;
    push_parts(&mut text, parts, lines)?;
    Ok(text)
}

// Appends the lines of some parts, separated by commas, and a bracket.
fn push_parts(text: &mut String, parts: &[ProvenEq], lines: &ProofLines) -> Result<(), Error>
    ensures ok { OnOk result (string_bytes text.new ≡ string_bytes text.old ++ (numbers_text lines.now [] parts.now ++ codes ")")) }
    ensures err { IfErr result IsOutOfMemory }
{
    let mut separator = "";
    for part in parts {
        text.push_str(separator)?;
        push_number(text, lines.line_of(*part))?;
        separator = ", ";
    }
    text.push_str(")")?;
    Ok(())
}

// Appends the number of a line, or `?` if there is none.
fn push_number(text: &mut String, line: Option<usize>) -> Result<(), Error>
    ensures ok { OnOk result (string_bytes text.new ≡ string_bytes text.old ++ number_text line) }
    ensures err { IfErr result IsOutOfMemory }
{
    match line {
        Some(number) => write!(text, "{number}")?,
        None => text.push_str("?")?,
    }
    Ok(())
}
