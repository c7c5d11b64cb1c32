//! Whether many words are different, in one walk.
ghost use Rattle.std.specs.Prelude.{◌≡◌, ◌<◌, ◌∷◌, ℕ, List, length, cond, true, false, map, string_bytes, IfOk, IfSome, IsTrue};
ghost use Rattle.std.specs.HashSet.{contains_text};
ghost use Rattle.std.specs.Str.{bytes_eq};
ghost use Rattle.slotted_certificates.specs.Distinct.{AreUnseen};
ghost use Rattle.slotted_certificates.specs.Given.{AreDifferent};

use crate::instances::is_done;
use std::alloc::{AllocError, Global};
use std::collections::HashSet;

// Adds a word to those that were seen. Returns whether it was none of them.
fn see(seen: &mut HashSet<String>, word: String) -> Result<bool, AllocError>
    ensures new { IfOk result (λ b. IsTrue b → contains_text seen.old (string_bytes word) ≡ false) }
    ensures seen { IfOk result (λ b. (w : List ℕ) → contains_text seen.new w
        ≡ cond (bytes_eq (string_bytes word) w) true (contains_text seen.old w)) }
{
    let is_new = seen.insert(word)?;
    Ok(is_new)
}

// Returns the first word, and the words behind it.
fn first_word<'a>(words: &'a [String]) -> Option<(&'a str, &'a [String])>
    ensures words { IfSome result (λ p. map string_bytes words.now ≡ p.0.now ∷ map string_bytes p.1.now) }
    ensures shorter { IfSome result (λ p. length p.1.now < length words.now) }
{
    if words.is_empty() {
        return None;
    }
    Some((words[0].as_str(), &words[1..]))
}

// Returns the words behind the first one, if that was not seen before, as it is now.
fn behind_unseen<'a>(
    alloc: Global,
    seen: &mut HashSet<String>,
    words: &'a [String],
) -> Result<Option<&'a [String]>, AllocError>
    ensures unseen { IfOk result (λ o. IfSome o (λ rest. AreUnseen seen.new (map string_bytes rest.now)
        → AreUnseen seen.old (map string_bytes words.now))) }
    ensures shorter { IfOk result (λ o. IfSome o (λ rest. length rest.now < length words.now)) }
{
    match first_word(words) {
        Some((word, behind)) => {
            if !see(seen, String::from_str(alloc, word)?)? {
                return Ok(None);
            }
            Ok(Some(behind))
        }
        None => Ok(None),
    }
}

/// Returns whether no two words are one.
pub(crate) fn are_many_different(alloc: Global, words: &[String]) -> Result<bool, AllocError>
    ensures { IfOk result (λ b. IsTrue b → AreDifferent (map string_bytes words.now)) }
{
    let mut seen = HashSet::new(alloc);
    let mut rest = words;
    while !is_done(rest) {
        match behind_unseen(alloc, &mut seen, rest)? {
            Some(behind) => rest = behind,
            None => return Ok(false),
        }
    }
    Ok(true)
}
