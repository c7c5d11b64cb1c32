//! Pairs of names and slots of the pattern: at most one slot for a name, and one name for a slot.
ghost use Rattle.std.specs.Prelude.{◌≡◌, ◌==◌, option_map, reverse, Some, None, IfOk, OnOk, if◌then◌else◌};
ghost use Rattle.std.specs.List.{find, list_any};
ghost use Rattle.slotted_model_rules.specs.Matcher.{paired};
ghost use Rattle.slotted_model_rules.specs.Goals.{paired_all};
ghost use Rattle.slotted_match_machine.specs.Scratch.{GrowsTo};
ghost use Rattle.slotted_match_machine.specs.Views.{IsIn, names_at};

use crate::names::Names;
use std::alloc::AllocError;

// Returns the slot that the name stands for.
fn slot_of(pairs: &[(usize, usize)], name: usize) -> Option<usize>
    ensures { result ≡ option_map (λ p. p.1) (find (λ p. name == p.0) (reverse pairs.now)) }
{
    pairs
        .iter()
        .rev()
        .find(|pair| name == pair.0)
        .map(|pair| pair.1)
}

// Returns whether a name stands for the slot.
fn is_taken(pairs: &[(usize, usize)], slot: usize) -> bool
    ensures { result ≡ list_any (λ p. slot == p.1) pairs.now }
{
    pairs.iter().any(|pair| slot == pair.1)
}

// Pairs the name with the slot. Returns whether they may be paired.
fn pair(pairs: &mut Vec<(usize, usize)>, name: usize, slot: usize) -> Result<bool, AllocError>
    ensures paired { IfOk result (λ y. paired (reverse pairs.old.items) name slot
        ≡ (if y then Some (reverse pairs.new.items) else None)) }
    ensures grows { OnOk result (GrowsTo pairs.old.items pairs.new.items) }
{
    if let Some(other) = slot_of(pairs, name) {
        return Ok(other == slot);
    }
    if is_taken(pairs, slot) {
        return Ok(false);
    }
    pairs.push((name, slot))?;
    Ok(true)
}

/// Pairs the names with the slots, one after another. Returns whether they may be paired.
pub fn pair_all(
    pairs: &mut Vec<(usize, usize)>,
    frames: &[usize],
    names: &Names<'_>,
    slots: &[usize],
) -> Result<bool, AllocError>
    requires { IsIn frames.now names.now.frame }
    ensures paired { IfOk result (λ y. paired_all (reverse pairs.old.items) (names_at frames.now names.now) slots.now
        ≡ (if y then Some (reverse pairs.new.items) else None)) }
    ensures grows { OnOk result (GrowsTo pairs.old.items pairs.new.items) }
{
    if names.len() != slots.len() {
        return Ok(false);
    }
    for position in 0..slots.len() {
        if !pair(pairs, names.get(frames, position), slots[position])? {
            return Ok(false);
        }
    }
    Ok(true)
}
