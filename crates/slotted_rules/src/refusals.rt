//! Tests before anything is added.
ghost use Rattle.std.specs.Prelude.{◌⊎◌, IfErr, OnOk};
ghost use Rattle.slotted_slots.specs.Error.{IsOutOfMemory};
ghost use Rattle.slotted_patterns.specs.View.{tree_of};
ghost use Rattle.slotted_rule_patterns.specs.Values.{values_of};
ghost use Rattle.slotted_rules.specs.Instances.{HasValues};
ghost use Rattle.slotted_rules.specs.Refusals.{IsMissing};

use slotted_languages::Language;
use slotted_patterns::Pattern;
use slotted_rule_patterns::Subst;
use slotted_rule_patterns::pattern::first_missing;
use slotted_slots::Error;
use std::alloc::Global;

/// Checks that each variable of the pattern has a value. The first variable without one is refused.
pub(crate) fn check_values<L: Language>(
    alloc: Global,
    pattern: &Pattern<L>,
    subst: &Subst,
) -> Result<(), Error>
    ensures ok { OnOk result (HasValues (values_of subst.now) (tree_of L.form pattern.now)) }
    ensures err { IfErr result
        (λ e. IsOutOfMemory e ⊎ IsMissing (values_of subst.now) (tree_of L.form pattern.now) e) }
{
    match first_missing(pattern, subst) {
        Some(name) => Err(Error::MissingVariable(String::from_str(alloc, name)?)),
        None => Ok(()),
    }
}
