//! Substitutions: ids for the variables of a pattern.
ghost use Rattle.std.specs.Prelude.{◌≡◌, option_map};
ghost use Rattle.slotted_proofs.specs.Equations.{to_applied};
ghost use Rattle.slotted_model_rules.specs.Matcher.{value_at};
ghost use Rattle.slotted_rule_patterns.specs.Values.{values_of};

use slotted_slots::AppliedId;
use std::collections::BTreeMap;

/// A substitution: for each variable, by its name without the `?`, the id that stands for it.
pub type Subst = BTreeMap<String, AppliedId>;

/// Returns the id of a variable, or `None` if it has none.
pub fn value<'a>(subst: &'a Subst, variable: &str) -> Option<&'a AppliedId>
    ensures { option_map (λ a. to_applied a.now) result ≡ value_at (values_of subst.now) variable.now }
{
    subst.get(variable)
}
