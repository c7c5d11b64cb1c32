//! Substitutions whose values omit no name.
ghost use Rattle.std.specs.Prelude.{[], IfOk, IfErr, IsTrue};
ghost use Rattle.slotted_slots.specs.Error.{IsShortage};
ghost use Rattle.slotted_graph.specs.Graph.{OnlyTakesSlots};
ghost use Rattle.slotted_graph.specs.States.{IsGraph};
ghost use Rattle.slotted_rule_patterns.specs.Values.{values_of};
ghost use Rattle.slotted_rules.specs.Filled.{AreFullValues, FillsValues};
ghost use Rattle.slotted_rules.specs.Instances.{AreValidValues};

use slotted_data::Analysis;
use slotted_graph::EGraph;
use slotted_languages::Language;
use slotted_rule_patterns::Subst;
use slotted_slots::Error;
use std::alloc::Global;

/// Returns the substitution with a fresh slot for each name that a value omits.
pub(crate) fn full_values<L: Language, N: Analysis<L>>(
    alloc: Global,
    graph: &mut EGraph<L, N>,
    subst: &Subst,
) -> Result<Subst, Error>
    requires graph { IsGraph graph.old }
    requires values { AreValidValues graph.old (values_of subst.now) }
    ensures fills { IfOk result
        (λ s. FillsValues graph.old.table graph.old.image.canonical [] (values_of subst.now) (values_of s)) }
    ensures full { IfOk result (λ s. AreFullValues graph.new (values_of s)) }
    ensures takes { OnlyTakesSlots graph.old graph.new }
    ensures only { IfErr result IsShortage }
{
    let mut full = Subst::new(alloc);
    for (name, id) in subst {
        let name = String::from_str(alloc, name.as_str())?;
        let id = graph.full_id(id)?;
        full.insert(name, id)?;
    }
    Ok(full)
}

/// Returns whether no value omits a name.
pub(crate) fn are_full<L: Language, N: Analysis<L>>(graph: &EGraph<L, N>, subst: &Subst) -> bool
    ensures { IsTrue result → AreFullValues graph.now (values_of subst.now) }
{
    for (_name, id) in subst {
        if !graph.is_full(id) {
            return false;
        }
    }
    true
}
