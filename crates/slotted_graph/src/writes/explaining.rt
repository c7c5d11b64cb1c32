//! Explanations: two terms are added and proved equal, and data is carried along.
ghost use Rattle.std.specs.Prelude.{◌≡◌, ◌+◌, IfErr, IfOk, IsErrOf, OnOk};
ghost use Rattle.slotted_slots.specs.Error.{IsShortage};
ghost use Rattle.slotted_slots.specs.Table.{KnowsMore};
ghost use Rattle.slotted_terms.specs.Valid.{IsWhole};
ghost use Rattle.slotted_data.specs.Meaning.{by_bare_nodes};
ghost use Rattle.slotted_data.specs.Carrying.{Carried, DataRests, HasCarriedAll};
ghost use Rattle.slotted_operations.specs.Explaining.{ExplainsTerms, RunsOutForTerms};
ghost use Rattle.slotted_operations.specs.Good.{Good, RestsWith, HasFreshSlots, image_of};
ghost use Rattle.slotted_operations.specs.Graph.{MakesAtMost};
ghost use Rattle.slotted_operations.specs.Places.{term_slots};

use slotted_classes::Store;
use slotted_data::{Analysis, ClassData, carry};
use slotted_hashcons::Hashcons;
use slotted_languages::Language;
use slotted_operations::explaining;
use slotted_proofs::ProvenEq;
use slotted_slots::{Error, SlotTable};
use slotted_terms::expr::RecExpr;
use std::alloc::Global;

/// Returns the proof that two terms are equal, or `None` if their ids are not found equal. The terms are added first.
pub fn explain<L: Language, N: Analysis<L>>(
    store: &mut Store<L>,
    nodes: &mut Hashcons<L>,
    data: &mut ClassData<N::Data>,
    analysis: &N,
    alloc: Global,
    table: &mut SlotTable,
    left: &RecExpr<L>,
    right: &RecExpr<L>,
) -> Result<Option<ProvenEq>, Error>
    requires good { Good store.old }
    requires rests { RestsWith store.old nodes.old }
    requires fresh_slots { HasFreshSlots table.old store.old }
    requires left { IsWhole left.now.args }
    requires right { IsWhole right.now.args }
    requires since { DataRests (by_bare_nodes (N.meaning analysis.now)) store.old nodes.old «data».old }
    ensures ok { IfOk result
        (ExplainsTerms table.old table.new store.old nodes.old store.new nodes.new left.now right.now) }
    ensures carried { OnOk result
        (Carried (by_bare_nodes (N.meaning analysis.now)) store.old nodes.old store.new nodes.new «data».old «data».new) }
    ensures still { OnOk result (HasCarriedAll store.new «data».old → «data».new ≡ «data».old) }
    ensures more { KnowsMore table.old table.new }
    ensures takes { MakesAtMost (term_slots left.now + term_slots right.now) table.old table.new }
    ensures full { IsErrOf result Error.OutOfSlots
        → RunsOutForTerms (image_of store.old) left.now right.now table.old table.new }
    ensures err { IfErr result IsShortage }
{
    let answer = explaining::explain(store, nodes, alloc, table, left, right)?;
    carry(store, nodes, data, analysis, alloc)?;
    Ok(answer)
}
