//! Edits: those of a class, which its analysis asks for, and rounds over the classes that wait to be modified.
ghost use Rattle.std.specs.Prelude.{◌≡◌, ◌⊎◌, ◌↔◌, All, IsErr, IsErrOf, IsTrue, IfErr, IfOk, OnOk, true, IsOk};
ghost use Rattle.slotted_slots.specs.Error.{IsShortage};
ghost use Rattle.slotted_slots.specs.Table.{KnowsMore};
ghost use Rattle.slotted_proofs.specs.Equations.{to_applied};
ghost use Rattle.slotted_terms.specs.Valid.{IsValidTerm};
ghost use Rattle.slotted_data.specs.Edits.{IsValidEdit};
ghost use Rattle.slotted_data.specs.declared.edit.Edit.TheVariants.{Equate};
ghost use Rattle.slotted_graph.specs.States.{IsGraph};
ghost use Rattle.slotted_operations.specs.ValidIds.{IsValidId};
ghost use Rattle.slotted_graph.specs.Edited.{AddsTerm, MakesEdit, MakesEdits, UnitesIds};
ghost use Rattle.slotted_graph.specs.Asked.{IsLiveIn};
ghost use Rattle.slotted_graph.specs.Rounds.{LeavesModified, ModifiesClass, MakesRounds, Modifies, TakesRound};
ghost use Rattle.slotted_operations.specs.Reports.{class_numbers};

use crate::egraph::EGraph;
use slotted_data::{Analysis, Edit};
use slotted_languages::Language;
use slotted_slots::{AppliedId, Error, Id};
use slotted_terms::RecExpr;
use std::alloc::Global;

// Adds a term. Returns its id.
fn add_term<L: Language, N: Analysis<L>>(
    graph: &mut EGraph<L, N>,
    term: &RecExpr<L>,
) -> Result<AppliedId, Error>
    requires graph { IsGraph graph.old }
    requires term { IsValidTerm graph.old.table term.now }
    ensures ok { IfOk result (λ a. AddsTerm N.codes N.meaning graph.old graph.new term.now (to_applied a)) }
    ensures more { KnowsMore graph.old.table graph.new.table }
    ensures fails { IsTrue graph.new.failed ↔ IsErr result }
    ensures err { IfErr result IsShortage }
{
    let id = graph.add_syn_expr_quietly(term)?;
    Ok(id)
}

// Asserts that two ids are equal.
fn unite<L: Language, N: Analysis<L>>(
    graph: &mut EGraph<L, N>,
    left: &AppliedId,
    right: &AppliedId,
) -> Result<(), Error>
    requires graph { IsGraph graph.old }
    requires left { IsValidId graph.old (to_applied left.now) }
    requires right { IsValidId graph.old (to_applied right.now) }
    ensures ok { OnOk result (UnitesIds N.codes N.meaning graph.old graph.new (to_applied left.now) (to_applied right.now)) }
    ensures table { graph.new.table ≡ graph.old.table }
    ensures fails { IsTrue graph.new.failed ↔ IsErr result }
    ensures err { IfErr result IsShortage }
{
    graph.union_quietly(left, right, None)?;
    Ok(())
}

// Adds two terms, and asserts that they are equal.
fn equate<L: Language, N: Analysis<L>>(
    graph: &mut EGraph<L, N>,
    class: &AppliedId,
    left: &RecExpr<L>,
    right: &RecExpr<L>,
) -> Result<(), Error>
    requires graph { IsGraph graph.old }
    requires left { IsValidTerm graph.old.table left.now }
    requires right { IsValidTerm graph.old.table right.now }
    ensures ok { OnOk result (MakesEdit {L = L} N.codes N.meaning graph.old graph.new (to_applied class.now) (Equate left.now right.now)) }
    ensures more { KnowsMore graph.old.table graph.new.table }
    ensures fails { IsTrue graph.new.failed ↔ IsErr result }
    ensures err { IfErr result IsShortage }
{
    let a = add_term(graph, left)?;
    let b = add_term(graph, right)?;
    unite(graph, &a, &b)
}

/// Makes an edit of a class: adds its terms, and asserts what it says, without a text.
pub fn make_edit<L: Language, N: Analysis<L>>(
    graph: &mut EGraph<L, N>,
    class: &AppliedId,
    edit: &Edit<L>,
) -> Result<(), Error>
    requires class { IsTrue graph.old.failed ⊎ IsValidId graph.old (to_applied class.now) }
    requires edit { IsTrue graph.old.failed ⊎ IsValidEdit graph.old.table edit.now }
    ensures ok { OnOk result (MakesEdit N.codes N.meaning graph.old graph.new (to_applied class.now) edit.now) }

    // Slots that were known still are, also if the edit is refused.
    ensures more { KnowsMore graph.old.table graph.new.table }

    ensures stays { IsTrue graph.old.failed → graph.new ≡ graph.old }
    ensures failed { IsErrOf result Error.Failed ↔ IsTrue graph.old.failed }
    ensures fails { IsTrue graph.new.failed ↔ IsErr result }
    ensures only { IfErr result (λ e. (e ≡ Error.Failed) ⊎ IsShortage e) }
{
    if graph.is_failed() {
        return Err(Error::Failed);
    }
    match edit {
        Edit::Add(term) => {
            add_term(graph, term)?;
            Ok(())
        }
        Edit::Equal(term) => {
            let b = add_term(graph, term)?;
            unite(graph, class, &b)
        }
        Edit::Equate(left, right) => equate(graph, class, left, right),
    }
}

/// Makes the edits of a class, in order.
pub(crate) fn make_edits<L: Language, N: Analysis<L>>(
    graph: &mut EGraph<L, N>,
    class: &AppliedId,
    edits: &[Edit<L>],
) -> Result<(), Error>
    requires graph { IsGraph graph.old }
    requires class { IsValidId graph.old (to_applied class.now) }
    requires edits { All (IsValidEdit graph.old.table) edits.now }
    ensures ok { OnOk result (MakesEdits N.codes N.meaning graph.old (to_applied class.now) edits.now graph.new) }
    ensures graph { OnOk result (IsGraph graph.new) }
    ensures more { KnowsMore graph.old.table graph.new.table }
    ensures fails { IsTrue graph.new.failed ↔ IsErr result }
    ensures err { IfErr result IsShortage }
{
    for edit in edits {
        make_edit(graph, class, edit)?;
    }
    Ok(())
}

// Returns the answer of a write, and makes the graph a failed one if the answer is an error.
fn fail_if_refused<L: Language, N: Analysis<L>>(
    graph: &mut EGraph<L, N>,
    answer: Result<bool, Error>,
) -> Result<bool, Error>
    ensures same { result ≡ answer }
    ensures fails { IsErr answer → graph.new ≡ record graph.old { failed = true } }
    ensures stays { IsOk answer → graph.new ≡ graph.old }
    ensures table { graph.new.table ≡ graph.old.table }
{
    if answer.is_err() {
        graph.fail();
    }
    answer
}

// Makes the edits that are asked for a live class. Returns whether there were any.
fn modify_live<L: Language, N: Analysis<L>>(
    graph: &mut EGraph<L, N>,
    alloc: Global,
    id: Id,
) -> Result<bool, Error>
    requires graph { IsGraph graph.old }
    requires lives { IsLiveIn graph.old id.0 }
    ensures ok { IfOk result (λ y. ModifiesClass N.codes N.meaning N.may_ask graph.old id.0 graph.new y) }
    ensures well { IfOk result (λ y. IsGraph graph.new) }
    ensures more { KnowsMore graph.old.table graph.new.table }
    ensures err { IfErr result IsShortage }
{
    let class = graph.mk_identity_applied_id(id)?;
    let slots = graph.slots(id)?;
    let edits = graph
        .analysis()
        .modify(alloc, graph.analysis_data(id), slots.as_slice())?;
    make_edits(graph, &class, &edits)?;
    Ok(!edits.is_empty())
}

/// Asks the analysis for the edits of a class, and makes them. Returns whether there were any.
///
/// Nothing is asked for a dead class.
pub fn modify_class<L: Language, N: Analysis<L>>(
    graph: &mut EGraph<L, N>,
    alloc: Global,
    id: Id,
) -> Result<bool, Error>
    ensures modifies { IfOk result (λ y. ModifiesClass N.codes N.meaning N.may_ask graph.old id.0 graph.new y) }

    // What was there stays, and only what edits say is asserted. This follows from the clauses before.
    ensures leaves { IfOk result (λ y. LeavesModified N.codes N.meaning N.may_ask graph.old graph.new) }

    // Slots that were known still are, also if the call is refused.
    ensures more { KnowsMore graph.old.table graph.new.table }

    ensures stays { IsTrue graph.old.failed → graph.new ≡ graph.old }
    ensures failed { IsErrOf result Error.Failed ↔ IsTrue graph.old.failed }
    ensures fails { IsTrue graph.new.failed ↔ IsErr result }
    ensures only { IfErr result (λ e. (e ≡ Error.Failed) ⊎ IsShortage e) }
{
    if graph.is_failed() {
        return Err(Error::Failed);
    }
    if !graph.is_alive(id) {
        return Ok(false);
    }
    let answer = modify_live(graph, alloc, id);
    fail_if_refused(graph, answer)
}

// Modifies these classes in turn. Returns whether anything was asked for one of them.
fn modify_each<L: Language, N: Analysis<L>>(
    graph: &mut EGraph<L, N>,
    alloc: Global,
    ids: &[Id],
) -> Result<bool, Error>
    requires { IsGraph graph.old }
    ensures modifies { IfOk result (λ y. Modifies N.codes N.meaning N.may_ask graph.old (class_numbers ids.now) graph.new y) }
    ensures well { IfOk result (λ y. IsGraph graph.new) }
    ensures more { KnowsMore graph.old.table graph.new.table }
    ensures fails { IsTrue graph.new.failed ↔ IsErr result }
    ensures err { IfErr result IsShortage }
{
    let mut asked = false;
    for id in ids {
        if modify_class(graph, alloc, *id)? {
            asked = true;
        }
    }
    Ok(asked)
}

/// Makes one round: takes the live classes that wait, and modifies each that still lives. Returns whether anything was
/// asked.
pub fn modify_once<L: Language, N: Analysis<L>>(
    graph: &mut EGraph<L, N>,
    alloc: Global,
) -> Result<bool, Error>
    ensures round { IfOk result (λ y. TakesRound N.codes N.meaning N.may_ask graph.old graph.new y) }

    // What was there stays, and only what edits say is asserted. This follows from the clauses before.
    ensures leaves { IfOk result (λ y. LeavesModified N.codes N.meaning N.may_ask graph.old graph.new) }

    // Slots that were known still are, also if the call is refused.
    ensures more { KnowsMore graph.old.table graph.new.table }

    ensures stays { IsTrue graph.old.failed → graph.new ≡ graph.old }
    ensures failed { IsErrOf result Error.Failed ↔ IsTrue graph.old.failed }
    ensures fails { IsTrue graph.new.failed ↔ IsErr result }
    ensures only { IfErr result (λ e. (e ≡ Error.Failed) ⊎ IsShortage e) }
{
    if graph.is_failed() {
        return Err(Error::Failed);
    }
    let ids = graph.take_pending()?;
    modify_each(graph, alloc, &ids)
}

/// Makes rounds until no live class waits to be modified, but no more than the limit. Returns whether anything was
/// asked.
pub fn modify_in_rounds<L: Language, N: Analysis<L>>(
    graph: &mut EGraph<L, N>,
    alloc: Global,
    limit: usize,
) -> Result<bool, Error>
    ensures rounds { IfOk result (λ y. MakesRounds N.codes N.meaning N.may_ask limit graph.old graph.new y) }

    // What was there stays, and only what edits say is asserted. This follows from the clauses before.
    ensures leaves { IfOk result (λ y. LeavesModified N.codes N.meaning N.may_ask graph.old graph.new) }

    // Slots that were known still are, also if the call is refused.
    ensures more { KnowsMore graph.old.table graph.new.table }

    ensures stays { IsTrue graph.old.failed → graph.new ≡ graph.old }
    ensures failed { IsErrOf result Error.Failed ↔ IsTrue graph.old.failed }
    ensures fails { IsTrue graph.new.failed ↔ IsErr result }
    ensures only { IfErr result (λ e. (e ≡ Error.Failed) ⊎ IsShortage e) }
{
    if graph.is_failed() {
        return Err(Error::Failed);
    }
    let mut asked = false;
    for _ in 0..limit {
        if graph.pending_classes() == 0 {
            return Ok(asked);
        }
        if modify_once(graph, alloc)? {
            asked = true;
        }
    }
    Ok(asked)
}
