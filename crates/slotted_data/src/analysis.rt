//! Data for each class.
ghost use Rattle.std.specs.Prelude.{◌≡◌, ℕ, List, All, IfOk, IfErr, IsTrue};
ghost use Rattle.slotted_slots.specs.Error.{IsOutOfMemory, IsShortage};
ghost use Rattle.slotted_slots.specs.declared.error.Error.{Error};
ghost use Rattle.slotted_outlines.specs.BareNodes.{HasValuesFor, bare_node};
ghost use Rattle.slotted_data.specs.Meaning.{IsMergeOf, Meaning, by_bare_nodes};
ghost use Rattle.slotted_data.specs.Edits.{IsOver};
ghost use Rattle.slotted_model_analyses.specs.Analysis.{IsMerge, MakesAlike};

use crate::edit::Edit;
use slotted_languages::Language;
use slotted_slots::{Error, Slot};
use std::alloc::Global;

/// Data for the classes of a graph, and edits that are asked for each class.
///
/// What an e-node makes is merged into the data of its class. The merge is commutative, associative and idempotent. A
/// merge that changes data lowers its height, so the data of a class changes no more often than its height says.
///
/// Of an e-node `make` may read the operator, the payloads, and which of its places have one name. These are what is
/// left of the e-node without its names and its children. `make` reads the data of the children too. So e-nodes that
/// are equal up to names make equal data.
///
/// A graph stores its analysis and the data of its classes as values. Both need a code, which tells their values apart.
pub trait Analysis<L: Language>: Drop {
    ghost use Rattle.std.specs.Prelude.{Bool};
    ghost use Rattle.std.specs.Coded.{Coded};
    ghost use Rattle.slotted_data.specs.declared.edit.Edit.{Edit};

    type Data: Eq + Clone + Drop;

    // Codes tell analyses of this type apart, and data of this type.
    ghost codes: { Coded Self × Coded Self.Data };

    // The meaning says what an e-node makes, the merge of two data, and the height of data. An e-node makes its data of
    // what is left of it without its names and its children, and of the data of its children from the left. The
    // operator is given as one more than the e-node's.
    ghost meaning: { Self → Meaning Self.Data };

    // `may_ask` says which edits may be asked for a class, by its data and its slots.
    ghost may_ask: { Self → Self.Data → List ℕ → Edit L → Type 0 } = { λ _ _ _ _. ⊥ };

    // `modifies` says whether classes are modified.
    ghost modifies: { Bool };

    // `refuses` says which errors `modify` may answer.
    ghost refuses: { Error → Type 0 };

    /// Returns data that equals this one.
    fn copy(&self, alloc: Global, data: &Self::Data) -> Result<Self::Data, Error>
        ensures ok { IfOk result (λ d. d ≡ «data».now) }
        ensures err { IfErr result IsOutOfMemory };

    /// Returns what an e-node makes whose children have these data, from the left. No error is answered but a refused
    /// growth.
    fn make(&self, alloc: Global, node: &L, child: &[Self::Data]) -> Result<Self::Data, Error>
        requires { HasValuesFor (L.form node.now) child.now }
        ensures ok { IfOk result (λ d. d ≡ (meaning self.now).make (bare_node (L.form node.now)) child.now) }
        ensures err { IfErr result IsOutOfMemory };

    /// Returns the merge of two data. No error is answered but a refused growth.
    fn merge(&self, alloc: Global, l: &Self::Data, r: &Self::Data) -> Result<Self::Data, Error>
        ensures ok { IfOk result (λ d. d ≡ (meaning self.now).merge l.now r.now) }
        ensures err { IfErr result IsOutOfMemory };

    /// Returns how often this data can still change, at most.
    fn height(&self, data: &Self::Data) -> u32
        ensures { result ≡ (meaning self.now).height «data».now };

    /// Returns whether classes are modified. If not, `modify` is never called, and a write does what its contract says
    /// without rounds.
    fn modifies() -> bool
        ensures { result ≡ modifies };

    /// Returns the edits for a class with this data and these slots, from the first to the last.
    fn modify(
        &self,
        alloc: Global,
        data: &Self::Data,
        slots: &[Slot],
    ) -> Result<Vec<Edit<L>>, Error>
        ensures ok { IfOk result (λ v. All (may_ask self.now «data».now slots.now) v.items) }
        ensures over { IfOk result (λ v. All (IsOver slots.now) v.items) }
        ensures err { IfErr result refuses }
    {
        Ok(Vec::new(alloc))
    }

    // The merge is commutative, associative and idempotent, and lowers the height of what it changes.
    ghost is_merge: { (n : Self) → IsMergeOf (meaning n) };

    // Data that `eq` says to be equal is the same.
    ghost equal_is_same: { (x y : Self.Data) → IsTrue (Self.Data.eq x y) → x ≡ y };

    // `modify` refuses for want of memory or of slots alone.
    ghost only_shortages: { (e : Error) → refuses e → IsShortage e };
}

/// Proves that the merge of each analysis is one over which data can be carried, and that e-nodes that are equal up to
/// names make equal data.
pub fn analyses_merge<L: Language, N: Analysis<L>>()
    ensures merge { (n : N) → IsMerge N.Data (by_bare_nodes (N.meaning n)) }
    ensures alike { (n : N) → MakesAlike (λ _. Unit {0}) N.Data (by_bare_nodes (N.meaning n)) }
{}

/// The analysis that keeps nothing and asks for nothing.
impl<L: Language> Analysis<L> for () {
    ghost use Rattle.std.specs.Prelude.{false, refl};
    ghost use Rattle.slotted_data.specs.Meaning.{no_data, no_data_merges, unit_code};

    type Data = ();

    ghost codes = { (unit_code, unit_code) };

    ghost meaning = { λ _. no_data };

    ghost modifies = { false };

    ghost refuses = { λ _. ⊥ };

    ghost is_merge = { λ _. no_data_merges };

    ghost equal_is_same = { λ _ _ _. refl };

    ghost only_shortages = { λ _ h. absurd h };

    fn copy(&self, alloc: Global, data: &()) -> Result<(), Error> {
        Ok(())
    }

    fn make(&self, alloc: Global, node: &L, child: &[()]) -> Result<(), Error> {
        Ok(())
    }

    fn merge(&self, alloc: Global, l: &(), r: &()) -> Result<(), Error> {
        Ok(())
    }

    fn height(&self, data: &()) -> u32 {
        0
    }

    fn modifies() -> bool {
        false
    }
}
