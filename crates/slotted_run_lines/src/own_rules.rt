//! A rule of a caller's own.
ghost use Rattle.std.specs.Prelude.{◌≡◌};

use slotted_data::Analysis;
use slotted_graph::EGraph;
use slotted_languages::Language;
use slotted_rules::RewriteT;
use slotted_slots::{AppliedId, Error};
use std::alloc::Global;

/// The rule that searches for nothing, and unites two ids.
#[derive(Drop)]
pub struct Union {
    pub left: AppliedId,
    pub right: AppliedId,
}

impl<L: Language, N: Analysis<L>> RewriteT<L, N> for Union {
    ghost use Rattle.std.specs.Prelude.{Bool, false};
    ghost use Rattle.slotted_proofs.specs.Equations.{to_applied};
    ghost use Rattle.slotted_graph.specs.ValidIds.{IsValidId};
    ghost use Rattle.slotted_graph.specs.Image.{IsUnion};

    type Found = ();

    ghost valid = { λ r g. IsValidId g (to_applied r.left) × IsValidId g (to_applied r.right) };

    ghost passes = { λ r g. (g.failed ≡ false) × IsValidId g (to_applied r.left) × IsValidId g (to_applied r.right) };

    ghost searches = { λ r g f h. h ≡ g };

    ghost can_apply = { λ r f g. Unit {0} };

    ghost applies = { λ r f g h. (y : Bool) × IsUnion g.image h.image (to_applied r.left) (to_applied r.right) y };

    ghost refuses = { λ r e. ⊥ };

    ghost valid_stays = { λ r g h e v. (e.valid (to_applied r.left) v.0, e.valid (to_applied r.right) v.1) };

    ghost searched_fits = { λ r g h f s. tt };

    ghost can_apply_stays = { λ r f g h e c. c };

    ghost never_failed = { λ r x. x };

    fn is_valid(&self, graph: &EGraph<L, N>) -> bool {
        graph.is_valid(&self.left) && graph.is_valid(&self.right)
    }

    fn search(&self, alloc: Global, graph: &mut EGraph<L, N>) -> Result<(), Error> {
        if graph.is_failed() {
            return Err(Error::Failed);
        }
        Ok(())
    }

    fn apply(&self, alloc: Global, found: (), graph: &mut EGraph<L, N>) -> Result<(), Error> {
        graph.union_quietly(&self.left, &self.right, None)?;
        Ok(())
    }
}
