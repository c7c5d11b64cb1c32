//! A rule that adds an e-node in each turn.
ghost use Rattle.std.specs.Prelude.{◌≡◌, ⊤, false};
ghost use Rattle.slotted_graph.specs.Extension.{ExtendsTo};

use slotted_data::Analysis;
use slotted_graph::EGraph;
use slotted_rules::RewriteT;
use slotted_slots::Error;
use slotted_small::Small;
use std::alloc::Global;

/// The rule that adds the number of e-nodes as an e-node, while there are fewer than `most`.
#[derive(Drop)]
pub struct Counting {
    pub most: u32,
}

impl<N: Analysis<Small>> RewriteT<Small, N> for Counting {
    type Found = ();

    ghost valid = { λ r g. ⊤ };

    ghost passes = { λ r g. g.failed ≡ false };

    ghost searches = { λ r g f h. h ≡ g };

    ghost can_apply = { λ r f g. ⊤ };

    ghost applies = { λ r f g h. ExtendsTo g h };

    ghost refuses = { λ r e. ⊥ };

    ghost valid_stays = { λ r g h e v. tt };

    ghost searched_fits = { λ r g h f s. tt };

    ghost can_apply_stays = { λ r f g h e c. tt };

    ghost never_failed = { λ r h. h };

    fn is_valid(&self, graph: &EGraph<Small, N>) -> bool {
        !graph.is_failed()
    }

    fn search(&self, alloc: Global, graph: &mut EGraph<Small, N>) -> Result<(), Error> {
        if graph.is_failed() {
            return Err(Error::Failed);
        }
        Ok(())
    }

    fn apply(&self, alloc: Global, found: (), graph: &mut EGraph<Small, N>) -> Result<(), Error> {
        if graph.is_failed() {
            return Err(Error::Failed);
        }
        let count = u32::try_from(graph.total_number_of_nodes()).unwrap_or(u32::MAX);
        let node = Small::Number(count);
        if count >= self.most || !graph.is_valid_node(&node) {
            return Ok(());
        }
        graph.add_quietly(&node)?;
        Ok(())
    }
}
