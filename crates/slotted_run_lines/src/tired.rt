//! An analysis whose edits run out of slots.
use slotted_data::{Analysis, Edit};
use slotted_languages::Language;
use slotted_slots::{Error, Slot};
use std::alloc::Global;

/// The analysis that keeps nothing, and whose edits are refused for want of slots.
#[derive(Drop, Default)]
pub struct Tired;

impl<L: Language> Analysis<L> for Tired {
    ghost use Rattle.std.specs.Prelude.{refl, true};
    ghost use Rattle.slotted_slots.specs.Error.{IsShortage};
    ghost use Rattle.slotted_data.specs.Meaning.{no_data, no_data_merges};
    ghost use Rattle.slotted_run_lines.specs.Tired.{tired_codes};

    type Data = ();

    ghost codes = { tired_codes };

    ghost meaning = { λ _. no_data };

    ghost modifies = { true };

    ghost refuses = { IsShortage };

    ghost is_merge = { λ _. no_data_merges };

    ghost equal_is_same = { λ _ _ _. refl };

    ghost only_shortages = { λ _ h. h };

    fn copy(&self, alloc: Global, data: &()) -> Result<(), Error> {
        Ok(())
    }

    fn make(&self, alloc: Global, node: &L, child: &[()]) -> Result<(), Error> {
        Ok(())
    }

    fn merge(&self, alloc: Global, l: &(), r: &()) -> Result<(), Error> {
        Ok(())
    }

    fn height(&self, data: &()) -> u32 {
        0
    }

    fn modifies() -> bool {
        true
    }

    fn modify(&self, alloc: Global, data: &(), slots: &[Slot]) -> Result<Vec<Edit<L>>, Error> {
        Err(Error::OutOfSlots)
    }
}
