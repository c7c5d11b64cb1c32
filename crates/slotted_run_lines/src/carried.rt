//! Data of a graph without classes, which is carried along. What `carry` requires can be met from the beginning.
ghost use Rattle.std.specs.Prelude.{◌≡◌, IfOk};
ghost use Rattle.slotted_classes.specs.Kept.{nothing};
ghost use Rattle.slotted_hashcons.specs.FiledRows.{no_rows};
ghost use Rattle.slotted_data.specs.Meaning.{by_bare_nodes};
ghost use Rattle.slotted_data.specs.Carrying.{DataRests};
ghost use Rattle.slotted_const_fold.specs.ConstFold.{fold};

use slotted_classes::Store;
use slotted_const_fold::{ConstFold, Fold};
use slotted_data::{ClassData, carry};
use slotted_hashcons::Hashcons;
use slotted_slots::Error;
use slotted_small::Small;
use std::alloc::Global;

/// Returns the data of a graph without classes, carried once.
pub fn carried_nothing(alloc: Global) -> Result<ClassData<Fold>, Error>
    ensures { IfOk result (DataRests (by_bare_nodes fold) nothing no_rows) }
{
    let store: Store<Small> = Store::new(alloc);
    let mut nodes = Hashcons::new(alloc);
    let mut data = ClassData::new(alloc);
    carry(&store, &mut nodes, &mut data, &ConstFold, alloc)?;
    Ok(data)
}
