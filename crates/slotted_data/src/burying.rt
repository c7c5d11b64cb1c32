//! The data and the users of dead classes go to the classes that `find` maps these to.
ghost use Rattle.std.specs.Prelude.{◌≡◌, ◌<◌, ℕ, Contains, length, IfErr, OnOk};
ghost use Rattle.slotted_slots.specs.Error.{IsOutOfMemory};
ghost use Rattle.slotted_model.specs.Find.{IsLive};
ghost use Rattle.slotted_classes.specs.Finding.{HasFinds};
ghost use Rattle.slotted_classes.specs.Kept.{entries_of};
ghost use Rattle.slotted_data.specs.Meaning.{by_bare_nodes};
ghost use Rattle.slotted_data.specs.Burying.{Buries, BuriesOne, MovesUsers};
ghost use Rattle.slotted_data.specs.Held.{users_of};

use crate::Analysis;
use crate::class_data::ClassData;
use crate::lowering::put_value;
use crate::users::wait_each;
use slotted_classes::Store;
use slotted_hashcons::Hashcons;
use slotted_languages::Language;
use slotted_slots::Error;
use std::alloc::Global;

// Makes the users of one class users of another one.
fn move_users<D: Drop>(
    data: &mut ClassData<D>,
    alloc: Global,
    from: usize,
    to: usize,
) -> Result<(), Error>
    requires from { from < length «data».old.values }
    requires to { to < length «data».old.values }
    ensures ok { OnOk result (MovesUsers from to «data».old «data».new) }
    ensures err { IfErr result IsOutOfMemory }
{
    let sources = data.take_users(alloc, from);
    for source in &sources {
        data.add_user(to, *source)?;
    }
    Ok(())
}

// Merges the data of a dead class into that of the class that `find` maps it to. The users of the dead class become
// users of that class. They are made pending unless they see the data that they saw before.
fn bury_one<L: Language, N: Analysis<L>>(
    store: &Store<L>,
    nodes: &mut Hashcons<L>,
    data: &mut ClassData<N::Data>,
    analysis: &N,
    alloc: Global,
    dead: usize,
) -> Result<(), Error>
    requires good { HasFinds store.now }
    requires within { dead < length store.now.classes }
    requires count { length «data».old.values ≡ length store.now.classes }
    ensures ok { OnOk result
        (BuriesOne (by_bare_nodes (N.meaning analysis.now)) store.now dead nodes.old nodes.new «data».old «data».new) }
    ensures err { IfErr result IsOutOfMemory }
{
    let heir = store.find_class(dead);
    let merged = analysis.merge(alloc, data.value(heir), data.value(dead))?;
    let same = merged == *data.value(dead);
    put_value::<L, N>(nodes, data, heir, merged)?;
    if !same {
        wait_each(nodes, data.users(dead))?;
    }
    move_users(data, alloc, dead, heir)?;
    Ok(())
}

// Buries each of these classes: its data and its users go to the class that `find` maps it to.
pub(crate) fn bury<L: Language, N: Analysis<L>>(
    store: &Store<L>,
    nodes: &mut Hashcons<L>,
    data: &mut ClassData<N::Data>,
    analysis: &N,
    alloc: Global,
    deaths: &[usize],
) -> Result<(), Error>
    requires good { HasFinds store.now }
    requires count { length «data».old.values ≡ length store.now.classes }
    requires within { (i : ℕ) → Contains deaths.now i → i < length store.now.classes }
    requires dead { (i : ℕ) → Contains deaths.now i → ¬ IsLive (entries_of store.now) i }
    requires users { (c o : ℕ) → Contains (users_of «data».old c) o → c < length store.now.classes }
    ensures ok { OnOk result
        (Buries (by_bare_nodes (N.meaning analysis.now)) store.now deaths.now nodes.old nodes.new «data».old «data».new) }
    ensures err { IfErr result IsOutOfMemory }
{
    for dead in deaths {
        bury_one(store, nodes, data, analysis, alloc, *dead)?;
    }
    Ok(())
}
