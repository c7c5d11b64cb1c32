//! The users of classes, and how they are made pending.
ghost use Rattle.std.specs.Prelude.{◌≡◌, ◌≤◌, ◌<◌, ◌∷◌, [], length, IfErr, OnOk};
ghost use Rattle.slotted_slots.specs.Error.{IsOutOfMemory};
ghost use Rattle.slotted_model.specs.Classes.{Canonical};
ghost use Rattle.slotted_classes.specs.Finding.{HasFinds};
ghost use Rattle.slotted_classes.specs.Kept.{nodes_of};
ghost use Rattle.slotted_data.specs.Users.{EntersClass, EntersUsers, WaitEach};

use crate::class_data::ClassData;
use slotted_classes::Store;
use slotted_hashcons::Hashcons;
use slotted_languages::Language;
use slotted_slots::Error;

// Makes a source pending, if an e-node is filed of it.
fn wait_if_filed<L: Language>(nodes: &mut Hashcons<L>, source: usize) -> Result<(), Error>
    ensures ok { OnOk result (WaitEach nodes.old nodes.new (source ∷ [])) }
    ensures err { IfErr result IsOutOfMemory }
{
    if nodes.node(source).is_none() {
        return Ok(());
    }
    nodes.wait(source)?;
    Ok(())
}

// Makes each of these sources pending, if an e-node is filed of it.
pub(crate) fn wait_each<L: Language>(nodes: &mut Hashcons<L>, sources: &[u32]) -> Result<(), Error>
    ensures ok { OnOk result (WaitEach nodes.old nodes.new sources.now) }
    ensures err { IfErr result IsOutOfMemory }
{
    for source in sources {
        wait_if_filed(nodes, *source as usize)?;
    }
    Ok(())
}

// Enters a class as a user of the classes that `find` maps its children to. The class is made pending if one of these
// is not older, since that one may have had no data when the class was made.
fn enter_class<L: Language, D: Drop>(
    store: &Store<L>,
    nodes: &mut Hashcons<L>,
    data: &mut ClassData<D>,
    class: usize,
) -> Result<(), Error>
    requires good { HasFinds store.now }
    requires canonical { Canonical (nodes_of store.now) }
    requires within { class < length store.now.classes }
    requires count { length «data».old.values ≡ length store.now.classes }
    ensures ok { OnOk result (EntersClass store.now class nodes.old nodes.new «data».old «data».new) }
    ensures err { IfErr result IsOutOfMemory }
{
    let Ok(source) = u32::try_from(class) else {
        return Err(Error::OutOfMemory);
    };
    let node = store.node_of(class);
    for k in 0..node.applied_id_count() {
        let found = store.find_class(node.applied_id(k).id.0);
        data.add_user(found, source)?;
        if found >= class {
            wait_if_filed(nodes, class)?;
        }
    }
    Ok(())
}

// Enters all classes as users of the classes that `find` maps their children to.
pub(crate) fn enter_users<L: Language, D: Drop>(
    store: &Store<L>,
    nodes: &mut Hashcons<L>,
    data: &mut ClassData<D>,
) -> Result<(), Error>
    requires good { HasFinds store.now }
    requires canonical { Canonical (nodes_of store.now) }
    requires count { length «data».old.values ≡ length store.now.classes }
    requires within { «data».old.entered ≤ length store.now.classes }
    ensures ok { OnOk result
        (EntersUsers store.now «data».old.entered (length store.now.classes) nodes.old nodes.new «data».old «data».new) }
    ensures entered { OnOk result («data».new.entered ≡ length store.now.classes) }
    ensures err { IfErr result IsOutOfMemory }
{
    for class in data.entered()..store.class_count() {
        enter_class(store, nodes, data, class)?;
    }
    data.set_entered(store.class_count());
    Ok(())
}
