//! What an edit does to a device.

ghost use Rattle.std.specs.Prelude.{◌≡◌, ◌⊎◌, Some, None, true, IfOk, IfErr, OnOk, MatchResult};
ghost use Rattle.ss_tree.specs.Entries.{tree as tree_of};
ghost use Rattle.ss_device.specs.declared.faults.EditFault.TheVariants.{Memory};
ghost use Rattle.ss_run_edit.specs.Changes.{MakesChange, IsNoChange, change_of, fault_in, fits};

use crate::endings::Ending;
use crate::items::{new_bookmark, new_folder, new_separator};
use ss_device::{Device, EditFault};
use ss_record::Item;
use ss_text::{Id, Word};
use ss_words::Action;
use std::alloc::Global;

/// What an edit does to a device that is there.
#[derive(Drop, Debug)]
pub enum Change {
    /// Puts an item last under a folder.
    Add { parent: Id, item: Item },

    /// Gives an item another title.
    Rename { id: Id, title: Word },

    /// Puts an item, with all below it, last under another folder.
    Move { id: Id, parent: Id },

    /// Takes an item with all below it away.
    Delete { id: Id },
}

/// What an action does to a device that is there; None where it makes a new one.
pub(crate) fn change_of(alloc: Global, action: Action) -> Result<Option<Change>, Ending>
    ensures ok { IfOk result (λ change. change ≡ change_of action) }
    ensures fit { OnOk result (fits (change_of action) ≡ true) }
    ensures refused { IfErr result (λ ending. IsNoChange (change_of action) ending) }
{
    Ok(Some(match action {
        Action::New => return Ok(None),
        Action::Bookmark {
            parent,
            id,
            title,
            uri,
        } => Change::Add {
            parent,
            item: new_bookmark(alloc, id, title.as_str(), uri.as_str())?,
        },
        Action::Folder { parent, id, title } => Change::Add {
            parent,
            item: new_folder(alloc, id, title.as_str())?,
        },
        Action::Separator { parent, id } => Change::Add {
            parent,
            item: new_separator(alloc, id)?,
        },
        Action::Rename { id, title } => Change::Rename { id, title },
        Action::Move { id, parent } => Change::Move { id, parent },
        Action::Delete { id } => Change::Delete { id },
    }))
}

/// Changes a device at this reading of the clock, in hundredths of a second.
pub(crate) fn apply(
    alloc: Global,
    now: u64,
    change: Change,
    device: &mut Device,
) -> Result<(), EditFault>
    ensures refused { MatchResult result (λ _. fault_in change (tree_of device.old.tree) ≡ None) (λ e. (e ≡ Memory)
        ⊎ (fault_in change (tree_of device.old.tree) ≡ Some e)) }
    ensures changed { OnOk result (MakesChange now change device.old device.new) }
{
    match change {
        Change::Add { parent, item } => device.add(alloc, now, &parent, item),
        Change::Rename { id, title } => device.rename(alloc, now, &id, title.as_str()),
        Change::Move { id, parent } => device.move_to(alloc, now, &id, &parent),
        Change::Delete { id } => device.delete(alloc, now, &id),
    }
}
