//! Changes that are ready to be applied: all their memory is taken.
ghost use Rattle.std.specs.Prelude.{◌≡◌, ◌++◌, IfOk, OnOk};
ghost use Rattle.std.specs.Option.{option_to_list};
ghost use Rattle.ss_index.specs.Shelved.{dropped_name, dropped_names};

use ss_bso::{CollectionChange, Row};
use ss_text::{Id, Name, Stamp};
use std::alloc::{AllocError, Global};

/// What becomes of a row, with the memory for it.
#[derive(Drop)]
pub(crate) enum ReadyRow {
    /// It is put in its place; the key is a copy of its id.
    Put { key: Id, row: Row },

    /// It is there no more.
    Drop { collection: Name, id: Id },
}

/// Changes of rows that `Shelf::prepare` has made ready.
#[derive(Drop)]
pub struct Ready {
    pub(crate) moment: Stamp,
    pub(crate) dropped: Vec<Name>,
    pub(crate) rows: Vec<ReadyRow>,
}

/// Notes the name of a collection that a change drops.
fn note_dropped(
    alloc: Global,
    names: &mut Vec<Name>,
    change: &CollectionChange,
) -> Result<(), AllocError>
    ensures { OnOk result (names.new.items ≡ names.old.items ++ option_to_list (dropped_name change.now)) }
{
    match change {
        CollectionChange::Drop { name } => {
            names.push(name.copy(alloc)?)?;
            Ok(())
        }
        CollectionChange::Set { .. } => Ok(()),
    }
}

/// The names of the collections that changes drop.
pub(crate) fn dropped_names(
    alloc: Global,
    changes: &[CollectionChange],
) -> Result<Vec<Name>, AllocError>
    ensures { IfOk result (λ names. names.items ≡ dropped_names changes.now) }
{
    let mut names = Vec::new(alloc);
    for change in changes {
        note_dropped(alloc, &mut names, change)?;
    }
    Ok(names)
}
