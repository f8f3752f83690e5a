//! Sets of collections' names.

ghost use Rattle.std.specs.Prelude.{◌≡◌, ◌||◌, ℕ, List, OnOk};
ghost use Rattle.std.specs.List.{list_any};
ghost use Rattle.ss_bso.specs.Changes.{drops};
ghost use Rattle.ss_keeper.specs.Together.{is_named};

use ss_bso::CollectionChange;
use ss_text::Name;
use std::alloc::AllocError;
use std::collections::HashSet;

pub(crate) fn has_name(names: &HashSet<&Name>, name: &Name) -> bool
    ensures { result ≡ is_named names.now name.now }
{
    names.contains(&name)
}

/// Notes the collection that a change drops.
fn note_drop<'a>(
    names: &mut HashSet<&'a Name>,
    change: &'a CollectionChange,
) -> Result<(), AllocError>
    ensures { OnOk result ((name : List ℕ) → is_named names.new name ≡
        (drops name change.now || is_named names.old name)) }
{
    if let CollectionChange::Drop { name } = change {
        let _added = names.insert(name)?;
    }
    Ok(())
}

/// Notes the collections that changes drop.
pub(crate) fn note_drops<'a>(
    names: &mut HashSet<&'a Name>,
    changes: &'a [CollectionChange],
) -> Result<(), AllocError>
    ensures { OnOk result ((name : List ℕ) → is_named names.new name ≡
        (list_any (drops name) changes.now || is_named names.old name)) }
{
    for change in changes {
        note_drop(names, change)?;
    }
    Ok(())
}
