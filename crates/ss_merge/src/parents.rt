//! Parents of merged items.

ghost use Rattle.std.specs.Prelude.{◌≡◌, ◌||◌, Some, None, is_some, option_map, unwrap_or, length, true, IfOk, OnOk};
ghost use Rattle.std.specs.Prelude.{if◌then◌else◌, bytes_eq};
ghost use Rattle.std.specs.HashMap.{get};
ghost use Rattle.ss_record.specs.Ids.{has};
ghost use Rattle.ss_dupe.specs.declared.sides.Side.TheVariants.{Local, Remote};
ghost use Rattle.ss_dupe.specs.Looks.{Id as Text, is_in, is_root};
ghost use Rattle.ss_dupe.specs.Plains.{view};
ghost use Rattle.ss_merge.specs.Survivors.{same_parent, side_of};
ghost use Rattle.ss_merge.specs.Parents.{chosen, final};
ghost use Rattle.ss_merge.specs.Claims.{AreMerging};
ghost use Rattle.ss_merge.specs.Links.{Holds, or_else};
ghost use Rattle.ss_merge.specs.Folders.{AreFolders, final_by, folder_on};

use crate::marks::nearest_of;
use crate::parts::Part;
use crate::survivors::side_of;
use crate::ways::Way;
use ss_dupe::{Plains, Side};
use ss_record::is_root;
use ss_seed::Seed;
use ss_text::Id;
use std::alloc::{AllocError, Global};
use std::collections::HashMap;

/// The nearest ancestor of each id that survives as a folder, on each side; None where there is none.
#[derive(Drop)]
struct Folders {
    local: HashMap<Id, Option<Id>, Seed>,
    remote: HashMap<Id, Option<Id>, Seed>,
}

/// What an id is marked with.
fn found<'m>(marks: &'m HashMap<Id, Option<Id>, Seed>, id: &Id) -> Option<&'m Id>
    ensures { option_map (λ p. p.now) result ≡ unwrap_or (get bytes_eq marks.now id.now) None }
{
    match marks.get(id) {
        Some(goal) => goal.as_ref(),
        None => None,
    }
}

/// The nearest folder of an id on a side.
fn folder_on<'m>(folders: &'m Folders, side: Side, id: &Id) -> Option<&'m Id>
    ensures { option_map (λ p. p.now) result ≡ folder_on folders.now side id.now }
{
    match side {
        Side::Local => found(&folders.local, id),
        Side::Remote => found(&folders.remote, id),
    }
}

/// The nearest folders of some ids, on both sides.
fn folders_of(alloc: Global, plains: &Plains, ids: &[Id]) -> Result<Folders, AllocError>
    requires { AreMerging (view plains.now) ids.now }
    ensures { IfOk result (λ folders. AreFolders (view plains.now) ids.now folders) }
{
    let local = nearest_of(alloc, &Way::Up(plains, Side::Local), ids)?;
    let remote = nearest_of(alloc, &Way::Up(plains, Side::Remote), ids)?;
    Ok(Folders { local, remote })
}

/// The nearest folder on the side whose parent is taken.
fn chosen<'m>(plains: &Plains, folders: &'m Folders, id: &Id) -> Option<&'m Id>
    ensures { option_map (λ p. p.now) result ≡ folder_on folders.now (side_of (view plains.now) same_parent id.now)
        id.now }
{
    folder_on(folders, side_of(plains, Part::Parent, id), id)
}

/// The nearest folder in the remote tree, or in the local one of an item that isn't remote.
fn fallback<'m>(plains: &Plains, folders: &'m Folders, id: &Id) -> Option<&'m Id>
    ensures { option_map (λ p. p.now) result ≡ folder_on folders.now (if is_in (view plains.now).remote id.now then
        Remote else Local) id.now }
{
    let side = if plains.remote.has(id) {
        Side::Remote
    } else {
        Side::Local
    };
    folder_on(folders, side, id)
}

/// Gives an id its parent in a map, where there is one.
fn link(
    alloc: Global,
    found: &mut HashMap<Id, Id, Seed>,
    id: &Id,
    parent: Option<&Id>,
) -> Result<(), AllocError>
    ensures { OnOk result ((x : Text) → get bytes_eq found.new x ≡ (if bytes_eq id.now x then or_else
        (option_map (λ p. p.now) parent.entry) (get bytes_eq found.old x) else get bytes_eq found.old x)) }
{
    if let Some(parent) = parent {
        found.insert(id.copy(alloc)?, parent.copy(alloc)?)?;
    }
    Ok(())
}

/// The chosen parents of some ids.
fn chosen_of(
    alloc: Global,
    plains: &Plains,
    folders: &Folders,
    ids: &[Id],
) -> Result<HashMap<Id, Id, Seed>, AllocError>
    requires { AreFolders (view plains.now) ids.now folders.now }
    ensures { IfOk result (λ found. Holds (get bytes_eq found) (chosen (view plains.now) (length ids.now)) ids.now) }
{
    let mut found = HashMap::with_hasher(alloc, plains.seed());
    for id in ids {
        link(alloc, &mut found, id, chosen(plains, folders, id))?;
    }
    Ok(found)
}

/// The chosen parent of an id where it is a root or has one ahead, else the parent to fall back to.
#[tactic(auto, unfolding(ss_dupe::specs::Looks::is_root))]
fn final_of<'m>(
    plains: &Plains,
    folders: &'m Folders,
    chosen: &'m HashMap<Id, Id, Seed>,
    roots: &HashMap<Id, Option<Id>, Seed>,
    id: &Id,
) -> Option<&'m Id>
    ensures { option_map (λ p. p.now) result ≡ final_by (view plains.now) folders.now (get bytes_eq chosen.now)
        (is_root id.now || is_some (unwrap_or (get bytes_eq roots.now id.now) None)) id.now }
{
    if is_root(id) || found(roots, id).is_some() {
        chosen.get(id)
    } else {
        fallback(plains, folders, id)
    }
}

/// The final parents of all ids.
pub(crate) fn finals_of(
    alloc: Global,
    plains: &Plains,
    ids: &[Id],
) -> Result<HashMap<Id, Id, Seed>, AllocError>
    requires { AreMerging (view plains.now) ids.now }
    ensures { IfOk result (λ found. Holds (get bytes_eq found) (final (view plains.now) (length ids.now)) ids.now) }
{
    let folders = folders_of(alloc, plains, ids)?;
    let chosen = chosen_of(alloc, plains, &folders, ids)?;
    let roots = nearest_of(alloc, &Way::Chosen(&chosen), ids)?;
    let mut found = HashMap::with_hasher(alloc, plains.seed());
    for id in ids {
        let parent = final_of(plains, &folders, &chosen, &roots, id);
        link(alloc, &mut found, id, parent)?;
    }
    Ok(found)
}
