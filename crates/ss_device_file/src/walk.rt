//! The places of items: their lines stand in preorder.

ghost use Rattle.std.specs.Prelude.{◌≡◌, ◌∷◌, ◌++◌, [], IfOk, IfErr, OnOk, true};
ghost use Rattle.std.specs.Bool.{OnTrue};
ghost use Rattle.ss_text.specs.Names.{is_id};
ghost use Rattle.ss_record.specs.Ids.{places};
ghost use Rattle.ss_device_file.specs.Places.{IsWhole, child_seats, last_id, root_seats, seats_behind};
ghost use Rattle.ss_device_file.specs.Walking.{comes_next, seats_on};
ghost use Rattle.ss_device_file.specs.Files.{IsFaultOfPlace};

use crate::faults::DeviceFault;
use crate::lines::ItemLine;
use indexmap::IndexSet;
use ss_seed::Seed;
use ss_text::Id;
use std::alloc::{AllocError, Global};

/// An id that is to come, and its parent's.
#[derive(Drop)]
pub(crate) struct Waiting {
    pub(crate) id: Id,
    pub(crate) parent: Id,
}

/// Puts an item's children on the stack of those that are to come, the first one on top.
fn push_children(
    alloc: Global,
    waiting: &mut Vec<Waiting>,
    line: &ItemLine,
) -> Result<(), AllocError>
    ensures { OnOk result (seats_on waiting.new.items ≡ child_seats line.now ++ seats_on waiting.old.items) }
{
    let children = line.children.as_slice();
    for count in 0..children.len() {
        waiting.push(Waiting {
            id: children[children.len() - 1 - count].copy(alloc)?,
            parent: line.item.id().copy(alloc)?,
        })?;
    }
    Ok(())
}

/// Whether an item is the one that comes next; if so its children come next.
fn step(
    alloc: Global,
    waiting: &mut Vec<Waiting>,
    met: &mut IndexSet<Id, Seed>,
    line: &ItemLine,
) -> Result<bool, AllocError>
    ensures right { IfOk result (λ right. right ≡ comes_next (seats_on waiting.old.items) met.old.keys line.now) }
    ensures seats { IfOk result (λ right. OnTrue right (seats_on waiting.new.items
        ≡ seats_behind (seats_on waiting.old.items) line.now)) }
    ensures met { IfOk result (λ right. OnTrue right (met.new.keys ≡ met.old.keys ++ line.now.item.id ∷ [])) }
{
    let Some(next) = waiting.pop() else {
        return Ok(false);
    };
    if next.id != *line.item.id() || next.parent != line.parent {
        return Ok(false);
    }
    if !met.insert(line.item.id().copy(alloc)?)? {
        return Ok(false);
    }
    push_children(alloc, waiting, line)?;
    Ok(true)
}

/// A root that is to come.
#[tactic(auto, unfolding(ss_record::specs::Ids::places))]
fn root(alloc: Global, name: &str) -> Result<Waiting, AllocError>
    requires { is_id name.now ≡ true }
    ensures { IfOk result (λ waiting. waiting ≡ record { id = name.now; parent = places }) }
{
    Ok(Waiting {
        id: id(alloc, name)?,
        parent: id(alloc, "places")?,
    })
}

/// The four roots on the stack, the first one on top.
#[tactic(auto, unfolding(ss_record::specs::Ids::roots))]
fn roots(alloc: Global) -> Result<Vec<Waiting>, AllocError>
    ensures { IfOk result (λ waiting. seats_on waiting.items ≡ root_seats) }
{
    let mut waiting = Vec::with_capacity(alloc, 4)?;
    waiting.push(root(alloc, "mobile")?)?;
    waiting.push(root(alloc, "unfiled")?)?;
    waiting.push(root(alloc, "toolbar")?)?;
    waiting.push(root(alloc, "menu")?)?;
    Ok(waiting)
}

/// The id of a text that has the form of one.
fn id(alloc: Global, text: &str) -> Result<Id, AllocError>
    requires { is_id text.now ≡ true }
    ensures { IfOk result (λ id. id ≡ text.now) }
{
    match Id::new(alloc, text.as_bytes())? {
        Some(id) => Ok(id),
        None => unreachable!(),
    }
}

/// The id of the last item; `menu` where there is none.
fn last_id(alloc: Global, items: &[ItemLine]) -> Result<Id, AllocError>
    ensures { IfOk result (λ id. id ≡ last_id items.now) }
{
    match items.last() {
        Some(line) => line.item.id().copy(alloc),
        None => id(alloc, "menu"),
    }
}

/// Tests that each item has its place, and that none is missing.
pub(crate) fn check_places(alloc: Global, items: &[ItemLine]) -> Result<(), DeviceFault>
    ensures whole { OnOk result (IsWhole items.now) }
    ensures wrong { IfErr result (λ fault. IsFaultOfPlace items.now fault) }
{
    let mut waiting = roots(alloc)?;
    let mut met = IndexSet::with_capacity_and_hasher(alloc, items.len(), Seed::random())?;
    for line in items {
        if !step(alloc, &mut waiting, &mut met, line)? {
            let id = line.item.id().copy(alloc)?;
            return Err(DeviceFault::BadTree { id });
        }
    }
    if !waiting.as_slice().is_empty() {
        let id = last_id(alloc, items)?;
        return Err(DeviceFault::BadTree { id });
    }
    Ok(())
}
