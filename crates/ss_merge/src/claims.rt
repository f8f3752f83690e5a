//! The merged items, each with the parent that it gets and the children that it lists.

ghost use Rattle.std.specs.Prelude.{◌≡◌, ◌++◌, true, None, map, filter, IfOk, OnOk, if◌then◌else◌, bytes_eq};
ghost use Rattle.std.specs.HashMap.{get};
ghost use Rattle.ss_dupe.specs.Looks.{children_of, is_root};
ghost use Rattle.ss_dupe.specs.Plains.{view};
ghost use Rattle.ss_dupe.specs.Shapes.{HaveShapes};
ghost use Rattle.ss_dupe.specs.Sides.{tree_of};
ghost use Rattle.ss_merge.specs.Survivors.{content_of, survives};
ghost use Rattle.ss_merge.specs.Merged.{merged_children};
ghost use Rattle.ss_merge.specs.Links.{claim_by, is_under};

use crate::parts::Part;
use crate::survivors::{content_of, side_of, survives};
use ss_build::Claim;
use ss_dupe::{Plains, Side};
use ss_record::{Item, ItemFault, Words, is_root};
use ss_seed::Seed;
use ss_text::{Id, Stamp, Word};
use std::alloc::{AllocError, Global};
use std::collections::HashMap;

/// Whether an item survives, is no root, and has this parent.
#[tactic(auto, unfolding(crate::specs::Links::is_under, ss_dupe::specs::Looks::is_root))]
fn is_under(plains: &Plains, finals: &HashMap<Id, Id, Seed>, parent: &Id, id: &Id) -> bool
    ensures { result ≡ is_under (view plains.now) (get bytes_eq finals.now) parent.now id.now }
{
    if !survives(plains, id) || is_root(id) {
        return false;
    }
    match finals.get(id) {
        Some(found) => parent == found,
        None => false,
    }
}

fn word_of(alloc: Global, id: &Id) -> Result<Word, AllocError>
    ensures { IfOk result (λ word. word ≡ id.now) }
{
    Ok(Word::new(String::from_str(alloc, id.as_str())?))
}

/// Appends those of a list that have this parent.
fn push_children(
    alloc: Global,
    plains: &Plains,
    finals: &HashMap<Id, Id, Seed>,
    parent: &Id,
    from: &[Id],
    children: &mut Vec<Word>,
) -> Result<(), AllocError>
    ensures { OnOk result (children.new.items ≡ children.old.items ++ filter
        (is_under (view plains.now) (get bytes_eq finals.now) parent.now) from.now) }
{
    for id in from {
        if is_under(plains, finals, parent, id) {
            children.push(word_of(alloc, id)?)?;
        }
    }
    Ok(())
}

/// The children of an item in a side's tree.
#[tactic(auto, unfolding(ss_dupe::specs::Looks::at))]
fn children_on<'p>(plains: &'p Plains<'_>, side: Side, id: &Id) -> &'p [Id]
    ensures { result.now ≡ children_of (tree_of (view plains.now) side) id.now }
{
    match plains.of(side).get(id) {
        Some(seat) => seat.children.as_slice(),
        None => &[],
    }
}

/// The children of an item on the side whose list is taken, then those on the other side, as far as they have this
/// parent.
#[tactic(auto, unfolding(crate::specs::Merged::merged_children))]
fn children_of(
    alloc: Global,
    plains: &Plains,
    finals: &HashMap<Id, Id, Seed>,
    id: &Id,
) -> Result<Words, AllocError>
    ensures { IfOk result (λ children. children ≡ filter (is_under (view plains.now) (get bytes_eq finals.now) id.now)
        (merged_children (view plains.now) id.now)) }
{
    let side = side_of(plains, Part::Children, id);
    let other = children_on(plains, side.other(), id);
    let mut children = Vec::new(alloc);
    push_children(
        alloc,
        plains,
        finals,
        id,
        children_on(plains, side, id),
        &mut children,
    )?;
    push_children(alloc, plains, finals, id, other, &mut children)?;
    Ok(Words::new(children))
}

/// The item with the taken kind and content.
fn item_of(alloc: Global, plains: &Plains, id: &Id) -> Result<Item, AllocError>
    requires shaped { HaveShapes (view plains.now) }
    requires survives { survives (view plains.now) id.now ≡ true }
    ensures { IfOk result (λ item. item ≡ record {
      id = id.now;
      kind = (content_of (view plains.now) id.now).kind;
      content = (content_of (view plains.now) id.now).content;
    }) }
{
    let seat = content_of(plains, id);
    let content = seat.item.content().copy(alloc)?;
    match Item::new(alloc, id.copy(alloc)?, seat.item.kind(), content) {
        Ok(item) => Ok(item),
        Err(ItemFault::Memory) => Err(AllocError),
        Err(ItemFault::Unfit) => unreachable!(),
    }
}

/// The parent that an item claims; none of a root.
#[tactic(auto, unfolding(ss_dupe::specs::Looks::is_root))]
fn parentid_of(
    alloc: Global,
    finals: &HashMap<Id, Id, Seed>,
    id: &Id,
) -> Result<Option<Word>, AllocError>
    ensures { IfOk result (λ parent. parent ≡ (if is_root id.now then None else get bytes_eq finals.now id.now)) }
{
    if is_root(id) {
        return Ok(None);
    }
    match finals.get(id) {
        Some(parent) => Ok(Some(word_of(alloc, parent)?)),
        None => Ok(None),
    }
}

/// An item with its parent and children.
#[tactic(auto, unfolding(crate::specs::Links::claim_by))]
fn claim_of(
    alloc: Global,
    plains: &Plains,
    finals: &HashMap<Id, Id, Seed>,
    id: &Id,
) -> Result<Claim, AllocError>
    requires shaped { HaveShapes (view plains.now) }
    requires survives { survives (view plains.now) id.now ≡ true }
    ensures { IfOk result (λ claim. claim ≡ claim_by (view plains.now) (get bytes_eq finals.now) id.now) }
{
    Ok(Claim {
        item: item_of(alloc, plains, id)?,
        parentid: parentid_of(alloc, finals, id)?,
        children: children_of(alloc, plains, finals, id)?,
        time: Stamp::clamp(0),
    })
}

/// The survivors with their parents and children.
pub(crate) fn claims_of(
    alloc: Global,
    plains: &Plains,
    finals: &HashMap<Id, Id, Seed>,
    ids: &[Id],
) -> Result<Vec<Claim>, AllocError>
    requires { HaveShapes (view plains.now) }
    ensures { IfOk result (λ claims. claims.items ≡ map (claim_by (view plains.now) (get bytes_eq finals.now))
        (filter (survives (view plains.now)) ids.now)) }
{
    let mut claims = Vec::new(alloc);
    for id in ids {
        if survives(plains, id) {
            claims.push(claim_of(alloc, plains, finals, id)?)?;
        }
    }
    Ok(claims)
}
