//! The nearest goals of ids on a way. What is passed on the way is marked, so each id is passed once.

ghost use Rattle.std.specs.Prelude.{◌≡◌, ◌∷◌, [], List, Some, true, is_some, length, IfOk, OnOk, bytes_eq};
ghost use Rattle.std.specs.HashMap.{get};
ghost use Rattle.ss_record.specs.Ids.{has};
ghost use Rattle.ss_dupe.specs.Looks.{Id as Text};
ghost use Rattle.ss_merge.specs.Ways.{AreMarks, HasShape, StaysIn, MarksPath, WalksPath, nearest_on};

use crate::ways::{Way, is_goal, next, seed_of};
use ss_seed::Seed;
use ss_text::Id;
use std::alloc::{AllocError, Global};
use std::collections::HashMap;

fn copy_some(alloc: Global, id: &Option<Id>) -> Result<Option<Id>, AllocError>
    ensures { IfOk result (λ copied. copied ≡ id.now) }
{
    match id {
        Some(id) => Ok(Some(id.copy(alloc)?)),
        None => Ok(None),
    }
}

/// Walks on from an id to the first marked one or to a goal, marks those on the way as without a goal, and gives the
/// nearest goal of all of them. A circle is noticed by its first mark.
fn walk(
    alloc: Global,
    way: &Way,
    ids: &[Id],
    id: &Id,
    marks: &mut HashMap<Id, Option<Id>, Seed>,
    path: &mut Vec<Id>,
) -> Result<Option<Id>, AllocError>
    requires shape { HasShape way.now }
    requires inside { StaysIn way.now ids.now }
    requires one { has id.now ids.now ≡ true }
    requires marks { AreMarks way.now ids.now (get bytes_eq marks.old) }
    requires empty { path.old.items ≡ [] }
    ensures { IfOk result (λ goal. WalksPath way.now ids.now (get bytes_eq marks.old) (get bytes_eq marks.new)
        path.new.items id.now goal) }
{
    let mut at = id;
    for step in 0..ids.len() {
        if let Some(known) = marks.get(at) {
            return Ok(copy_some(alloc, known)?);
        }
        marks.insert(at.copy(alloc)?, None)?;
        path.push(at.copy(alloc)?)?;
        let Some(reached) = next(way, at) else {
            return Ok(None);
        };
        if is_goal(way, reached) {
            return Ok(Some(reached.copy(alloc)?));
        }
        at = reached;
    }
    Ok(None)
}

/// Marks the ids of a path with a goal.
fn mark_path(
    alloc: Global,
    path: &[Id],
    goal: &Id,
    marks: &mut HashMap<Id, Option<Id>, Seed>,
) -> Result<(), AllocError>
    ensures { OnOk result (MarksPath (get bytes_eq marks.old) (get bytes_eq marks.new) path.now (Some goal.now)) }
{
    for passed in path {
        marks.insert(passed.copy(alloc)?, Some(goal.copy(alloc)?))?;
    }
    Ok(())
}

/// Marks an id, and those on the way to its nearest goal, with that goal.
fn mark(
    alloc: Global,
    way: &Way,
    ids: &[Id],
    id: &Id,
    marks: &mut HashMap<Id, Option<Id>, Seed>,
) -> Result<(), AllocError>
    requires shape { HasShape way.now }
    requires inside { StaysIn way.now ids.now }
    requires one { has id.now ids.now ≡ true }
    requires marks { AreMarks way.now ids.now (get bytes_eq marks.old) }
    ensures marks { OnOk result (AreMarks way.now ids.now (get bytes_eq marks.new)) }
    ensures one { OnOk result (is_some (get bytes_eq marks.new id.now) ≡ true) }
    ensures kept { OnOk result ((x : Text) → is_some (get bytes_eq marks.old x) ≡ true
        → is_some (get bytes_eq marks.new x) ≡ true) }
{
    let mut path = Vec::new(alloc);
    let near = walk(alloc, way, ids, id, marks, &mut path)?;
    match near {
        Some(goal) => mark_path(alloc, &path, &goal, marks),
        None => Ok(()),
    }
}

/// The nearest goal of each of some ids, which a way doesn't leave; None where it has none.
pub(crate) fn nearest_of(
    alloc: Global,
    way: &Way,
    ids: &[Id],
) -> Result<HashMap<Id, Option<Id>, Seed>, AllocError>
    requires shape { HasShape way.now }
    requires inside { StaysIn way.now ids.now }
    ensures { IfOk result (λ marks. (x : Text) → has x ids.now ≡ true → get bytes_eq marks x
        ≡ Some (nearest_on way.now (length ids.now) x)) }
{
    let mut marks = HashMap::with_hasher(alloc, seed_of(way));
    for id in ids {
        mark(alloc, way, ids, id, &mut marks)?;
    }
    Ok(marks)
}
