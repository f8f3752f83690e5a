//! The changes of a rehearsal. Each gives what the clock reads next, in hundredths of a second.

ghost use Rattle.std.specs.Prelude.{◌≤◌, ◌+◌, List, IfOk, OnOk, codes};
ghost use Rattle.ss_world.specs.Happening.{Step};
ghost use Rattle.ss_rehearse.specs.Scripts.{additions, moves, renamings};
ghost use Rattle.ss_rehearse.specs.Plays.{PlaysChanges};
ghost use Rattle.ss_rehearse.specs.Syncing.{AreIdle};

use crate::bookmarks::{bookmark, bookmark_id, menu, new_title, root_of};
use crate::draws::drawn_after;
use crate::events::change;
use ss_world::{Edit, World};
use std::alloc::{AllocError, Global};

/// Device 0 gets so many bookmarks, drawn from a seed, at a clock that reads this first.
pub(crate) fn add_all(
    alloc: Global,
    world: &mut World,
    now: u64,
    items: u64,
    seed: u64,
) -> Result<u64, AllocError>
    requires few { items ≤ 15000 }
    requires early { now ≤ 1000000000 }
    requires idle { AreIdle world.old }
    ensures changed { IfOk result (λ next. (steps : List Step) × PlaysChanges 0 now world.old (additions items seed) steps
        world.new next) }
    ensures early { IfOk result (λ next. next ≤ now + 1500000) }
    ensures idle { OnOk result (AreIdle world.new) }
{
    let mut next = now;
    let mut drawn = seed;
    for at in 0..items {
        drawn = drawn_after(drawn);
        let parent = root_of(alloc, drawn)?;
        let item = bookmark(alloc, at + 1, drawn)?;
        change(alloc, world, 0, next, Edit::Add { parent, item })?;
        next += 100;
    }
    Ok(next)
}

/// Device 1 renames each third of so many bookmarks.
pub(crate) fn rename_some(
    alloc: Global,
    world: &mut World,
    now: u64,
    items: u64,
) -> Result<u64, AllocError>
    requires few { items ≤ 15000 }
    requires early { now ≤ 1000000000 }
    requires idle { AreIdle world.old }
    ensures changed { IfOk result (λ next. (steps : List Step) × PlaysChanges 1 now world.old (renamings items) steps
        world.new next) }
    ensures early { IfOk result (λ next. next ≤ now + 1500000) }
    ensures idle { OnOk result (AreIdle world.new) }
{
    let mut next = now;
    for at in 0..items {
        let number = at + 1;
        if number % 3 == 0 {
            let id = bookmark_id(alloc, number)?;
            let title = new_title(alloc, number)?;
            change(alloc, world, 1, next, Edit::Rename { id, title })?;
            next += 100;
        }
    }
    Ok(next)
}

/// Device 0 moves each second of so many bookmarks to the end of `menu`.
pub(crate) fn move_some(
    alloc: Global,
    world: &mut World,
    now: u64,
    items: u64,
) -> Result<u64, AllocError>
    requires few { items ≤ 15000 }
    requires early { now ≤ 1000000000 }
    requires idle { AreIdle world.old }
    ensures changed { IfOk result (λ next. (steps : List Step) × PlaysChanges 0 now world.old (moves items) steps world.new
        next) }
    ensures early { IfOk result (λ next. next ≤ now + 1500000) }
    ensures idle { OnOk result (AreIdle world.new) }
{
    let mut next = now;
    for at in 0..items {
        let number = at + 1;
        if number % 2 == 0 {
            let id = bookmark_id(alloc, number)?;
            let parent = menu(alloc)?;
            change(alloc, world, 0, next, Edit::Move { id, parent })?;
            next += 100;
        }
    }
    Ok(next)
}
