//! A rehearsal, and its summary.

ghost use Rattle.std.specs.Prelude.{◌≡◌, ◌≤◌, ◌<◌, ◌+◌, [], ◌∷◌, IfOk, OnOk};
ghost use Rattle.ss_rehearse.specs.Summaries.{summary_of, summary_text};
ghost use Rattle.ss_rehearse.specs.Scripts.{filling, parting, meeting};
ghost use Rattle.ss_rehearse.specs.Syncing.{AreIdle, LeadsByActs};
ghost use Rattle.ss_rehearse.specs.Rehearsals.{IsSummary, tree_at};

use crate::changing::{add_all, move_some, rename_some};
use crate::opening::open;
use crate::summaries::{summary_of, summary_text};
use crate::syncing::sync;
use ss_tree::Tree;
use ss_world::World;
use std::alloc::{AllocError, Global};

/// The tree of a device.
fn tree_of(world: &World, device: u32) -> &Tree
    requires there { device < 2 }
    requires idle { AreIdle world.now }
    ensures { result.now ≡ tree_at device world.now }
{
    match world.device(device) {
        Some(device) => device.tree(),
        None => unreachable!(),
    }
}

/// What is told of the devices' trees, and of the POSTs of each sync.
fn told_summary(alloc: Global, world: &World, posts: &[u64]) -> Result<Vec<u8>, AllocError>
    requires idle { AreIdle world.now }
    ensures { IfOk result (λ text. text.items ≡ summary_text posts.now
        (summary_of (tree_at 0 world.now) (tree_at 1 world.now))) }
{
    let summary = summary_of(alloc, tree_of(world, 0), tree_of(world, 1))?;
    summary_text(alloc, posts, &summary)
}

/// What came of the first two syncs.
#[derive(Clone, Copy)]
struct Filled {
    /// How many POSTs each sent.
    first: u64,
    second: u64,
    /// What the clock reads next, in hundredths of a second.
    next: u64,
}

/// Device 0 gets all bookmarks, and both devices sync.
fn fill(alloc: Global, world: &mut World, items: u64, seed: u64) -> Result<Filled, AllocError>
    requires few { items ≤ 15000 }
    requires idle { AreIdle world.old }
    ensures played { IfOk result (λ filled. LeadsByActs world.old 100 (filling items seed) (filled.first ∷ filled.second
        ∷ []) world.new filled.next) }
    ensures early { IfOk result (λ filled. filled.next ≤ 30000000) }
    ensures idle { OnOk result (AreIdle world.new) }
{
    let added = add_all(alloc, world, 100, items, seed)?;
    let first = sync(alloc, world, 0, added)?;
    let second = sync(alloc, world, 1, first.next)?;
    Ok(Filled {
        first: first.posts,
        second: second.posts,
        next: second.next,
    })
}

/// Device 1 renames some bookmarks, and device 0 moves some. It answers what the clock reads next.
fn part(alloc: Global, world: &mut World, now: u64, items: u64) -> Result<u64, AllocError>
    requires few { items ≤ 15000 }
    requires early { now ≤ 30000000 }
    requires idle { AreIdle world.old }
    ensures played { IfOk result (λ next. LeadsByActs world.old now (parting items) [] world.new next) }
    ensures early { IfOk result (λ next. next ≤ 40000000) }
    ensures idle { OnOk result (AreIdle world.new) }
{
    let renamed = rename_some(alloc, world, now, items)?;
    move_some(alloc, world, renamed, items)
}

/// How many POSTs the last three syncs sent.
#[derive(Clone, Copy)]
struct Met {
    first: u64,
    second: u64,
    third: u64,
    /// What the clock reads next, in hundredths of a second.
    next: u64,
}

/// Device 0, device 1 and again device 0 sync.
fn meet(alloc: Global, world: &mut World, now: u64) -> Result<Met, AllocError>
    requires early { now ≤ 40000000 }
    requires idle { AreIdle world.old }
    ensures played { IfOk result (λ met. LeadsByActs world.old now meeting (met.first ∷ met.second ∷ met.third
        ∷ []) world.new met.next) }
    ensures idle { OnOk result (AreIdle world.new) }
{
    let first = sync(alloc, world, 0, now)?;
    let second = sync(alloc, world, 1, first.next)?;
    let third = sync(alloc, world, 0, second.next)?;
    Ok(Met {
        first: first.posts,
        second: second.posts,
        third: third.posts,
        next: third.next,
    })
}

/// The lines of the summary of a rehearsal with so many bookmarks, at most 15,000, which are drawn from a seed. Over a
/// new account the first of two new devices gets the bookmarks, and both sync; the second renames each third of them,
/// and the first moves each second one to the end of `menu`; and the first, the second and again the first sync. Each
/// sync fetches what is newer alone. The clock reads 100 hundredths of a second at the first change, and 100 more at
/// each further change and request.
pub fn rehearse(alloc: Global, items: u64, seed: u64) -> Result<Vec<u8>, AllocError>
    requires few { items ≤ 15000 }
    ensures summary { IfOk result (λ text. IsSummary items seed text.items) }
{
    let mut world = open(alloc)?;
    let filled = fill(alloc, &mut world, items, seed)?;
    let parted = part(alloc, &mut world, filled.next, items)?;
    let met = meet(alloc, &mut world, parted)?;
    let posts = [
        filled.first,
        filled.second,
        met.first,
        met.second,
        met.third,
    ];
    told_summary(alloc, &world, &posts)
}
