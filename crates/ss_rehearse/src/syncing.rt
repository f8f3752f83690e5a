//! The syncs of a rehearsal.

ghost use Rattle.std.specs.Prelude.{◌≡◌, ◌≤◌, ◌+◌, List, IfOk, OnOk, option_and_then, slice_get};
ghost use Rattle.ss_world.specs.Happening.{Step};
ghost use Rattle.ss_rehearse.specs.Plays.{PlaysSync, is_post};
ghost use Rattle.ss_rehearse.specs.Syncing.{AreIdle, IsAsking, IsUnderWay, post_at};

use crate::events::{deliver, start};
use ss_hearing::Awaited;
use ss_world::{Seat, World};
use std::alloc::{AllocError, Global};

/// A sync that came to its end.
#[derive(Clone, Copy)]
pub(crate) struct Synced {
    /// How many POSTs were sent.
    pub(crate) posts: u64,
    /// What the clock reads next, in hundredths of a second.
    pub(crate) next: u64,
}

/// Whether the reply to a POST is awaited.
fn is_post(awaited: Awaited) -> bool
    ensures { result ≡ is_post awaited }
{
    match awaited {
        Awaited::Staging | Awaited::Writing => true,
        Awaited::Configuration | Awaited::FirstPage | Awaited::LaterPage | Awaited::AllIds => false,
    }
}

/// Whether the request of a device that is under way is a POST; None where none is.
fn under_way(world: &World, device: u32) -> Option<bool>
    ensures { result ≡ option_and_then post_at (slice_get world.now.seats device) }
{
    match world.seats().get(device as usize) {
        Some(Seat::Syncs(machine)) => Some(is_post(machine.awaits())),
        Some(Seat::Idle(_)) | None => None,
    }
}

/// The requests of a device come to the account until it has none under way.
fn deliver_all(
    alloc: Global,
    world: &mut World,
    device: u32,
    now: u64,
) -> Result<Synced, AllocError>
    requires early { now ≤ 1100000000 }
    requires under_way { IsUnderWay device world.old }
    ensures asking { IfOk result (λ synced. IsAsking device now world.old synced.posts world.new synced.next) }
    ensures idle { OnOk result (AreIdle world.new) }
{
    let mut posts = 0;
    let mut next = now;
    while let Some(is_post) = under_way(world, device) {
        deliver(alloc, world, device, next)?;
        next += 100;
        if is_post {
            posts += 1;
        }
    }
    Ok(Synced { posts, next })
}

/// A device syncs, at a clock that reads this first.
pub(crate) fn sync(
    alloc: Global,
    world: &mut World,
    device: u32,
    now: u64,
) -> Result<Synced, AllocError>
    requires early { now ≤ 1100000000 }
    requires idle { AreIdle world.old }
    ensures synced { IfOk result (λ synced. (steps : List Step) × PlaysSync device now world.old steps synced.posts
        world.new synced.next) }
    ensures early { IfOk result (λ synced. synced.next ≤ now + 10502500) }
    ensures idle { OnOk result (AreIdle world.new) }
{
    start(alloc, world, device)?;
    deliver_all(alloc, world, device, now)
}
