//! The events of a rehearsal. One that the world refuses leaves it, and want of memory alone is a fault.

ghost use Rattle.std.specs.Prelude.{OnOk};
ghost use Rattle.ss_rehearse.specs.Syncing.{HadMemory};
ghost use Rattle.ss_client.specs.declared.summaries.Fetch.TheVariants.{Newer};
ghost use Rattle.ss_world.specs.declared.events.Event.TheVariants as event;
ghost use Rattle.ss_world.specs.Happening.{Happens};

use ss_client::Fetch;
use ss_world::{Edit, Event, World, WorldFault};
use std::alloc::{AllocError, Global};

/// Whether an event is passed: it happened, or was refused, and memory wasn't wanting.
fn passed(done: Result<(), WorldFault>) -> Result<(), AllocError>
    ensures { OnOk result (HadMemory done) }
{
    match done {
        Ok(()) => Ok(()),
        Err(WorldFault::Memory) => Err(AllocError),
        Err(_) => Ok(()),
    }
}

/// A device begins a sync, for which only what is newer is fetched.
pub(crate) fn start(alloc: Global, world: &mut World, device: u32) -> Result<(), AllocError>
    ensures { OnOk result (Happens world.old (event.Start device Newer) world.new) }
{
    let fetch = Fetch::Newer;
    passed(world.step(alloc, &Event::Start { device, fetch }))
}

/// A device's request comes to the account, and the reply to the device.
pub(crate) fn deliver(
    alloc: Global,
    world: &mut World,
    device: u32,
    now: u64,
) -> Result<(), AllocError>
    ensures { OnOk result (Happens world.old (event.Deliver device now) world.new) }
{
    passed(world.step(alloc, &Event::Deliver { device, now }))
}

/// A user changes a device's bookmarks.
pub(crate) fn change(
    alloc: Global,
    world: &mut World,
    device: u32,
    now: u64,
    edit: Edit,
) -> Result<(), AllocError>
    ensures { OnOk result (Happens world.old (event.Change device now edit) world.new) }
{
    passed(world.step(alloc, &Event::Change { device, now, edit }))
}
