//! The opening of a rehearsal.

ghost use Rattle.std.specs.Prelude.{IfOk};
ghost use Rattle.ss_tree.specs.Entries.{IsTree};
ghost use Rattle.ss_device.specs.Device.{IsNew};
ghost use Rattle.ss_world.specs.Reaching.{IsReachedWorld};
ghost use Rattle.ss_rehearse.specs.Rehearsals.{IsFresh, all_trusted};
ghost use Rattle.ss_rehearse.specs.Syncing.{AreIdle};

use ss_account::OpenFault;
use ss_bso::Kept;
use ss_device::Device;
use ss_world::World;
use std::alloc::{AllocError, Global};

/// A device that was never synced. Its tree is walked: the entries are a tree, as those of every `Tree` are.
fn new_device(alloc: Global) -> Result<Device, AllocError>
    ensures new { IfOk result IsNew }
    ensures is_tree { IfOk result (λ device. IsTree device.tree) }
{
    let device = Device::new(alloc)?;
    let _nodes = device.tree().walk(alloc)?;
    Ok(device)
}

/// Two devices that were never synced, and an account that nothing was asked of.
pub(crate) fn open(alloc: Global) -> Result<World, AllocError>
    ensures fresh { IfOk result IsFresh }
    ensures reached { IfOk result (λ world. IsReachedWorld all_trusted world) }
    ensures idle { IfOk result AreIdle }
{
    let first = new_device(alloc)?;
    let second = new_device(alloc)?;
    let devices = Vec::from_array(alloc, [first, second])?;
    match World::new(alloc, devices, Kept::fresh(alloc)) {
        Ok(world) => Ok(world),
        Err(OpenFault::Memory) => Err(AllocError),
        Err(_) => unreachable!(),
    }
}
