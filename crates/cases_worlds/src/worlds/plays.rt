//! An account and its devices, to which events happen: in a world, or over bytes.

use crate::worlds::wired::Wired;
use anyhow::bail;
use ss_bso::{Kept, Plain};
use ss_device::Device;
use ss_route::Manner;
use ss_world::{Event, Seat, World, WorldFault};
use std::alloc::{AllocError, Global};

/// How devices and their account come together.
#[derive(Clone, Copy)]
pub enum Way {
    /// In a world.
    World,
    /// By requests and responses in bytes; the server reads conditions in this manner.
    Bytes(Manner),
}

/// An account and its devices.
#[derive(Drop)]
pub enum Play {
    World(World),
    Bytes(Wired),
}

/// The world of a fresh account and these devices.
fn world_of(alloc: Global, devices: Vec<Device>) -> anyhow::Result<World> {
    match World::new(alloc, devices, Kept::fresh(alloc)) {
        Ok(world) => Ok(world),
        Err(_) => bail!("no world"),
    }
}

/// What an event of a world is answered.
fn step_in(alloc: Global, world: &mut World, event: &Event) -> anyhow::Result<Option<WorldFault>> {
    if !event.is_fit() {
        bail!("more than one request may ask");
    }
    match world.step(alloc, event) {
        Ok(()) => Ok(None),
        Err(WorldFault::Memory) => bail!("no memory"),
        Err(fault) => Ok(Some(fault)),
    }
}

impl Play {
    /// A fresh account and these devices.
    pub fn fresh(alloc: Global, way: Way, devices: Vec<Device>) -> anyhow::Result<Play> {
        Ok(match way {
            Way::World => Play::World(world_of(alloc, devices)?),
            Way::Bytes(manner) => Play::Bytes(Wired::fresh(alloc, manner, devices)?),
        })
    }

    /// What an event is answered.
    pub fn step(&mut self, alloc: Global, event: &Event) -> anyhow::Result<Option<WorldFault>> {
        match self {
            Play::World(world) => step_in(alloc, world, event),
            Play::Bytes(wired) => wired.step(alloc, event),
        }
    }

    /// The devices, each idle or with a sync under way.
    pub fn seats(&self) -> &[Seat] {
        match self {
            Play::World(world) => world.seats(),
            Play::Bytes(wired) => wired.seats(),
        }
    }

    /// The device of a number; while a request of it is under way, as it was started.
    pub fn device(&self, n: u32) -> Option<&Device> {
        match self.seats().get(n as usize) {
            Some(seat) => Some(seat.device()),
            None => None,
        }
    }

    /// The account as plain data.
    pub fn plain(&self, alloc: Global) -> Result<Plain, AllocError> {
        match self {
            Play::World(world) => world.account().plain(alloc),
            Play::Bytes(wired) => wired.plain(alloc),
        }
    }
}
