//! Steps of a play, and what is seen of it.

use crate::worlds::items::{id, item};
use crate::worlds::plays::Play;
use anyhow::bail;
use ss_bso::Row;
use ss_client::Fetch;
use ss_device::Device;
use ss_query::Request;
use ss_text::Id;
use ss_world::{Edit, Event, Seat, WorldFault};
use std::alloc::Global;
use std::collections::BTreeMap;

/// So many new devices.
pub fn new_devices(alloc: Global, count: u32) -> anyhow::Result<Vec<Device>> {
    let mut devices = Vec::new(alloc);
    for _ in 0..count {
        devices.push(Device::new(alloc)?)?;
    }
    Ok(devices)
}

/// Does an event that isn't refused.
pub fn happen(alloc: Global, play: &mut Play, event: &Event) -> anyhow::Result<()> {
    match play.step(alloc, event)? {
        None => Ok(()),
        Some(_) => bail!("a refused event"),
    }
}

/// Begins a sync that fetches all rows.
pub fn start(alloc: Global, play: &mut Play, device: u32) -> anyhow::Result<()> {
    let event = Event::Start {
        device,
        fetch: Fetch::Whole,
    };
    happen(alloc, play, &event)
}

/// Delivers a request and its reply, at a reading of the clock.
pub fn deliver(alloc: Global, play: &mut Play, device: u32, now: u64) -> anyhow::Result<()> {
    happen(alloc, play, &Event::Deliver { device, now })
}

/// Adds an item to `unfiled`.
pub fn add(alloc: Global, play: &mut Play, device: u32, text: &str) -> anyhow::Result<()> {
    let edit = Edit::Add {
        parent: id(alloc, "unfiled")?,
        item: item(alloc, text)?,
    };
    let event = Event::Change {
        device,
        now: 900,
        edit,
    };
    happen(alloc, play, &event)
}

/// Rows by id.
pub type ById = BTreeMap<Id, Row>;

/// The rows of the bookmarks.
pub fn bookmarks(alloc: Global, play: &Play) -> anyhow::Result<ById> {
    let plain = play.plain(alloc)?;
    let mut rows = BTreeMap::new(alloc);
    for row in plain.rows.into_vec() {
        if row.collection.as_str() == "bookmarks" {
            rows.insert(row.id.copy(alloc)?, row)?;
        }
    }
    Ok(rows)
}

/// The request that a device has under way.
pub fn request(alloc: Global, play: &Play, device: u32) -> anyhow::Result<Option<Request>> {
    match play.seats().get(device as usize) {
        Some(Seat::Syncs(machine)) => Ok(Some(machine.request(alloc)?)),
        _ => Ok(None),
    }
}

/// How many records a device's request puts, where it is a POST.
pub fn posts(alloc: Global, play: &Play, device: u32) -> anyhow::Result<Option<usize>> {
    match request(alloc, play, device)? {
        Some(Request::Post { records, .. }) => Ok(Some(records.parts.as_slice().len())),
        _ => Ok(None),
    }
}

pub fn is_idle(play: &Play, device: u32) -> bool {
    match play.seats().get(device as usize) {
        Some(Seat::Idle(_)) => true,
        _ => false,
    }
}
