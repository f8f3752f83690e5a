//! Devices and their account, between which requests and responses pass as bytes.

use crate::accounts::{Served, UID};
use crate::worlds::strangers::text_of;
use anyhow::bail;
use core::mem::replace_with;
use ss_bso::Plain;
use ss_client::{Do, Fetch, Machine, SyncFault};
use ss_device::{Device, EditFault};
use ss_http::{Heard, Message, read_response};
use ss_outside::SureSource;
use ss_query::Request;
use ss_route::{Manner, write_request};
use ss_world::{Edit, Event, Seat, WorldFault};
use std::alloc::{AllocError, Global};

/// The host that requests name.
pub const HOST: &str = "h:8000";

/// An account with its server, and devices. A device writes its request; the server reads, routes and answers it, and
/// writes the response; and the device reads and hears that.
#[derive(Drop)]
pub struct Wired {
    served: Served,
    seats: Vec<Seat>,
}

/// The bytes of the request that a device has under way.
fn request_of(alloc: Global, seats: &[Seat], n: u32) -> anyhow::Result<Vec<u8>> {
    match seats.get(n as usize) {
        Some(Seat::Syncs(machine)) => {
            let request = machine.request(alloc)?;
            Ok(write_request(alloc, UID, HOST, &request)?)
        }
        _ => bail!("no request under way"),
    }
}

/// The response that a client reads in these bytes.
fn heard_in(alloc: Global, bytes: Vec<u8>) -> anyhow::Result<Heard> {
    let mut pieces = Vec::new(alloc);
    pieces.push(bytes)?;
    let mut source = SureSource::new(pieces);
    match read_response(alloc, &mut source) {
        Ok(heard) => Ok(heard),
        Err(_) => bail!("no response"),
    }
}

/// What a device's machine does with a response. Where memory is wanting, the device is as it was started.
fn heard(seat: Seat, response: (Global, Heard)) -> (Seat, Result<(), AllocError>) {
    let (alloc, heard) = response;
    match seat {
        Seat::Idle(device) => (Seat::Idle(device), Ok(())),
        Seat::Syncs(machine) => match machine.next(alloc, &heard) {
            Do::Send(machine, _request) => (Seat::Syncs(machine), Ok(())),
            Do::Done(device, _summary) => (Seat::Idle(device), Ok(())),
            Do::Stop(device, SyncFault::Memory) => (Seat::Idle(device), Err(AllocError)),
            Do::Stop(device, _) => (Seat::Idle(device), Ok(())),
        },
    }
}

/// A device hears a response.
fn hear_at(
    alloc: Global,
    seats: &mut Vec<Seat>,
    n: u32,
    response: Heard,
) -> Result<(), AllocError> {
    match seats.get_mut(n as usize) {
        None => Ok(()),
        Some(seat) => replace_with(seat, (alloc, response), heard),
    }
}

fn started(seat: Seat, begin: (Global, Fetch)) -> (Seat, ()) {
    let (alloc, fetch) = begin;
    match seat {
        Seat::Idle(device) => {
            let (machine, _request) = Machine::start(alloc, device, fetch);
            (Seat::Syncs(machine), ())
        }
        Seat::Syncs(machine) => (Seat::Syncs(machine), ()),
    }
}

/// A device begins a sync.
fn start_at(alloc: Global, seats: &mut Vec<Seat>, n: u32, fetch: Fetch) {
    if let Some(seat) = seats.get_mut(n as usize) {
        replace_with(seat, (alloc, fetch), started);
    }
}

fn idle(seat: Seat, _: ()) -> (Seat, ()) {
    match seat {
        Seat::Idle(device) => (Seat::Idle(device), ()),
        Seat::Syncs(machine) => (Seat::Idle(machine.give_up()), ()),
    }
}

/// A device's sync is given up.
fn idle_at(seats: &mut Vec<Seat>, n: u32) {
    if let Some(seat) = seats.get_mut(n as usize) {
        replace_with(seat, (), idle);
    }
}

/// Applies an edit to a device.
fn apply(alloc: Global, device: &mut Device, now: u64, edit: &Edit) -> Result<(), EditFault> {
    match edit {
        Edit::Add { parent, item } => device.add(alloc, now, parent, item.copy(alloc)?),
        Edit::Rename { id, title } => device.rename(alloc, now, id, title.as_str()),
        Edit::Move { id, parent } => device.move_to(alloc, now, id, parent),
        Edit::Delete { id } => device.delete(alloc, now, id),
    }
}

/// A user changes a device's bookmarks; why that is refused.
fn edit_at(
    alloc: Global,
    seats: &mut Vec<Seat>,
    n: u32,
    now: u64,
    edit: &Edit,
) -> anyhow::Result<Option<WorldFault>> {
    let Some(Seat::Idle(device)) = seats.get_mut(n as usize) else {
        bail!("no idle device");
    };
    match apply(alloc, device, now, edit) {
        Ok(()) => Ok(None),
        Err(EditFault::Memory) => bail!("no memory"),
        Err(fault) => Ok(Some(WorldFault::Edit(fault))),
    }
}

/// Whether a request may change the bookmarks: it deletes all, or is no GET and names them.
fn touches(request: &Request) -> bool {
    match request {
        Request::Info { .. } | Request::List { .. } | Request::Get { .. } => false,
        Request::DeleteAll { .. } => true,
        Request::Post { collection, .. } => collection.as_str() == "bookmarks",
        Request::DeleteCollection { collection, .. } => collection.as_str() == "bookmarks",
        Request::DeleteIds { collection, .. } => collection.as_str() == "bookmarks",
        Request::Put { collection, .. } => collection.as_str() == "bookmarks",
        Request::Delete { collection, .. } => collection.as_str() == "bookmarks",
    }
}

/// Why what only an idle device does is refused.
fn unless_idle(seats: &[Seat], n: u32) -> Option<WorldFault> {
    match seats.get(n as usize) {
        None => Some(WorldFault::NoDevice { n }),
        Some(Seat::Idle(_)) => None,
        Some(Seat::Syncs(_)) => Some(WorldFault::Busy { n }),
    }
}

/// Why what only a device with a request under way does is refused.
fn unless_syncing(seats: &[Seat], n: u32) -> Option<WorldFault> {
    match seats.get(n as usize) {
        None => Some(WorldFault::NoDevice { n }),
        Some(Seat::Idle(_)) => Some(WorldFault::Idle { n }),
        Some(Seat::Syncs(_)) => None,
    }
}

impl Wired {
    /// A fresh account, whose server reads conditions in a manner, and these devices.
    pub fn fresh(alloc: Global, manner: Manner, devices: Vec<Device>) -> anyhow::Result<Wired> {
        let mut seats = Vec::new(alloc);
        for device in devices {
            seats.push(Seat::Idle(device))?;
        }
        Ok(Wired {
            served: Served::fresh(alloc, manner)?,
            seats,
        })
    }

    pub fn seats(&self) -> &[Seat] {
        self.seats.as_slice()
    }

    /// The account as plain data.
    pub fn plain(&self, alloc: Global) -> Result<Plain, AllocError> {
        self.served.plain(alloc)
    }

    /// The bytes that the server answers a message with.
    fn respond_to(
        &mut self,
        alloc: Global,
        now: u64,
        message: &Message,
    ) -> anyhow::Result<Vec<u8>> {
        Ok(self.served.respond(alloc, now, message, false)?.bytes)
    }

    /// The bytes that the server answers these bytes with.
    fn respond(&mut self, alloc: Global, now: u64, request: Vec<u8>) -> anyhow::Result<Vec<u8>> {
        let message = self.served.message(alloc, request)?;
        let response = self.respond_to(alloc, now, &message);
        drop(message);
        response
    }

    /// A device's request comes to the server, and the response to the device.
    fn deliver(&mut self, alloc: Global, n: u32, now: u64) -> anyhow::Result<()> {
        let request = request_of(alloc, self.seats.as_slice(), n)?;
        let response = self.respond(alloc, now, request)?;
        hear_at(alloc, &mut self.seats, n, heard_in(alloc, response)?)?;
        Ok(())
    }

    /// A device's request comes to the server, and the response is lost.
    fn lose_reply(&mut self, alloc: Global, n: u32, now: u64) -> anyhow::Result<()> {
        let request = request_of(alloc, self.seats.as_slice(), n)?;
        let _response = self.respond(alloc, now, request)?;
        idle_at(&mut self.seats, n);
        Ok(())
    }

    /// Why an event is refused, for another cause than its edit.
    fn refusal(&self, event: &Event) -> Option<WorldFault> {
        let seats = self.seats.as_slice();
        match event {
            Event::Start { device, .. } => unless_idle(seats, *device),
            Event::Change { device, .. } => unless_idle(seats, *device),
            Event::Deliver { device, .. } => unless_syncing(seats, *device),
            Event::LoseRequest { device } => unless_syncing(seats, *device),
            Event::LoseReply { device, .. } => unless_syncing(seats, *device),
            Event::Anew { device } => unless_syncing(seats, *device),
            Event::Other { request, .. } if touches(request) => Some(WorldFault::Touches),
            Event::Other { .. } | Event::Tick { .. } | Event::Reopen => None,
        }
    }

    /// Does an event; why its edit is refused.
    fn happen(&mut self, alloc: Global, event: &Event) -> anyhow::Result<Option<WorldFault>> {
        match event {
            Event::Start { device, fetch } => start_at(alloc, &mut self.seats, *device, *fetch),
            Event::Deliver { device, now } => self.deliver(alloc, *device, *now)?,
            Event::LoseRequest { device } => idle_at(&mut self.seats, *device),
            Event::LoseReply { device, now } => self.lose_reply(alloc, *device, *now)?,
            Event::Anew { device } => idle_at(&mut self.seats, *device),
            Event::Change { device, now, edit } => {
                return edit_at(alloc, &mut self.seats, *device, *now, edit);
            }
            Event::Other { now, request } => {
                let _response = self.respond(alloc, *now, text_of(alloc, request)?)?;
            }
            Event::Tick { now } => self.served.tick(*now),
            Event::Reopen => self.served.reopen(alloc)?,
        }
        Ok(None)
    }

    /// What an event is answered.
    pub fn step(&mut self, alloc: Global, event: &Event) -> anyhow::Result<Option<WorldFault>> {
        match self.refusal(event) {
            Some(fault) => Ok(Some(fault)),
            None => self.happen(alloc, event),
        }
    }
}
