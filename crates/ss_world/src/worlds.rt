//! A world that events happen to.

ghost use Rattle.std.specs.Prelude.{◌≡◌, ℕ, map, slice_get, Bool, option_map, IfOk, IfErr, OnOk, All};
ghost use Rattle.ss_bso.specs.Changes.{account_at_opening};
ghost use Rattle.ss_bso.specs.Validity.{IsValid, SameAccount};
ghost use Rattle.ss_account.specs.Opening.{IsFaultOf, IsGood};
ghost use Rattle.ss_account.specs.declared.faults.OpenFault.TheVariants.{Keeper as OpenKeeper};
ghost use Rattle.ss_query.specs.Fit.{IsFitRequest};
ghost use Rattle.ss_device.specs.Device.{IsDevice};
ghost use Rattle.ss_world.specs.Seats.{device_of};
ghost use Rattle.ss_world.specs.Worlds.{server_of};
ghost use Rattle.ss_world.specs.Happening.{Happens};
ghost use Rattle.ss_world.specs.Promises.{IsTrustedEvent};
ghost use Rattle.ss_world.specs.Stepping.{Fails, IsFitEvent, fault_of};
ghost use Rattle.ss_world.specs.Reaching.{IsOpenable, IsReachedWorld, IsWellDelivered, IsWholeFetch, KeepsPromises};
ghost use Rattle.ss_world.specs.declared.events.Event.TheVariants as event;
ghost use Rattle.ss_world.specs.declared.faults.WorldFault.TheVariants as fault;

use crate::events::{Edit, Event};
use crate::faults::WorldFault;
use crate::seats::{Seat, answer_at, edit_at, idle_at, machine_at, start_at};
use crate::serving::{ask, reopen, tick, touches};
use ss_account::{Account, OpenFault};
use ss_bso::Kept;
use ss_client::Fetch;
use ss_device::Device;
use ss_keeper::SureKeeper;
use ss_query::Request;
use std::alloc::{AllocError, Global};
use std::marker::Model;

/// One account with its keeper, and devices that sync their bookmarks with it.
#[derive(Drop)]
pub struct World {
    account: Account<SureKeeper>,
    seats: Vec<Seat>,
}

impl Model for World {
    ghost use Rattle.ss_world.specs.Worlds.{WorldView};

    ghost Value = { WorldView };

    ghost use Rattle.ss_account.specs.Opening.{IsGood};

    ghost view = { λ w. record { server = record { account = w.account.plain; kept = w.account.keeper.kept }; seats = w.seats.items } };

    ghost invariant = { λ w. IsGood w.account.keeper.kept };
}

fn seated(alloc: Global, devices: Vec<Device>) -> Result<Vec<Seat>, AllocError>
    ensures seats { IfOk result (λ seats. seats.items ≡ map Seat.Idle devices.items) }
    ensures valid { OnOk result (All IsDevice devices.items) }
{
    let mut seats = Vec::with_capacity(alloc, devices.len())?;
    for device in devices {
        let _valid = device.tree();
        seats.push(Seat::Idle(device))?;
    }
    Ok(seats)
}

impl World {
    /// The account of what is kept, with these devices, none of which syncs. It isn't opened exactly where a
    /// collection, a row or a batch is bad, or where memory is wanting.
    pub fn new(alloc: Global, devices: Vec<Device>, kept: Kept) -> Result<World, OpenFault>
        ensures opened { IfOk result (λ world. SameAccount (account_at_opening kept) world.server.account) }
        ensures valid { IfOk result (λ world. IsValid world.server.account) }
        ensures kept { IfOk result (λ world. world.server.kept ≡ kept) }
        ensures good { OnOk result (IsGood kept) }
        ensures devices { IfOk result (λ world. world.seats ≡ map Seat.Idle devices.items) }
        ensures bad { IfErr result (IsFaultOf kept) }
        ensures quiet { IfErr result (λ fault. fault ≡ OpenKeeper → ⊥) }
        ensures reached { IfOk result (λ world. (trusts : ℕ → Bool) → IsOpenable trusts world
            → IsReachedWorld trusts world) }
    {
        let seats = seated(alloc, devices)?;
        let keeper = SureKeeper::new(kept);
        keeper.never_fails();
        match Account::open(alloc, keeper) {
            Ok(account) => Ok(World { account, seats }),
            Err((keeper, fault)) => {
                keeper.never_fails();
                Err(fault)
            }
        }
    }

    /// The account.
    pub fn account(&self) -> &Account<SureKeeper>
        ensures { server_of result.now ≡ self.now.server }
    {
        &self.account
    }

    /// The devices, each idle or with a sync under way.
    pub fn seats(&self) -> &[Seat]
        ensures { result.now ≡ self.now.seats }
    {
        self.seats.as_slice()
    }

    /// The device of a number, from 0; while a request of it is under way, as it was started.
    pub fn device(&self, n: u32) -> Option<&Device>
        ensures { option_map (λ device. device.now) result ≡ option_map device_of (slice_get self.now.seats n) }
    {
        match self.seats.get(n as usize) {
            Some(seat) => Some(seat.device()),
            None => None,
        }
    }

    /// A device begins a sync.
    fn start(&mut self, alloc: Global, n: u32, fetch: Fetch) -> Result<(), WorldFault>
        ensures happens { OnOk result (Happens self.old (event.Start n fetch) self.new) }
        ensures permitted { OnOk result (fault_of self.old (event.Start n fetch) ≡ None) }
        ensures refused { IfErr result (Fails self.old (event.Start n fetch) self.new) }
    {
        start_at(alloc, &mut self.seats, n, fetch)
    }

    /// A device's request comes to the account, and the reply to the device.
    fn deliver(&mut self, alloc: Global, n: u32, now: u64) -> Result<(), WorldFault>
        ensures happens { OnOk result (Happens self.old (event.Deliver n now) self.new) }
        ensures permitted { OnOk result (fault_of self.old (event.Deliver n now) ≡ None) }
        ensures refused { IfErr result (Fails self.old (event.Deliver n now) self.new) }
    {
        let machine = machine_at(self.seats.as_slice(), n)?;
        let awaited = machine.awaits();
        let request = machine.request(alloc)?;
        let reply = ask(alloc, &mut self.account, now, &request)?;
        answer_at(alloc, &mut self.seats, n, awaited, &reply)?;
        Ok(())
    }

    /// A device's request comes to the account, and the reply is lost.
    fn lose_reply(&mut self, alloc: Global, n: u32, now: u64) -> Result<(), WorldFault>
        ensures happens { OnOk result (Happens self.old (event.LoseReply n now) self.new) }
        ensures permitted { OnOk result (fault_of self.old (event.LoseReply n now) ≡ None) }
        ensures refused { IfErr result (Fails self.old (event.LoseReply n now) self.new) }
    {
        let machine = machine_at(self.seats.as_slice(), n)?;
        let request = machine.request(alloc)?;
        let _reply = ask(alloc, &mut self.account, now, &request)?;
        idle_at(&mut self.seats, n);
        Ok(())
    }

    /// A device's sync is given up: its request is lost, or it is started anew.
    fn give_up(&mut self, n: u32) -> Result<(), WorldFault>
        ensures happens { OnOk result (Happens self.old (event.LoseRequest n) self.new) }
        ensures permitted { OnOk result (fault_of self.old (event.LoseRequest n) ≡ None) }
        ensures refused { IfErr result (Fails self.old (event.LoseRequest n) self.new) }
    {
        let _machine = machine_at(self.seats.as_slice(), n)?;
        idle_at(&mut self.seats, n);
        Ok(())
    }

    /// A user changes a device's bookmarks.
    fn change(&mut self, alloc: Global, n: u32, now: u64, edit: &Edit) -> Result<(), WorldFault>
        ensures happens { OnOk result (Happens self.old (event.Change n now edit.now) self.new) }
        ensures permitted { OnOk result (fault_of self.old (event.Change n now edit.now) ≡ None) }
        ensures refused { IfErr result (Fails self.old (event.Change n now edit.now) self.new) }
    {
        edit_at(alloc, &mut self.seats, n, now, edit)
    }

    /// Somebody else asks the account for something.
    fn other(&mut self, alloc: Global, now: u64, request: &Request) -> Result<(), WorldFault>
        requires { IsFitRequest request.now }
        ensures happens { OnOk result (Happens self.old (event.Other now request.now) self.new) }
        ensures permitted { OnOk result (fault_of self.old (event.Other now request.now) ≡ None) }
        ensures refused { IfErr result (Fails self.old (event.Other now request.now) self.new) }
    {
        if touches(request) {
            return Err(WorldFault::Touches);
        }
        let _reply = ask(alloc, &mut self.account, now, request)?;
        Ok(())
    }

    /// What an event makes of the world.
    fn happen(&mut self, alloc: Global, happening: &Event) -> Result<(), WorldFault>
        requires { IsFitEvent happening.now }
        ensures happens { OnOk result (Happens self.old happening.now self.new) }
        ensures permitted { OnOk result (fault_of self.old happening.now ≡ None) }
        ensures refused { IfErr result (Fails self.old happening.now self.new) }
    {
        match happening {
            Event::Start { device, fetch } => self.start(alloc, *device, *fetch),
            Event::Deliver { device, now } => self.deliver(alloc, *device, *now),
            Event::LoseRequest { device } => self.give_up(*device),
            Event::LoseReply { device, now } => self.lose_reply(alloc, *device, *now),
            Event::Anew { device } => self.give_up(*device),
            Event::Change { device, now, edit } => self.change(alloc, *device, *now, edit),
            Event::Other { now, request } => self.other(alloc, *now, request),
            Event::Tick { now } => {
                tick(&mut self.account, *now);
                Ok(())
            }
            Event::Reopen => {
                reopen(alloc, &mut self.account)?;
                Ok(())
            }
        }
    }

    /// What an event makes of the world, by the definition of each. What others ask has to be within the limits of one
    /// request. A fault tells the first cause for which the event is refused, and the world is as before; or it tells
    /// that memory was wanting, for an event that takes some, once its causes were looked for, but for those of an edit
    /// that takes some first.
    /// From a world that events led to from an opening the bookmarks stand for one valid tree then: the one before, or
    /// the merged one where the event was the last POST of a device that came to the account.
    pub fn step(&mut self, alloc: Global, happening: &Event) -> Result<(), WorldFault>
        requires { IsFitEvent happening.now }
        ensures happens { OnOk result (Happens self.old happening.now self.new) }
        ensures permitted { OnOk result (fault_of self.old happening.now ≡ None) }
        ensures refused { IfErr result (Fails self.old happening.now self.new) }
        ensures passed { IfErr result (λ e. (e ≡ fault.Memory → ⊥) → Happens self.old happening.now self.new) }
        ensures promised { (trusts : ℕ → Bool) → IsReachedWorld trusts self.old → IsTrustedEvent trusts happening.now
            → KeepsPromises trusts self.old happening.now self.new }
        ensures understood { OnOk result ((trusts : ℕ → Bool) → IsReachedWorld trusts self.old
            → IsWellDelivered self.old happening.now self.new) }
        ensures fetched { OnOk result ((trusts : ℕ → Bool) (r : IsReachedWorld trusts self.old)
            → IsWholeFetch trusts self.old r happening.now self.new) }
    {
        self.happen(alloc, happening)
    }
}
