//! The devices of a world.

ghost use Rattle.std.specs.Prelude.{◌≡◌, ◌⊎◌, slice_get, Some, None, IfOk, IfErr, OnOk, OnErr};
ghost use Rattle.ss_client.specs.Sound.{TellsOurs};
ghost use Rattle.ss_hearing.specs.Hearing.{status_of};
ghost use Rattle.ss_serving.specs.Asking.{told_by};
ghost use Rattle.ss_tree.specs.Entries.{IsTree};
ghost use Rattle.ss_device.specs.Device.{IsDevice};
ghost use Rattle.ss_world.specs.Seats.{device_of, seat_after_start};
ghost use Rattle.ss_world.specs.Stepping.{Begins, Changes, GivesUp, Hears, IsEditedSeat, HearsAtSeat, LeadsOn};
ghost use Rattle.ss_world.specs.Stepping.{at_device};
ghost use Rattle.ss_world.specs.Stepping.{change_fault, edit_refusal, request_fault, start_fault, tested_change};
ghost use Rattle.ss_world.specs.Stepping.{tested_edit};
ghost use Rattle.ss_world.specs.Happening.{ChangesDevice, edit_fault};
ghost use Rattle.ss_world.specs.declared.faults.WorldFault.TheVariants as fault;

use crate::events::Edit;
use crate::faults::WorldFault;
use crate::telling::tell;
use core::mem::replace_with;
use ss_client::{Do, Fetch, Machine, SyncFault};
use ss_device::{Device, EditFault};
use ss_hearing::{Answer, Awaited};
use ss_query::Reply;
use ss_tree::{Node, Tree};
use std::alloc::{AllocError, Global};

/// A device of a world.
#[derive(Drop)]
pub enum Seat {
    /// No sync is under way.
    Idle(Device),
    /// A sync is under way.
    Syncs(Machine),
}

impl Seat {
    /// The device; while a request is under way, as it was started.
    pub fn device(&self) -> &Device
        ensures { result.now ≡ device_of self.now }
    {
        match self {
            Seat::Idle(device) => device,
            Seat::Syncs(machine) => machine.device(),
        }
    }
}

/// The machine of a device that has a request under way.
pub(crate) fn machine_at(seats: &[Seat], n: u32) -> Result<&Machine, WorldFault>
    ensures there { IfOk result (λ m. slice_get seats.now n ≡ Some (Seat.Syncs m.now)) }
    ensures refused { IfErr result (λ e. at_device seats.now n (request_fault n) ≡ Some e) }
{
    match seats.get(n as usize) {
        None => Err(WorldFault::NoDevice { n }),
        Some(Seat::Idle(_)) => Err(WorldFault::Idle { n }),
        Some(Seat::Syncs(machine)) => Ok(machine),
    }
}

/// The device, as it was started where a request is under way.
fn idle(seat: Seat, _: ()) -> (Seat, ())
    ensures { result.0 ≡ Seat.Idle (device_of seat) }
{
    match seat {
        Seat::Idle(device) => (Seat::Idle(device), ()),
        Seat::Syncs(machine) => (Seat::Idle(machine.give_up()), ()),
    }
}

/// A device's sync is given up.
pub(crate) fn idle_at(seats: &mut Vec<Seat>, n: u32)
    ensures { GivesUp seats.old.items n seats.new.items }
{
    if let Some(seat) = seats.get_mut(n as usize) {
        replace_with(seat, (), idle);
    }
}

/// A sync of a device that has none under way.
fn started(seat: Seat, begin: (Global, Fetch)) -> (Seat, ())
    ensures { result.0 ≡ seat_after_start begin.1 seat }
{
    let (alloc, fetch) = begin;
    match seat {
        Seat::Idle(device) => {
            let (machine, _request) = Machine::start(alloc, device, fetch);
            (Seat::Syncs(machine), ())
        }
        Seat::Syncs(machine) => (Seat::Syncs(machine), ()),
    }
}

/// A device begins a sync.
pub(crate) fn start_at(
    alloc: Global,
    seats: &mut Vec<Seat>,
    n: u32,
    fetch: Fetch,
) -> Result<(), WorldFault>
    ensures started { OnOk result (Begins fetch seats.old.items n seats.new.items) }
    ensures begins { OnOk result (at_device seats.old.items n (start_fault n) ≡ None) }
    ensures refused { IfErr result (λ e. at_device seats.old.items n (start_fault n) ≡ Some e) }
    ensures left { OnErr result (seats.new.items ≡ seats.old.items) }
{
    match seats.get_mut(n as usize) {
        None => Err(WorldFault::NoDevice { n }),
        Some(seat) => {
            if let Seat::Syncs(_) = seat {
                return Err(WorldFault::Busy { n });
            }
            replace_with(seat, (alloc, fetch), started);
            Ok(())
        }
    }
}

/// What a device's machine does with an answer. Where memory is wanting, the device is as it was started; never where
/// the answer stops the run by itself.
fn heard(seat: Seat, told: (Global, Answer)) -> (Seat, Result<(), AllocError>)
    requires { TellsOurs told.1 }
    ensures heard { OnOk result.1 (HearsAtSeat told.1 result.0 seat) }
    ensures lost { OnErr result.1 (result.0 ≡ Seat.Idle (device_of seat)) }
    ensures wanting { OnErr result.1 (LeadsOn told.1 seat) }
{
    let (alloc, answer) = told;
    match seat {
        Seat::Idle(device) => (Seat::Idle(device), Ok(())),
        Seat::Syncs(machine) => match machine.hear(alloc, answer) {
            Do::Send(machine, _request) => (Seat::Syncs(machine), Ok(())),
            Do::Done(device, _summary) => (Seat::Idle(device), Ok(())),
            Do::Stop(device, SyncFault::Memory) => (Seat::Idle(device), Err(AllocError)),
            Do::Stop(device, _) => (Seat::Idle(device), Ok(())),
        },
    }
}

/// A device hears an answer.
fn hear_at(alloc: Global, seats: &mut Vec<Seat>, n: u32, answer: Answer) -> Result<(), AllocError>
    requires { TellsOurs answer }
    ensures heard { OnOk result (Hears answer seats.old.items n seats.new.items) }
    ensures lost { OnErr result (GivesUp seats.old.items n seats.new.items) }
    ensures wanting { OnErr result ((seat : Seat) → slice_get seats.old.items n ≡ Some seat → LeadsOn answer seat) }
{
    match seats.get_mut(n as usize) {
        None => Ok(()),
        Some(seat) => replace_with(seat, (alloc, answer), heard),
    }
}

/// A device's reply comes. Where memory for it is wanting, it is lost.
pub(crate) fn answer_at(
    alloc: Global,
    seats: &mut Vec<Seat>,
    n: u32,
    awaited: Awaited,
    reply: &Reply,
) -> Result<(), AllocError>
    ensures heard { OnOk result (Hears (told_by awaited reply.now) seats.old.items n seats.new.items) }
    ensures lost { OnErr result (GivesUp seats.old.items n seats.new.items) }
    ensures wanting { OnErr result ((seat : Seat) → slice_get seats.old.items n ≡ Some seat
        → (reply.now.status ≡ status_of awaited) ⊎ LeadsOn (told_by awaited reply.now) seat) }
{
    match tell(alloc, awaited, reply) {
        Ok(answer) => hear_at(alloc, seats, n, answer),
        Err(AllocError) => {
            idle_at(seats, n);
            Err(AllocError)
        }
    }
}

/// Applies an edit to a device.
fn apply(alloc: Global, device: &mut Device, now: u64, edit: &Edit) -> Result<(), EditFault>
    ensures changed { OnOk result (ChangesDevice now edit.now device.old device.new) }
    ensures edits { OnOk result (edit_fault device.old edit.now ≡ None) }
    ensures refused { IfErr result (λ e. (e ≡ EditFault.Memory) ⊎ (edit_fault device.old edit.now ≡ Some e)) }
    ensures wanting { IfErr result (λ e. e ≡ EditFault.Memory → tested_edit device.old edit.now ≡ None) }
    ensures left { OnErr result (device.new ≡ device.old) }
{
    match edit {
        Edit::Add { parent, item } => device.add(alloc, now, parent, item.copy(alloc)?),
        Edit::Rename { id, title } => device.rename(alloc, now, id, title.as_str()),
        Edit::Move { id, parent } => device.move_to(alloc, now, id, parent),
        Edit::Delete { id } => device.delete(alloc, now, id),
    }
}

/// The node of the item of an edit. It is looked up: the entries are a tree, as those of every `Tree` are.
fn find_edited(tree: &Tree, edit: &Edit) -> Option<Node>
    ensures { IsTree tree.now }
{
    match edit {
        Edit::Add { item, .. } => tree.find(item.id()),
        Edit::Rename { id, .. } => tree.find(id),
        Edit::Move { id, .. } => tree.find(id),
        Edit::Delete { id } => tree.find(id),
    }
}

/// Edits a device, which is valid then.
fn edit(alloc: Global, device: &mut Device, now: u64, edit: &Edit) -> Result<(), EditFault>
    ensures valid { IsDevice device.new }
    ensures is_tree { IsTree device.new.tree }
    ensures changed { OnOk result (ChangesDevice now edit.now device.old device.new) }
    ensures edits { OnOk result (edit_fault device.old edit.now ≡ None) }
    ensures refused { IfErr result (λ e. (e ≡ EditFault.Memory) ⊎ (edit_fault device.old edit.now ≡ Some e)) }
    ensures wanting { IfErr result (λ e. e ≡ EditFault.Memory → tested_edit device.old edit.now ≡ None) }
    ensures left { OnErr result (device.new ≡ device.old) }
{
    let done = apply(alloc, device, now, edit);
    let tree = device.tree();
    let _node = find_edited(tree, edit);
    done
}

/// Why an event is refused whose edit is.
fn refusal(fault: EditFault) -> WorldFault
    ensures { result ≡ edit_refusal fault }
{
    match fault {
        EditFault::Memory => WorldFault::Memory,
        other => WorldFault::Edit(other),
    }
}

/// A user changes the bookmarks of a device that has no sync under way.
fn edit_seat(
    alloc: Global,
    seat: &mut Seat,
    n: u32,
    now: u64,
    change: &Edit,
) -> Result<(), WorldFault>
    ensures changed { OnOk result (IsEditedSeat now change.now seat.new seat.old) }
    ensures refused { IfErr result (λ e. (e ≡ fault.Memory) ⊎ (change_fault n change.now seat.old ≡ Some e)) }
    ensures wanting { IfErr result (λ e. e ≡ fault.Memory → tested_change n change.now seat.old ≡ None) }
    ensures left { OnErr result (seat.new ≡ seat.old) }
{
    match seat {
        Seat::Syncs(_) => Err(WorldFault::Busy { n }),
        Seat::Idle(device) => match edit(alloc, device, now, change) {
            Ok(()) => Ok(()),
            Err(fault) => Err(refusal(fault)),
        },
    }
}

/// A user changes a device's bookmarks.
pub(crate) fn edit_at(
    alloc: Global,
    seats: &mut Vec<Seat>,
    n: u32,
    now: u64,
    change: &Edit,
) -> Result<(), WorldFault>
    ensures changed { OnOk result ((seat : Seat) × (slice_get seats.old.items n ≡ Some seat)
        × Changes now change.now seats.old.items n seats.new.items) }
    ensures refused { IfErr result (λ e. (e ≡ fault.Memory) ⊎ (at_device seats.old.items n (change_fault n change.now)
        ≡ Some e)) }
    ensures wanting { IfErr result (λ e. e ≡ fault.Memory → at_device seats.old.items n (tested_change n change.now)
        ≡ None) }
    ensures left { OnErr result (seats.new.items ≡ seats.old.items) }
{
    match seats.get_mut(n as usize) {
        None => Err(WorldFault::NoDevice { n }),
        Some(seat) => edit_seat(alloc, seat, n, now, change),
    }
}
