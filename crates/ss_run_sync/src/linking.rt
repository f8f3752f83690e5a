//! The links of a sync, one after the other.

ghost use Rattle.std.specs.Prelude.{◌≡◌, List, Option};
ghost use Rattle.ss_route.specs.Sending.{IsHost};
ghost use Rattle.ss_client.specs.Asking.{ask};
ghost use Rattle.ss_run_sync.specs.Links.{IsRunOverLinks, IsLeg, IsNearer, leg_of, came_of};
ghost use Rattle.ss_run_sync.specs.declared.linking.Leg.TheVariants.{End};
ghost use Rattle.ss_links.specs.Links.{IsUnusedLink};
ghost use Rattle.ss_links.specs.Dials.{Address, IsBehind};

use crate::conversing::converse;
use crate::talk::Talk;
use ss_client::{Machine, Summary, SyncFault};
use ss_device::Device;
use ss_links::{Dial, DialFault};
use ss_query::Request;
use ss_words::Server;
use std::alloc::Global;

/// What comes of a run.
#[derive(Drop)]
pub enum Came {
    /// It is done, and leaves this device.
    Done(Device, Summary),

    /// It stopped, or a reply couldn't be read.
    Stop(SyncFault),

    /// A dial, or a read or a write of a link failed.
    Wire,

    /// No memory.
    Memory,
}

/// What comes of one link: the run goes on over another one, or it ends.
#[derive(Drop)]
pub(crate) enum Leg {
    On(Machine, Request),
    End(Came),
}

fn leg_of(talk: Talk) -> Leg
    ensures { result ≡ leg_of talk }
{
    match talk {
        Talk::Done(device, summary) => Leg::End(Came::Done(device, summary)),
        Talk::Stop(_, fault) => Leg::End(Came::Stop(fault)),
        Talk::Anew(machine, request) => Leg::On(machine, request),
        Talk::Wire(_) => Leg::End(Came::Wire),
        Talk::Memory(_) => Leg::End(Came::Memory),
    }
}

/// What a run comes to for which no link was made.
fn unlinked(machine: Machine, request: Request, fault: DialFault) -> Leg
    ensures { result ≡ End (came_of fault) }
{
    drop(request);
    drop(machine.give_up());
    match fault {
        DialFault::Fault => Leg::End(Came::Wire),
        DialFault::Memory => Leg::End(Came::Memory),
    }
}

/// Sends what a machine asks over a link that was just dialled, and hangs it up.
fn over<D: Dial>(
    alloc: Global,
    machine: Machine,
    request: Request,
    server: &Server,
    host: &str,
    link: D::Link,
    dial: &mut D,
) -> Leg
    requires asked { request ≡ ask machine }
    requires host { IsHost host.now }
    requires unused { IsUnusedLink (D.Link.Told.told link) }
    ensures nearer { IsNearer machine result }
    ensures leg { (asked : Option (List Address)) → IsBehind (record { host = server.now.host; port = server.now.port })
        asked (D.asked dial.old)
        → IsLeg (record { uid = server.now.uid; host = host.now }) machine result (D.dial_faults dial.old)
        (D.dial_faults dial.new) (D.hung dial.old) (D.hung dial.new)
        (record { host = server.now.host; port = server.now.port }) asked (D.asked dial.new) }
{
    let mut link = link;
    let talk = converse(alloc, machine, request, server.uid, host, &mut link);
    dial.hang_up(link);
    leg_of(talk)
}

/// Dials the server, and sends what a machine asks over the link.
fn over_link<D: Dial>(
    alloc: Global,
    machine: Machine,
    request: Request,
    server: &Server,
    host: &str,
    dial: &mut D,
) -> Leg
    requires asked { request ≡ ask machine }
    requires host { IsHost host.now }
    ensures nearer { IsNearer machine result }
    ensures leg { IsLeg (record { uid = server.now.uid; host = host.now }) machine result (D.dial_faults dial.old)
        (D.dial_faults dial.new) (D.hung dial.old) (D.hung dial.new)
        (record { host = server.now.host; port = server.now.port }) (D.asked dial.old) (D.asked dial.new) }
{
    match dial.dial(server.host.as_str(), server.port) {
        Ok(link) => over(alloc, machine, request, server, host, link, dial),
        Err(fault) => unlinked(machine, request, fault),
    }
}

/// Runs a machine over links to its server, one after the other, from the request whose reply it awaits.
pub(crate) fn over_links<D: Dial>(
    alloc: Global,
    machine: Machine,
    request: Request,
    server: &Server,
    host: &str,
    dial: &mut D,
) -> Came
    requires asked { request ≡ ask machine }
    requires host { IsHost host.now }
    ensures { IsRunOverLinks (record { uid = server.now.uid; host = host.now }) machine result (D.dial_faults dial.old)
        (D.dial_faults dial.new) (D.hung dial.old) (D.hung dial.new)
        (record { host = server.now.host; port = server.now.port }) (D.asked dial.old) (D.asked dial.new) }
{
    let mut machine = machine;
    let mut request = request;
    'links: loop {
        match over_link(alloc, machine, request, server, host, dial) {
            Leg::On(next, asked) => {
                machine = next;
                request = asked;
            }
            Leg::End(came) => return came,
        }
    }
}
