//! The requests of a run over one link.

ghost use Rattle.std.specs.Prelude.{◌≡◌};
ghost use Rattle.ss_route.specs.Sending.{IsHost};
ghost use Rattle.ss_client.specs.Asking.{ask};
ghost use Rattle.ss_run_sync.specs.Talks.{Talks, IsNearer};
ghost use Rattle.ss_run_sync.specs.Turns.{Turns, Hearing, Brings};

use crate::asking::{Missed, ask};
use crate::talk::Talk;
use ss_client::{Do, Machine, SyncFault};
use ss_http::Heard;
use ss_outside::{Sink, Source};
use ss_query::Request;
use std::alloc::Global;

/// What comes of an exchange: the next request over the same link, or the end of the link.
#[derive(Drop)]
pub(crate) enum Turn {
    On(Machine, Request),
    End(Talk),
}

/// What a machine makes of a response.
fn hear(alloc: Global, machine: Machine, heard: &Heard) -> Turn
    ensures hears { Hearing machine heard.now result }
    ensures nearer { Brings machine result }
{
    match machine.next(alloc, heard) {
        Do::Send(next, request) => {
            if heard.last {
                Turn::End(Talk::Anew(next, request))
            } else {
                Turn::On(next, request)
            }
        }
        Do::Done(device, summary) => Turn::End(Talk::Done(device, summary)),
        Do::Stop(device, SyncFault::Memory) => Turn::End(Talk::Memory(device)),
        Do::Stop(device, fault) => Turn::End(Talk::Stop(device, fault)),
    }
}

/// Sends the request of a machine, and gives it the response.
fn exchange<L: Source + Sink>(
    alloc: Global,
    machine: Machine,
    request: &Request,
    uid: u32,
    host: &str,
    link: &mut L,
) -> Turn
    requires asked { request.now ≡ ask machine }
    requires host { IsHost host.now }
    ensures turns { Turns (record { uid = uid; host = host.now }) machine result (L.Told.told link.old)
        (L.Told.told link.new) }
    ensures nearer { Brings machine result }
{
    let number = machine.number();
    match ask(alloc, uid, host, request, link) {
        Ok(heard) => hear(alloc, machine, &heard),
        Err(Missed::Unread) => Turn::End(Talk::Stop(
            machine.give_up(),
            SyncFault::BadReply { number },
        )),
        Err(Missed::Wire) => Turn::End(Talk::Wire(machine.give_up())),
        Err(Missed::Memory) => Turn::End(Talk::Memory(machine.give_up())),
    }
}

/// Sends the requests of a machine over a link to an account's server, each after the response before, from the request
/// whose reply it awaits. The host is the one that requests name. Until the run is done the device comes back as it was
/// started.
pub(crate) fn converse<L: Source + Sink>(
    alloc: Global,
    machine: Machine,
    request: Request,
    uid: u32,
    host: &str,
    link: &mut L,
) -> Talk
    requires asked { request ≡ ask machine }
    requires host { IsHost host.now }
    // What went over the link, what the run does next, and why the link was left.
    ensures talks { Talks (record { uid = uid; host = host.now }) machine result (L.Told.told link.old)
        (L.Told.told link.new) }
    // Where another link is wanted, fewer requests may follow than before, so a run ends.
    ensures nearer { IsNearer machine result }
{
    let mut machine = machine;
    let mut request = request;
    'requests: loop {
        match exchange(alloc, machine, &request, uid, host, link) {
            Turn::On(next, asked) => {
                machine = next;
                request = asked;
            }
            Turn::End(talk) => return talk,
        }
    }
}
