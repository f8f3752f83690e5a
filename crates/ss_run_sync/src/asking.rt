//! One request over a link, and its response.

ghost use Rattle.ss_client.specs.Told.{CanSend};
ghost use Rattle.ss_route.specs.Sending.{IsHost, request_sent};
ghost use Rattle.ss_run_sync.specs.Answers.{AsksOnce, IsMissOfFault};

use ss_http::{Heard, HeardFault, read_response};
use ss_outside::{Sink, Source, write_all};
use ss_query::Request;
use ss_route::write_request;
use std::alloc::Global;

/// Why no response was heard.
#[derive(Clone, Copy, Debug, PartialEq, Eq)]
pub(crate) enum Missed {
    /// What came is no response that is read.
    Unread,

    /// A read or a write failed.
    Wire,

    /// No memory.
    Memory,
}

fn missed_by(fault: HeardFault) -> Missed
    ensures { IsMissOfFault fault result }
{
    match fault {
        HeardFault::Cut => Missed::Unread,
        HeardFault::Bad => Missed::Unread,
        HeardFault::TooLarge { .. } => Missed::Unread,
        HeardFault::ReadFault => Missed::Wire,
        HeardFault::Memory => Missed::Memory,
    }
}

/// Writes a request, and reads its response and nothing behind it.
pub(crate) fn ask<L: Source + Sink>(
    alloc: Global,
    uid: u32,
    host: &str,
    request: &Request,
    link: &mut L,
) -> Result<Heard, Missed>
    requires sent { CanSend request.now }
    requires host { IsHost host.now }
    ensures { AsksOnce (request_sent uid host.now request.now) result (L.Told.told link.old) (L.Told.told link.new) }
{
    let Ok(text) = write_request(alloc, uid, host, request) else {
        return Err(Missed::Memory);
    };
    match write_all(link, text.as_slice()) {
        Ok(()) => {}
        Err(_) => return Err(Missed::Wire),
    }
    match read_response(alloc, link) {
        Ok(heard) => Ok(heard),
        Err(fault) => Err(missed_by(fault)),
    }
}
