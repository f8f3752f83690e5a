//! The turn for one message.

ghost use Rattle.std.specs.Prelude.{◌≡◌, ◌∷◌, [], Bool};
ghost use Rattle.ss_desk.specs.Passes.{AreOf};
ghost use Rattle.ss_town.specs.Town.{uids_of, desks_of, passes_of};
ghost use Rattle.ss_connection.specs.Known.{known_by, SeeMore};
ghost use Rattle.ss_route.specs.Ready.{bytes_of};
ghost use Rattle.ss_connection.specs.Calls.{Enters};
ghost use Rattle.ss_connection.specs.Turns.{SaysTurn, term_is_full};

use crate::notes::Turn;
use ss_booked::{Asked, Booked};
use ss_http::Message;
use ss_keeper::Keeper;
use ss_links::Gate;
use ss_query::{Body, Said};
use ss_route::{Local, Manner, Response, Routed, not_listed, route};
use ss_town::{Answer, Passes, Town};
use std::alloc::Global;
use std::sync::Wait;

/// What a client is told whose account's journal has no room for one more call in this term (this project).
fn term_is_full() -> Local
    ensures { result ≡ term_is_full }
{
    Local {
        status: 503,
        body: Body::Said(Said::Term),
        allow: None,
    }
}

/// Tells the gate where a journal is more than half full.
fn tell_filling<G: Gate>(gate: &G, half_full: bool) {
    if half_full {
        gate.fills();
    }
}

/// Asks the account of a message that was read at a reading of the clock (hundredths of a second), where routing in
/// this manner finds one. The response is made after the call, so that no other caller waits for it; `last` closes the
/// connection. The gate is told of a journal that is full, or more than half full.
pub(crate) fn answer<K: Keeper + Drop, G: Gate, R: Wait>(
    rt: &R,
    alloc: Global,
    manner: Manner,
    gate: &G,
    town: &Town<Booked<K>>,
    passes: &mut Passes<Booked<K>>,
    now: u64,
    last: bool,
    message: &Message,
) -> (Turn, Response)
    requires of { AreOf (desks_of town.now) (passes_of passes.old) }
    ensures of { AreOf (desks_of town.now) (passes_of passes.new) }
    ensures more { SeeMore (passes_of passes.old) (passes_of passes.new) }
    ensures says { SaysTurn manner (uids_of town.now) (known_by (passes_of passes.new)) message.now now last result.0
        (bytes_of result.1) }
    ensures enters { (by_gate : Bool) → Enters (uids_of town.now) (passes_of passes.old) (passes_of passes.new)
        (record { now = now; closed_by_gate = by_gate; turn = result.0 } ∷ []) }
{
    let (uid, request, newlines) = match route(alloc, manner, message) {
        Routed::Memory => return (Turn::Memory, Response::unread(now, last)),
        Routed::Local(local) => {
            return (Turn::Local, Response::to_local(alloc, &local, now, last));
        }
        Routed::Ask {
            uid,
            request,
            newlines,
        } => (uid, request, newlines),
    };
    match town.ask(rt, passes, uid, Asked { now, request }) {
        Answer::Reply {
            ticket,
            reply: answered,
        } => {
            tell_filling(gate, answered.half_full);
            (
                Turn::Call { uid, ticket },
                Response::to_reply(alloc, &answered.reply, newlines, last),
            )
        }
        Answer::NoAccount => (
            Turn::Local,
            Response::to_local(alloc, &not_listed(), now, last),
        ),
        Answer::Full(full) => {
            gate.fills();
            (
                Turn::Full {
                    uid,
                    entries: full.entries,
                    bytes: full.bytes,
                },
                Response::to_local(alloc, &term_is_full(), now, last),
            )
        }
    }
}
