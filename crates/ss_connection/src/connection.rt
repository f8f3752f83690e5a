//! A connection: the messages of a link, answered one after the other.

ghost use Rattle.std.specs.Prelude.{◌≡◌, ◌<◌};
ghost use Rattle.ss_desk.specs.Journal.{Begins};
ghost use Rattle.ss_desk.specs.Passes.{AreOf};
ghost use Rattle.ss_town.specs.Town.{uids_of, desks_of, passes_of};
ghost use Rattle.ss_connection.specs.Known.{known_by, SeeMore};
ghost use Rattle.ss_connection.specs.Calls.{turns_added, Enters};
ghost use Rattle.ss_connection.specs.Turns.{closes, AreGatedTurns};
ghost use Rattle.ss_connection.specs.Ends.{IsServedConnection};
ghost use Rattle.ss_connection.specs.Progress.{end_of, Stops};

use crate::answering::answer;
use crate::limits::MOST_MESSAGES;
use crate::notes::{End, TurnNote};
use ss_booked::Booked;
use ss_http::{Buffer, Message, MsgFault, read_message};
use ss_keeper::Keeper;
use ss_links::Gate;
use ss_outside::{Clock, Sink, Source};
use ss_route::{Manner, Response, refused};
use ss_town::{Passes, Town};
use std::alloc::Global;
use std::sync::Wait;

/// Whether the response to a message closes, before which so many were answered, and of which the gate says this.
fn closes(count: u64, message: &Message, by_gate: bool) -> bool
    requires { count < MOST_MESSAGES }
    ensures { result ≡ closes count message.now by_gate }
{
    message.last || by_gate || count + 1 == MOST_MESSAGES
}

/// The end to which a fault leads that isn't answered.
fn end_of(fault: MsgFault) -> End
    ensures { result ≡ end_of fault }
{
    match fault {
        MsgFault::End => End::Closed,
        MsgFault::Cut => End::Cut,
        MsgFault::ReadFault => End::ReadFault,
        _ => End::Memory,
    }
}

/// Ends a connection whose next bytes have a fault: those that are no message are answered by a refusal, which takes a
/// reading.
fn stop<L: Sink, C: Clock>(alloc: Global, fault: MsgFault, link: &mut L, clock: &mut C) -> End
    ensures { Stops result fault (L.Told.told link.old) (L.Told.told link.new) (C.coming clock.old)
        (C.coming clock.new) }
{
    let Some(local) = refused(fault) else {
        return end_of(fault);
    };
    let now = clock.now();
    match Response::to_local(alloc, &local, now, true).write(link) {
        Ok(()) => End::BadMessage { now },
        Err(_) => End::WriteFault,
    }
}

/// Answers the messages of a link, whose conditions are read in this manner, one reading of the clock and one turn
/// each, until one of the connection's ends. The worker passes the gate with its own number and the number of the
/// message, both from 0, after each message was read; where the gate says that the response closes, it is the last one.
/// The turns are added to those that are there. Nothing is said of
/// how long a worker waits for its turn at an account.
pub fn serve_connection<L: Source + Sink, C: Clock, K: Keeper + Drop, G: Gate, R: Wait>(
    rt: &R,
    alloc: Global,
    manner: Manner,
    link: &mut L,
    clock: &mut C,
    gate: &G,
    worker: u32,
    town: &Town<Booked<K>>,
    passes: &mut Passes<Booked<K>>,
    turns: &mut Vec<TurnNote>,
) -> End
    requires of { AreOf (desks_of town.now) (passes_of passes.old) }
    // The passes still are of the town. They have seen more, and their numbers, books and covered numbers are as
    // before.
    ensures of { AreOf (desks_of town.now) (passes_of passes.new) }
    ensures more { SeeMore (passes_of passes.old) (passes_of passes.new) }
    // Turns were added, and none was changed.
    ensures noted { Begins turns.old.items turns.new.items }
    // What was taken, what was written, and why it ended, over what the passes have then seen.
    ensures served { IsServedConnection manner (uids_of town.now) (known_by (passes_of passes.new)) result (L.Told.told link.old)
        (L.Told.told link.new)
        (C.coming clock.old) (C.coming clock.new) (turns_added turns.old.items turns.new.items) }
    // Of each response the gate was asked whether it closes, by the worker's number and the message's.
    ensures gated { AreGatedTurns (G.says gate.now worker) (turns_added turns.old.items turns.new.items) }
    // The passes' new entries are those of the calls, in order, account by account.
    ensures enters { Enters (uids_of town.now) (passes_of passes.old) (passes_of passes.new)
        (turns_added turns.old.items turns.new.items) }
{
    let Ok(mut buffer) = Buffer::new(alloc) else {
        return End::Memory;
    };
    'messages: for count in 0..MOST_MESSAGES {
        if turns.reserve(1).is_err() {
            return End::Memory;
        }
        let message = match read_message(alloc, &mut buffer, link) {
            Ok(message) => message,
            Err(fault) => return stop(alloc, fault, link, clock),
        };
        let now = clock.now();
        let closed_by_gate = gate.pass(worker, count);
        let last = closes(count, &message, closed_by_gate);
        let (turn, response) = answer(rt, alloc, manner, gate, town, passes, now, last, &message);
        turns.push_reserved(TurnNote {
            now,
            closed_by_gate,
            turn,
        });
        match response.write(link) {
            Ok(()) => {}
            Err(_) => return End::WriteFault,
        }
        if message.last {
            return End::Asked;
        }
        if closed_by_gate {
            return End::Gate;
        }
    }
    End::Count
}
