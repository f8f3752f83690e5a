//! The command `answer`: the messages of an input, answered one after the other.

ghost use Rattle.std.specs.Prelude.{◌≡◌, ◌≤◌, ◌<◌, IfSome};
ghost use Rattle.ss_bso.specs.declared.account.Plain.{Plain};
ghost use Rattle.ss_bso.specs.Validity.{IsValid};
ghost use Rattle.ss_query.specs.Fit.{IsFitRequest};
ghost use Rattle.ss_route.specs.Ready.{bytes_of};
ghost use Rattle.ss_run_answer.specs.Turns.{AnswersInput, IsReading, IsTurn, Stops, asked_by_message, asks, told};
ghost use Rattle.ss_run_answer.specs.Turns.{closes, ending_of};

use crate::endings::Ending;
use ss_account::Account;
use ss_bso::Kept;
use ss_http::{Buffer, Message, MsgFault, read_message};
use ss_keeper::SureKeeper;
use ss_outside::{Clock, Sink, Source};
use ss_query::Request;
use ss_route::{Local, Manner, Response, Routed, not_listed, refused, route};
use ss_words::AnswerCommand;
use std::alloc::Global;

/// How many messages one run answers.
const MOST: u64 = 1_000_000;

/// The next reading of the clock of a run (hundredths of a second), of which `count` were taken.
fn reading<C: Clock>(at: Option<u64>, count: u64, clock: &mut C) -> u64
    requires first { IfSome at (λ first. first ≤ 999999999999) }
    requires count { count ≤ MOST }
    ensures reading { IsReading at count result (C.coming clock.old) (C.coming clock.new) }
    ensures unread { IfSome at (λ _. clock.new ≡ clock.old) }
{
    match at {
        Some(first) => first + count,
        None => clock.now(),
    }
}

/// Whether a response closes, before which so many messages were answered.
fn closes(count: u64, message: &Message) -> bool
    requires { count < MOST }
    ensures { result ≡ closes count message.now }
{
    message.last || count + 1 == MOST
}

/// Asks the account, and makes the response to its reply.
fn ask(
    alloc: Global,
    account: &mut Account<SureKeeper>,
    now: u64,
    last: bool,
    request: &Request,
    newlines: bool,
) -> Response
    requires { IsFitRequest request.now }
    ensures turn { IsTurn (asks request.now newlines) now last account.old.plain account.new.plain (bytes_of result) }
    ensures valid { IsValid account.new.plain }
{
    let reply = account.step(alloc, now, request);
    account.keeper().never_fails();
    Response::to_reply(alloc, &reply, newlines, last)
}

/// The response to what is told at once.
fn tell(alloc: Global, local: &Local, now: u64, last: bool) -> Response
    ensures { (account : Plain) → IsTurn (told local.now) now last account account (bytes_of result) }
{
    Response::to_local(alloc, local, now, last)
}

/// Makes what a message asks of the account, and the response.
fn respond(
    alloc: Global,
    uid: u32,
    now: u64,
    last: bool,
    account: &mut Account<SureKeeper>,
    message: &Message,
) -> Response
    requires { IsValid account.old.plain }
    ensures turn { IsTurn (asked_by_message uid message.now) now last account.old.plain account.new.plain (bytes_of result) }
    ensures valid { IsValid account.new.plain }
{
    match route(alloc, Manner::Profile, message) {
        Routed::Memory => Response::unread(now, last),
        Routed::Local(local) => tell(alloc, &local, now, last),
        Routed::Ask {
            uid: other,
            request,
            newlines,
        } => {
            if other == uid {
                ask(alloc, account, now, last, &request, newlines)
            } else {
                tell(alloc, &not_listed(), now, last)
            }
        }
    }
}

fn ending_of(fault: MsgFault) -> Ending
    ensures { result ≡ ending_of fault }
{
    match fault {
        MsgFault::End => Ending::End,
        MsgFault::Cut => Ending::Cut,
        MsgFault::ReadFault => Ending::Input,
        MsgFault::Memory => Ending::Memory,
        MsgFault::BadHead
        | MsgFault::HeadTooLong
        | MsgFault::Coded
        | MsgFault::BadLength
        | MsgFault::TooLarge { .. } => Ending::Refused,
    }
}

/// Ends a run whose next message has a fault; bytes that are no message are answered by a refusal.
fn stop<T: Sink, C: Clock>(
    alloc: Global,
    at: Option<u64>,
    count: u64,
    fault: MsgFault,
    output: &mut T,
    clock: &mut C,
) -> Ending
    requires first { IfSome at (λ first. first ≤ 999999999999) }
    requires count { count ≤ MOST }
    ensures stops { Stops result fault at count (T.Told.told output.old) (T.Told.told output.new) (C.coming clock.old)
        (C.coming clock.new) }
    ensures unread { IfSome at (λ _. clock.new ≡ clock.old) }
{
    let Some(local) = refused(fault) else {
        return ending_of(fault);
    };
    let now = reading(at, count, clock);
    match Response::to_local(alloc, &local, now, true).write(output) {
        Ok(()) => Ending::Refused,
        Err(_) => Ending::Output,
    }
}

/// Answers the messages of the input for one account, from a fresh one on. The clock counts upwards from the first
/// reading that is given (hundredths of a second), or is the one that is handed in.
pub fn answer<S: Source, T: Sink, C: Clock>(
    alloc: Global,
    command: AnswerCommand,
    input: &mut S,
    output: &mut T,
    clock: &mut C,
) -> Ending
    requires { IfSome command.at (λ first. first ≤ 999999999999) }
    ensures answered { AnswersInput command.uid command.at result (S.Told.told input.old) (S.Told.told input.new)
        (T.Told.told output.old) (T.Told.told output.new) (C.coming clock.old) (C.coming clock.new) }
    ensures unread { IfSome command.at (λ _. clock.new ≡ clock.old) }
{
    let Ok(mut buffer) = Buffer::new(alloc) else {
        return Ending::Memory;
    };
    let keeper = SureKeeper::new(Kept::fresh(alloc));
    let Ok(mut account) = Account::open(alloc, keeper) else {
        return Ending::Memory;
    };
    let mut count: u64 = 0;
    'turns: while count < MOST {
        let message = match read_message(alloc, &mut buffer, input) {
            Ok(message) => message,
            Err(fault) => return stop(alloc, command.at, count, fault, output, clock),
        };
        let now = reading(command.at, count, clock);
        let last = closes(count, &message);
        let response = respond(alloc, command.uid, now, last, &mut account, &message);
        match response.write(output) {
            Ok(()) => {}
            Err(_) => return Ending::Output,
        }
        count += 1;
        if message.last {
            return Ending::Asked;
        }
    }
    Ending::Count
}
