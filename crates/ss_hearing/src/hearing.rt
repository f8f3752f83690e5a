//! From a response to the answer that it is.

ghost use Rattle.std.specs.Prelude.{◌≡◌, IfOk, OnErr, Some, None, option_map};
ghost use Rattle.json.specs.Value.{value_view};
ghost use Rattle.ss_hearing.specs.Hearing.{status_of, time_of, unawaited_answer, page_of, answer_or_failure, held_of};
ghost use Rattle.ss_hearing.specs.Hearing.{written_of};
ghost use Rattle.ss_hearing.specs.Hearing.{understood, answer_of};

use crate::answer::{Answer, Awaited};
use crate::bodies::{read, stamp_in};
use crate::limits::limits_of;
use crate::lists::{ids_of, next_of, rows_of};
use crate::posts::{batch_in, failure_in};
use json::{Scratch, Value};
use ss_http::Heard;
use ss_text::{Id, Stamp};
use std::alloc::{AllocError, Global};

/// The time that a response says, 0 where it says none.
fn time_of(heard: &Heard) -> Stamp
    ensures { result ≡ time_of heard.now }
{
    match heard.modified {
        Some(time) => time,
        None => Stamp::clamp(0),
    }
}

/// Another status than the awaited one.
fn unawaited(awaited: Awaited, heard: &Heard) -> Answer
    ensures { result ≡ unawaited_answer awaited heard.now }
{
    if awaited.is_conditional() && heard.status == 412 {
        Answer::Changed(time_of(heard))
    } else {
        Answer::Refused(heard.status)
    }
}

fn page_of(
    alloc: Global,
    heard: &Heard,
    time: Stamp,
    value: &Value,
) -> Result<Option<Answer>, AllocError>
    ensures { IfOk result (λ answer. answer ≡ page_of heard.now time (value_view value.now)) }
{
    let Some(rows) = rows_of(alloc, value)? else {
        return Ok(None);
    };
    match next_of(heard.next.as_ref()) {
        Some(next) => Ok(Some(Answer::Paged { rows, next, time })),
        None => Ok(None),
    }
}

/// What a POST is told, or its first failed record.
fn answer_with(status: u16, failure: Option<Id>, answer: Answer) -> Answer
    ensures { result ≡ answer_or_failure status failure answer }
{
    match failure {
        Some(id) => Answer::Failed { status, id },
        None => answer,
    }
}

fn held_of(alloc: Global, value: &Value) -> Result<Option<Answer>, AllocError>
    ensures { IfOk result (λ answer. answer ≡ held_of (value_view value.now)) }
{
    let Some(failure) = failure_in(alloc, value)? else {
        return Ok(None);
    };
    match batch_in(alloc, value)? {
        Some(batch) => Ok(Some(answer_with(202, failure, Answer::Held(batch)))),
        None => Ok(None),
    }
}

fn written_of(alloc: Global, value: &Value) -> Result<Option<Answer>, AllocError>
    ensures { IfOk result (λ answer. answer ≡ written_of (value_view value.now)) }
{
    let Some(failure) = failure_in(alloc, value)? else {
        return Ok(None);
    };
    match stamp_in(value, "modified") {
        Some(time) => Ok(Some(answer_with(200, failure, Answer::Written(time)))),
        None => Ok(None),
    }
}

/// What a body in the form that is awaited says.
#[tactic(auto, unfolding(crate::specs::Hearing::understood))]
fn understood(
    alloc: Global,
    awaited: Awaited,
    heard: &Heard,
    value: &Value,
) -> Result<Option<Answer>, AllocError>
    ensures { IfOk result (λ answer. answer ≡ understood awaited heard.now (value_view value.now)) }
{
    match awaited {
        Awaited::Configuration => Ok(limits_of(value).map(Answer::Configured)),
        Awaited::FirstPage => match heard.modified {
            Some(time) => page_of(alloc, heard, time, value),
            None => Ok(None),
        },
        Awaited::LaterPage => page_of(alloc, heard, time_of(heard), value),
        Awaited::AllIds => Ok(ids_of(alloc, value)?.map(Answer::Listed)),
        Awaited::Staging => held_of(alloc, value),
        Awaited::Writing => written_of(alloc, value),
    }
}

/// The answer that a response is to what was asked (SyncStorage API 1.5): the status is looked at first, then the body
/// and the fields. One with the awaited status that isn't in the form of such a reply is `Unread` (this project). Only
/// such a one takes memory.
#[tactic(auto, unfolding(crate::specs::Hearing::answer_of))]
pub fn hear(alloc: Global, awaited: Awaited, heard: &Heard) -> Result<Answer, AllocError>
    ensures answer { IfOk result (λ answer. answer ≡ answer_of awaited heard.now) }
    ensures wanting { OnErr result (heard.now.status ≡ status_of awaited) }
{
    if heard.status != awaited.status() {
        return Ok(unawaited(awaited, heard));
    }
    let mut scratch = Scratch::new(alloc);
    let Some(value) = read(alloc, heard.body.as_slice(), &mut scratch)? else {
        return Ok(Answer::Unread);
    };
    match understood(alloc, awaited, heard, &value)? {
        Some(answer) => Ok(answer),
        None => Ok(Answer::Unread),
    }
}
