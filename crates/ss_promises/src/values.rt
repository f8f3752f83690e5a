//! What the types of requests, accounts and replies say of their values.

ghost use Rattle.std.specs.Prelude.{ℕ};
ghost use Rattle.std.specs.List.{AllByRecursion};
ghost use Rattle.ss_bso.specs.declared.account.Plain.{Plain};
ghost use Rattle.ss_bso.specs.Account.{tick};
ghost use Rattle.ss_http.specs.Requests.{IsCond};
ghost use Rattle.ss_query.specs.declared.requests.Request.{Request as Asked};
ghost use Rattle.ss_query.specs.Api.{api};
ghost use Rattle.ss_query.specs.Fit.{IsFitRequest};
ghost use Rattle.ss_route.specs.Sending.{IsReadable, IsSentRequest, HasTypes};
ghost use Rattle.ss_route.specs.Wire.{IsReply};
ghost use Rattle.ss_serving.specs.Typed.{IsTypedReply};
ghost use Rattle.ss_promises.specs.Values.{IsTypedAccount, IsTypedAsk, IsTypedPart, StaysTyped};

use ss_bso::{Field, Part};
use ss_query::Request;
use ss_text::Cond;

/// The id of a record has the form of one, and the payload that it sets is a text.
fn part_is_typed(part: &Part)
    ensures { IsTypedPart part.now }
{
    let _id = part.id.as_str();
    match &part.fields.payload {
        Field::Set(text) => {
            let _bytes = text.as_str().as_bytes();
        }
        Field::Keep | Field::Clear => {
            let _bytes = "".as_bytes();
        }
    }
}

fn parts_are_typed(parts: &[Part])
    ensures { AllByRecursion IsTypedPart parts.now }
{
    for part in parts {
        part_is_typed(part);
    }
}

/// The time of a condition is one.
fn condition_is_typed(cond: Cond)
    ensures { IsCond cond }
{
    match cond {
        Cond::IfModified(since) | Cond::IfUnmodified(since) => {
            let _time = since.get();
        }
        Cond::Free | Cond::IfAbsent => {}
    }
}

/// Every request has the values of its types: the ids of a POST's records have the form of ids, their payloads are
/// texts, and the times of a condition and of a page of newer records are times.
pub fn requests_are_typed(request: &Request)
    ensures { HasTypes request.now }
{
    match request {
        Request::List { query, cond, .. } => {
            if let Some(newer) = query.newer {
                let _time = newer.get();
            }
            condition_is_typed(*cond);
        }
        Request::Post { records, cond, .. } => {
            parts_are_typed(records.parts.as_slice());
            condition_is_typed(*cond);
        }
        _ => {}
    }
}

/// The reply to what a sync asks has the numbers and texts of its types, where the account has those of its own:
/// nothing in it is greater than its type holds, its ids have the form of ids, its payloads are texts, and a batch's
/// number is one that is given out.
pub fn replies_are_typed()
    ensures { (account : Plain) (now : ℕ) (request : Asked) → IsTypedAccount account → IsSentRequest request → HasTypes request
        → IsReadable request → IsFitRequest request → IsReply (api account now request).reply
        × IsTypedReply (api account now request).reply }
{}

/// An account whose values are those of their types stays so, whatever request is asked whose records have theirs, and
/// whatever the clock reads.
pub fn accounts_stay_typed()
    ensures typed { (account : Plain) → StaysTyped account → IsTypedAccount account }
    ensures asked { (account : Plain) (now : ℕ) (request : Asked) → StaysTyped account → IsFitRequest request
        → IsTypedAsk request → StaysTyped (api account now request).account }
    ensures read { (account : Plain) (now : ℕ) → StaysTyped account → StaysTyped (tick account now) }
{}
