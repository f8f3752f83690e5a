//! Types of bodies, and what the bodies of PUT and POST give.

ghost use Rattle.std.specs.Prelude.{◌≡◌, option_map};
ghost use Rattle.std.specs.Str.{str_eq_ignore_ascii_case};
ghost use Rattle.ss_route.specs.Bodies.{is_coded, lines_of_type, lines_of_field, is_in_lines, fields_in, within_limits};
ghost use Rattle.ss_route.specs.Bodies.{records_in};
ghost use Rattle.ss_route.specs.Refusals.{Settles, reason_refusal, fields_refusal, body_refusal};

use crate::cuts::is_same;
use crate::fields::without_parameters;
use crate::routed::{Local, Stop, code, said};
use ss_bso::limits::MOST_POST_RECORDS;
use ss_bso::{BodyFault, Fields, FieldsFault, Reason, Records, read_fields, read_parts};
use ss_http::FieldLines;
use ss_query::{Said, are_within_post};
use std::alloc::Global;

fn is_coded(fields: &FieldLines) -> bool
    ensures { result ≡ is_coded fields.now }
{
    match fields.first("Content-Encoding") {
        Some(coding) => !is_same(coding, b"identity"),
        None => false,
    }
}

fn is_type(value: &[u8], name: &str) -> bool
    ensures { result ≡ str_eq_ignore_ascii_case value.now name.now }
{
    value.eq_ignore_ascii_case(name.as_bytes())
}

/// Whether a body of this type is one object a line; None where the type isn't read.
#[tactic(auto, unfolding(crate::specs::Bodies::lines_of_type))]
fn lines_of_type(posts: bool, value: &[u8]) -> Option<bool>
    ensures { result ≡ lines_of_type posts value.now }
{
    if is_type(value, "application/json") || is_type(value, "text/plain") {
        Some(false)
    } else if posts && is_type(value, "application/newlines") {
        Some(true)
    } else {
        None
    }
}

fn lines_of_field(posts: bool, value: Option<&[u8]>) -> Option<bool>
    ensures { result ≡ lines_of_field posts (option_map (λ bytes. bytes.now) value.entry) }
{
    match value {
        Some(value) => lines_of_type(posts, without_parameters(value)),
        None => Some(false),
    }
}

/// Whether a body is one object a line.
#[tactic(auto, unfolding(crate::specs::Bodies::is_in_lines))]
pub fn is_in_lines(posts: bool, fields: &FieldLines) -> Result<bool, Stop>
    ensures { Settles result (is_in_lines posts fields.now) }
{
    if is_coded(fields) {
        return Err(Stop::Refused(said(415, Said::Type)));
    }
    match lines_of_field(posts, fields.first("Content-Type")) {
        Some(lines) => Ok(lines),
        None => Err(Stop::Refused(said(415, Said::Type))),
    }
}

fn reason_refusal(reason: Reason) -> Local
    ensures { result ≡ reason_refusal reason }
{
    match reason {
        Reason::TooLarge => code(17),
        Reason::Payload | Reason::Sortindex | Reason::Ttl => code(8),
    }
}

/// The fields that the body of a PUT gives.
#[tactic(auto, unfolding(crate::specs::Bodies::fields_in))]
pub fn fields_in(alloc: Global, body: &[u8]) -> Result<Fields, Stop>
    ensures { Settles result (fields_in body.now) }
{
    match read_fields(alloc, body) {
        Ok(fields) => Ok(fields),
        Err(FieldsFault::NotJson) => Err(Stop::Refused(code(6))),
        Err(FieldsFault::NotObject) => Err(Stop::Refused(code(8))),
        Err(FieldsFault::Bad(reason)) => Err(Stop::Refused(reason_refusal(reason))),
        Err(FieldsFault::Memory) => Err(Stop::Memory),
    }
}

fn within_limits(records: Records) -> Result<Records, Stop>
    ensures { Settles result (within_limits records) }
{
    let parts = records.parts.as_slice();
    let good = parts.len() as u64;
    let failed = records.failed.as_slice().len() as u64;
    if good <= MOST_POST_RECORDS && failed <= MOST_POST_RECORDS - good && are_within_post(parts) {
        Ok(records)
    } else {
        Err(Stop::Refused(code(17)))
    }
}

/// The records that the body of a POST gives.
#[tactic(auto, unfolding(crate::specs::Bodies::records_in))]
pub fn records_in(alloc: Global, lines: bool, body: &[u8]) -> Result<Records, Stop>
    ensures { Settles result (records_in lines body.now) }
{
    match read_parts(alloc, body, lines) {
        Ok(records) => within_limits(records),
        Err(BodyFault::NotJson) => Err(Stop::Refused(code(6))),
        Err(BodyFault::NotList | BodyFault::NoId { .. }) => Err(Stop::Refused(code(8))),
        Err(BodyFault::Memory) => Err(Stop::Memory),
    }
}
