//! The records that the body of a POST gives.

ghost use Rattle.std.specs.Prelude.{◌≡◌, IfOk, OnOk, Some, [], map, is_some};
ghost use Rattle.serde_json.specs.View.{view};
ghost use Rattle.ss_bso.specs.Members.{parsed_body};
ghost use Rattle.ss_bso.specs.Bodies.{id_of, part_of, failed_of, records_of, json_records, records_of_text};
ghost use Rattle.ss_bso.specs.Bodies.{GivesRecords, Grows};
ghost use Rattle.ss_text.specs.Texts.{lines_of};
ghost use Rattle.ss_bso.specs.declared.bodies.BodyFault.TheVariants.{Memory};

use crate::members::{fields_in, parse};
use crate::parts::{Failures, Part, Parts, Reason, Records};
use serde_json::Value;
use ss_text::{Id, lines_in};
use std::alloc::{AllocError, Global};

/// Why the body of a POST gives no records.
#[derive(Clone, Copy, Debug, PartialEq, Eq)]
pub enum BodyFault {
    /// It is no JSON of at most 127 levels; in lines, the first bad line isn't.
    NotJson,

    /// It is JSON, but no list.
    NotList,

    /// The element at this place is the first that is no object with an id. Places count from 1.
    NoId { place: u64 },
    Memory,
}

impl From<AllocError> for BodyFault {
    ghost from_gives = { λ _ fault. fault ≡ Memory };

    fn from(_error: AllocError) -> BodyFault {
        BodyFault::Memory
    }
}

/// The records that were read so far.
#[derive(Drop)]
struct Gathering {
    parts: Vec<Part>,
    failed: Vec<(Id, Reason)>,
}

impl Gathering {
    fn new(alloc: Global) -> Gathering
        ensures parts { result.parts.items ≡ [] }
        ensures failed { result.failed.items ≡ [] }
    {
        Gathering {
            parts: Vec::new(alloc),
            failed: Vec::new(alloc),
        }
    }

    /// Adds an element; false where it has no id.
    fn add(&mut self, alloc: Global, value: Value) -> Result<bool, AllocError>
        ensures found { IfOk result (λ found. found ≡ is_some (id_of (view value))) }
        ensures parts { OnOk result (Grows self.old.parts.items self.new.parts.items (part_of (Some (view value)))) }
        ensures failed { OnOk result (Grows self.old.failed.items self.new.failed.items
            (failed_of (Some (view value)))) }
    {
        let id = match id_in(alloc, &value)? {
            Some(id) => id,
            None => return Ok(false),
        };
        match fields_in(value) {
            Ok(fields) => self.parts.push(Part { id, fields })?,
            Err(reason) => self.failed.push((id, reason))?,
        }
        Ok(true)
    }

    fn into_records(self) -> Records
        ensures parts { result.parts ≡ self.parts.items }
        ensures failed { result.failed ≡ self.failed.items }
    {
        Records {
            parts: Parts::new(self.parts),
            failed: Failures::new(self.failed),
        }
    }
}

#[tactic(auto, unfolding(crate::specs::Bodies::id_of))]
fn id_in(alloc: Global, value: &Value) -> Result<Option<Id>, AllocError>
    ensures { IfOk result (λ id. id ≡ id_of (view value.now)) }
{
    match value.get("id").and_then(Value::as_str) {
        Some(text) => Id::new(alloc, text.as_bytes()),
        None => Ok(None),
    }
}

fn records_in(alloc: Global, values: Vec<Value>) -> Result<Records, BodyFault>
    ensures { GivesRecords result (records_of (map (λ value. Some (view value)) values.items)) }
{
    let mut gathering = Gathering::new(alloc);
    let mut place = 0u64;
    for value in values {
        place += 1;
        if !gathering.add(alloc, value)? {
            return Err(BodyFault::NoId { place });
        }
    }
    Ok(gathering.into_records())
}

fn records_in_lines(alloc: Global, lines: &[&[u8]]) -> Result<Records, BodyFault>
    ensures { GivesRecords result (records_of (map (λ line. parsed_body line.now) lines.now)) }
{
    let mut gathering = Gathering::new(alloc);
    let mut place = 0u64;
    for line in lines {
        place += 1;
        let Some(value) = parse(alloc, line)? else {
            return Err(BodyFault::NotJson);
        };
        if !gathering.add(alloc, value)? {
            return Err(BodyFault::NoId { place });
        }
    }
    Ok(gathering.into_records())
}

fn read_list(alloc: Global, body: &[u8]) -> Result<Records, BodyFault>
    ensures { GivesRecords result (json_records (parsed_body body.now)) }
{
    let value = parse(alloc, body)?.ok_or(BodyFault::NotJson)?;
    match value {
        Value::Array(values) => records_in(alloc, values),
        _ => Err(BodyFault::NotList),
    }
}

fn read_lines(alloc: Global, body: &[u8]) -> Result<Records, BodyFault>
    ensures { GivesRecords result (records_of (map parsed_body (lines_of body.now))) }
{
    let lines = lines_in(alloc, body)?;
    records_in_lines(alloc, lines.as_slice())
}

/// The records that the body of a POST gives, a JSON list, or one object a line with empty lines dropped. A record
/// whose fields are out of form is among the failed ones, with its first reason (SyncStorage API 1.5). Each fault but
/// want of memory comes exactly by its rule; in lines the earlier bad line decides.
#[tactic(auto, unfolding(crate::specs::Bodies::records_of_text))]
pub fn read_parts(alloc: Global, body: &[u8], lines: bool) -> Result<Records, BodyFault>
    ensures { GivesRecords result (records_of_text lines body.now) }
{
    if lines {
        read_lines(alloc, body)
    } else {
        read_list(alloc, body)
    }
}
