//! What a row says of its id.

ghost use Rattle.std.specs.Prelude.{◌≡◌, ◌<◌, ℕ, List, not, if◌then◌else◌, Some, option_map, option_and_then, IfOk};
ghost use Rattle.std.specs.Prelude.{IfSome, is_some};
ghost use Rattle.serde_json.specs.Find.{as_object};
ghost use Rattle.serde_json.specs.View.{view, items_view};
ghost use Rattle.ss_bso.specs.Members.{json_of};
ghost use Rattle.ss_flat.specs.Joining.{sight_of};
ghost use Rattle.ss_flat.specs.Readings.{form_of, history_of, is_text, is_true, number_below, object_reading, reading};
ghost use Rattle.ss_flat.specs.Readings.{said_of, string_of, title_of, value_reading, visit_of, visits_in, visits_of};

use crate::kinds::{FlatKind, Sight};
use crate::visits::{Visit, Visits};
use serde_json::Value;
use ss_bso::Row;
use ss_text::{Word, count_decimals};
use std::alloc::{AllocError, Global};

/// The first number that has more than 18 digits.
const DATES_END: u64 = 1_000_000_000_000_000_000;

/// The first number that is no type of a visit.
const KINDS_END: u64 = 256;

/// What a record says: an address, a title and visits, or a name and a value.
#[derive(Drop, Debug)]
pub struct Said {
    pub first: Word,
    pub second: Word,
    pub visits: Visits,
}

/// What a row says of its id.
#[derive(Drop, Debug)]
pub enum Reading {
    /// A record.
    Record(Said),

    /// That it was deleted.
    Tombstone,

    /// Nothing that is understood.
    Skipped,
}

impl Reading {
    /// What becomes of the row.
    pub(crate) fn sight(&self) -> Sight
        ensures { result ≡ sight_of self.now }
    {
        match self {
            Reading::Record(_) | Reading::Tombstone => Sight::Taken,
            Reading::Skipped => Sight::Skipped,
        }
    }
}

/// The JSON value of a text; None exactly where it is no JSON.
fn parse(alloc: Global, text: &str) -> Result<Option<Value>, AllocError>
    ensures { IfOk result (λ value. option_map view value ≡ json_of text.now) }
{
    match Value::from_slice(alloc, text.as_bytes()) {
        Ok(value) => Ok(Some(value)),
        Err(error) if error.is_memory() => Err(AllocError),
        Err(_) => Ok(None),
    }
}

/// The string that a member is.
fn string_of(member: Option<&Value>) -> Option<&str>
    ensures { option_map (λ s. s.now) result ≡ string_of (option_map (λ v. view v.now) member.entry) }
{
    match member {
        Some(value) => value.as_str(),
        None => None,
    }
}

/// Whether a member is this string.
#[tactic(auto, unfolding(crate::specs::Readings::is_text))]
fn is_text(text: &str, member: Option<&Value>) -> bool
    ensures { result ≡ is_text text.now (option_map (λ v. view v.now) member.entry) }
{
    match string_of(member) {
        Some(string) => text == string,
        None => false,
    }
}

/// Whether a member is `true`.
#[tactic(auto, unfolding(crate::specs::Readings::is_true))]
fn is_true(member: Option<&Value>) -> bool
    ensures { result ≡ is_true (option_map (λ v. view v.now) member.entry) }
{
    matches!(member, Some(Value::Bool(true)))
}

/// A title: a string, null or absent.
#[tactic(auto, unfolding(crate::specs::Readings::title_of))]
fn title_of(member: Option<&Value>) -> Option<&str>
    ensures { option_map (λ s. s.now) result ≡ title_of (option_map (λ v. view v.now) member.entry) }
{
    match member {
        None => Some(""),
        Some(value) => if value.is_null() {
            Some("")
        } else {
            value.as_str()
        },
    }
}

/// A whole number from 0 that is below a limit.
#[tactic(auto, unfolding(crate::specs::Readings::number_below))]
fn number_below(limit: u64, member: Option<&Value>) -> Option<u64>
    ensures value { result ≡ number_below limit (option_map (λ v. view v.now) member.entry) }
    ensures below { IfSome result (λ n. n < limit) }
{
    match member {
        None => None,
        Some(value) => match value.as_u64() {
            Some(number) if number < limit => Some(number),
            _ => None,
        },
    }
}

#[tactic(auto, unfolding(crate::specs::Readings::visit_of))]
fn visit_of(value: &Value) -> Option<Visit>
    ensures { result ≡ visit_of (view value.now) }
{
    let date = number_below(DATES_END, value.get("date"))?;
    let kind = number_below(KINDS_END, value.get("type"))?;
    Some(Visit {
        date,
        kind: kind as u8,
    })
}

/// The visits of a list, each of which is one.
fn visits_in(alloc: Global, items: &Vec<Value>) -> Result<Option<Vec<Visit>>, AllocError>
    ensures { IfOk result (λ found. option_map (λ v. v.items) found ≡ visits_in (items_view items.now.items)) }
{
    let mut visits = Vec::with_capacity(alloc, items.len())?;
    for item in items {
        match visit_of(item) {
            Some(visit) => visits.push(visit)?,
            None => return Ok(None),
        }
    }
    Ok(Some(visits))
}

#[tactic(auto, unfolding(crate::specs::Readings::visits_of))]
fn visits_of(alloc: Global, member: Option<&Value>) -> Result<Option<Vec<Visit>>, AllocError>
    ensures { IfOk result (λ found. option_map (λ v. v.items) found ≡ visits_of (option_map (λ v. view v.now) member.entry)) }
{
    match member {
        Some(Value::Array(items)) => visits_in(alloc, items),
        _ => Ok(None),
    }
}

/// A text of one's own.
fn word(alloc: Global, text: &str) -> Result<Word, AllocError>
    ensures { IfOk result (λ w. w ≡ text.now) }
{
    Ok(Word::new(String::from_str(alloc, text)?))
}

/// A record of history.
#[tactic(auto, unfolding(crate::specs::Readings::history_of))]
fn history_of(alloc: Global, value: &Value) -> Result<Option<Said>, AllocError>
    ensures { IfOk result (λ said. said ≡ history_of (view value.now)) }
{
    let Some(address) = string_of(value.get("histUri")) else {
        return Ok(None);
    };
    let Some(title) = title_of(value.get("title")) else {
        return Ok(None);
    };
    let Some(visits) = visits_of(alloc, value.get("visits"))? else {
        return Ok(None);
    };
    Ok(Some(Said {
        first: word(alloc, address)?,
        second: word(alloc, title)?,
        visits: Visits::new(visits),
    }))
}

/// A record of forms.
#[tactic(auto, unfolding(crate::specs::Readings::form_of))]
fn form_of(alloc: Global, value: &Value) -> Result<Option<Said>, AllocError>
    ensures { IfOk result (λ said. said ≡ form_of (view value.now)) }
{
    let Some(name) = string_of(value.get("name")) else {
        return Ok(None);
    };
    let Some(text) = string_of(value.get("value")) else {
        return Ok(None);
    };
    Ok(Some(Said {
        first: word(alloc, name)?,
        second: word(alloc, text)?,
        visits: Visits::new(Vec::new(alloc)),
    }))
}

fn said_of(alloc: Global, kind: FlatKind, value: &Value) -> Result<Option<Said>, AllocError>
    ensures { IfOk result (λ said. said ≡ said_of kind (view value.now)) }
{
    match kind {
        FlatKind::History => history_of(alloc, value),
        FlatKind::Forms => form_of(alloc, value),
    }
}

/// What an object says of the id of its row.
#[tactic(auto, unfolding(crate::specs::Readings::object_reading))]
fn read_object(
    alloc: Global,
    kind: FlatKind,
    id: &str,
    value: &Value,
) -> Result<Reading, AllocError>
    ensures { IfOk result (λ r. r ≡ object_reading kind id.now (view value.now)) }
{
    if !is_text(id, value.get("id")) {
        return Ok(Reading::Skipped);
    }
    if is_true(value.get("deleted")) {
        return Ok(Reading::Tombstone);
    }
    match said_of(alloc, kind, value)? {
        Some(said) => Ok(Reading::Record(said)),
        None => Ok(Reading::Skipped),
    }
}

/// What a row says of its id (the rules are this project's, over the records of Firefox's history and forms). Of equal
/// members the last counts.
#[tactic(auto, unfolding(crate::specs::Readings::reading, crate::specs::Readings::value_reading))]
pub(crate) fn read_row(alloc: Global, kind: FlatKind, row: &Row) -> Result<Reading, AllocError>
    ensures { IfOk result (λ r. r ≡ reading kind row.now) }
{
    let payload = row.payload.as_str();
    if count_decimals(payload.as_bytes()) != 0 {
        return Ok(Reading::Skipped);
    }
    match parse(alloc, payload)? {
        Some(value) if value.is_object() => read_object(alloc, kind, row.id.as_str(), &value),
        _ => Ok(Reading::Skipped),
    }
}
