//! The record of an item that is shown.

ghost use Rattle.std.specs.Prelude.{◌≡◌, List, IfOk};
ghost use Rattle.serde_json.specs.Data.{array, number, string, unsigned};
ghost use Rattle.serde_json.specs.View.{view};
ghost use Rattle.ss_flat.specs.declared.kinds.FlatKind.TheVariants.{Forms, History};
ghost use Rattle.ss_flat.specs.declared.visits.Visit.{Visit as VisitView};
ghost use Rattle.ss_flat.specs.Texts.{record_data, record_text, visit_data, visit_items};

use crate::face::Face;
use crate::kinds::FlatKind;
use crate::visits::Visit;
use serde_json::{Map, Number, Value};
use ss_record::with_member;
use ss_text::{Id, Word};
use std::alloc::{AllocError, Global};

fn text(alloc: Global, text: &str) -> Result<Value, AllocError>
    ensures { IfOk result (λ v. view v ≡ string text.now) }
{
    Ok(Value::String(String::from_str(alloc, text)?))
}

fn number(value: u64) -> Value
    ensures { view result ≡ number (unsigned value) }
{
    Value::Number(Number::from(value))
}

fn visit_value(alloc: Global, visit: Visit) -> Result<Value, AllocError>
    ensures { IfOk result (λ v. view v ≡ visit_data visit) }
{
    let members = with_member(
        alloc,
        Map::new(alloc),
        "type",
        number(u64::from(visit.kind)),
    )?;
    let members = with_member(alloc, members, "date", number(visit.date))?;
    Ok(Value::Object(members))
}

fn visit_list(alloc: Global, visits: &[Visit]) -> Result<Value, AllocError>
    ensures { IfOk result (λ v. view v ≡ array (visit_items visits.now)) }
{
    let mut items = Vec::with_capacity(alloc, visits.len())?;
    for visit in visits {
        items.push(visit_value(alloc, *visit)?)?;
    }
    Ok(Value::Array(items))
}

/// The record of a page: its address, its title and its visits.
#[tactic(auto, unfolding(crate::specs::Texts::record_data))]
fn page(alloc: Global, id: &Id, face: &Face, visits: &[Visit]) -> Result<Value, AllocError>
    ensures { IfOk result (λ v. view v ≡ record_data History id.now face.now visits.now) }
{
    let members = with_member(alloc, Map::new(alloc), "visits", visit_list(alloc, visits)?)?;
    let members = with_member(alloc, members, "title", text(alloc, face.second.as_str())?)?;
    let members = with_member(alloc, members, "id", text(alloc, id.as_str())?)?;
    let members = with_member(alloc, members, "histUri", text(alloc, face.first.as_str())?)?;
    Ok(Value::Object(members))
}

/// The record of what was entered in a form: its name and its value.
#[tactic(auto, unfolding(crate::specs::Texts::record_data))]
fn form(alloc: Global, id: &Id, face: &Face) -> Result<Value, AllocError>
    ensures { IfOk result (λ v. (visits : List VisitView) → view v ≡ record_data Forms id.now face.now visits) }
{
    let members = with_member(
        alloc,
        Map::new(alloc),
        "value",
        text(alloc, face.second.as_str())?,
    )?;
    let members = with_member(alloc, members, "name", text(alloc, face.first.as_str())?)?;
    let members = with_member(alloc, members, "id", text(alloc, id.as_str())?)?;
    Ok(Value::Object(members))
}

/// The record of an item.
fn record(
    alloc: Global,
    kind: FlatKind,
    id: &Id,
    face: &Face,
    visits: &[Visit],
) -> Result<Value, AllocError>
    ensures { IfOk result (λ v. view v ≡ record_data kind id.now face.now visits.now) }
{
    match kind {
        FlatKind::History => page(alloc, id, face, visits),
        FlatKind::Forms => form(alloc, id, face),
    }
}

/// The record of an item as compact JSON, its members upwards by name.
#[tactic(auto, unfolding(crate::specs::Texts::record_text))]
pub(crate) fn record_text(
    alloc: Global,
    kind: FlatKind,
    id: &Id,
    face: &Face,
    visits: &[Visit],
) -> Result<Word, AllocError>
    ensures { IfOk result (λ t. t ≡ record_text kind id.now face.now visits.now) }
{
    let record = record(alloc, kind, id, face, visits)?;
    Ok(Word::new(record.to_string(alloc)?))
}
