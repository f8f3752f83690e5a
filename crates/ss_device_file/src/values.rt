//! Lines as JSON values.

ghost use Rattle.std.specs.Prelude.{◌≡◌, IfOk, option_map, option_and_then};
ghost use Rattle.std.specs.Str.{IsUtf8};
ghost use Rattle.serde_json.specs.Read.{read};
ghost use Rattle.serde_json.specs.Find.{get_item};
ghost use Rattle.serde_json.specs.View.{items_view, view};
ghost use Rattle.ss_device_file.specs.Values.{dead_from, head_from, id_at, line_from, line_in, number_at, row_from};
ghost use Rattle.ss_device_file.specs.Values.{stamp_at, synced_from, device_line_of_tag, text_at, time_at};

use crate::lines::{Line, Version};
use serde_json::Value;
use ss_record::Sheet;
use ss_text::{Id, Stamp, Word, read_stamp};
use std::alloc::{AllocError, Global};

/// What stands at a place of a list.
fn part_at(parts: &[Value], place: usize) -> Option<&Value>
    ensures { option_map (λ part. view part.now) result ≡ get_item place (items_view parts.now) }
{
    parts.get(place)
}

/// The string at a place of a list.
fn text_at(parts: &[Value], place: usize) -> Option<&str>
    ensures { option_map (λ s. s.now) result ≡ text_at place (items_view parts.now) }
{
    match part_at(parts, place) {
        Some(part) => part.as_str(),
        None => None,
    }
}

/// The whole number at a place of a list.
fn number_at(parts: &[Value], place: usize) -> Option<u64>
    ensures { result ≡ number_at place (items_view parts.now) }
{
    match part_at(parts, place) {
        Some(part) => part.as_u64(),
        None => None,
    }
}

/// The time at a place of a list, as text.
fn stamp_at(parts: &[Value], place: usize) -> Option<Stamp>
    ensures { result ≡ stamp_at place (items_view parts.now) }
{
    match text_at(parts, place) {
        Some(text) => read_stamp(text.as_bytes()),
        None => None,
    }
}

/// The time at a place of a list, in hundredths of a second.
fn time_at(parts: &[Value], place: usize) -> Option<Stamp>
    ensures { result ≡ time_at place (items_view parts.now) }
{
    match number_at(parts, place) {
        Some(time) => Stamp::new(time),
        None => None,
    }
}

/// The id at a place of a list.
fn id_at(alloc: Global, parts: &[Value], place: usize) -> Result<Option<Id>, AllocError>
    ensures { IfOk result (λ id. id ≡ id_at place (items_view parts.now)) }
{
    match text_at(parts, place) {
        Some(text) => Id::new(alloc, text.as_bytes()),
        None => Ok(None),
    }
}

/// The first line, which says a version.
#[tactic(auto, unfolding(crate::specs::Values::head_from))]
fn head_from(parts: &[Value]) -> Option<Line>
    ensures { result ≡ head_from (items_view parts.now) }
{
    match number_at(parts, 1) {
        Some(1) => Some(Line::Head(Version::First)),
        Some(2) => Some(Line::Head(Version::Second)),
        _ => None,
    }
}

/// The line of the last sync's time.
#[tactic(auto, unfolding(crate::specs::Values::synced_from))]
fn synced_from(parts: &[Value]) -> Option<Line>
    ensures { result ≡ synced_from (items_view parts.now) }
{
    match stamp_at(parts, 1) {
        Some(time) => Some(Line::Synced(time)),
        None => None,
    }
}

/// The line of a row.
#[tactic(auto, unfolding(crate::specs::Values::row_from))]
fn row_from(alloc: Global, parts: &[Value]) -> Result<Option<Line>, AllocError>
    ensures { IfOk result (λ line. line ≡ row_from (items_view parts.now)) }
{
    let Some(modified) = stamp_at(parts, 1) else {
        return Ok(None);
    };
    let Some(id) = id_at(alloc, parts, 2)? else {
        return Ok(None);
    };
    let Some(payload) = text_at(parts, 3) else {
        return Ok(None);
    };
    Ok(Some(Line::Row(Sheet {
        id,
        modified,
        payload: Word::new(String::from_str(alloc, payload)?),
    })))
}

/// The line of a deleted id.
#[tactic(auto, unfolding(crate::specs::Values::dead_from))]
fn dead_from(alloc: Global, parts: &[Value]) -> Result<Option<Line>, AllocError>
    ensures { IfOk result (λ line. line ≡ dead_from (items_view parts.now)) }
{
    let Some(time) = time_at(parts, 1) else {
        return Ok(None);
    };
    match id_at(alloc, parts, 2)? {
        Some(id) => Ok(Some(Line::Dead(id, time))),
        None => Ok(None),
    }
}

/// The line of a list with this first item.
fn tagged(alloc: Global, tag: &str, parts: &[Value]) -> Result<Option<Line>, AllocError>
    ensures { IfOk result (λ line. line ≡ device_line_of_tag tag.now (items_view parts.now)) }
{
    match tag {
        "device" => Ok(head_from(parts)),
        "stamp" => Ok(synced_from(parts)),
        "row" => row_from(alloc, parts),
        "dead" => dead_from(alloc, parts),
        "end" => Ok(Some(Line::End)),
        _ => Ok(None),
    }
}

#[tactic(auto, unfolding(crate::specs::Values::line_from))]
fn line_from(alloc: Global, parts: &[Value]) -> Result<Option<Line>, AllocError>
    ensures { IfOk result (λ line. line ≡ line_from (items_view parts.now)) }
{
    match text_at(parts, 0) {
        Some(tag) => tagged(alloc, tag, parts),
        None => Ok(None),
    }
}

/// What a text says as a line, without its newline, as JSON is read; perhaps the line isn't written so.
pub(crate) fn line_in(alloc: Global, text: &[u8]) -> Result<Option<Line>, AllocError>
    ensures { IfOk result (λ line. IsUtf8 text.now → line ≡ line_in (read text.now)) }
{
    match Value::from_slice(alloc, text) {
        Ok(Value::Array(parts)) => line_from(alloc, &parts),
        Ok(_) => Ok(None),
        Err(error) => {
            if error.is_memory() {
                Err(AllocError)
            } else {
                Ok(None)
            }
        }
    }
}
