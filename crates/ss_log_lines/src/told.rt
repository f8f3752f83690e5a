//! Lines of a log as JSON values.

ghost use Rattle.std.specs.Prelude.{◌≡◌, IfOk, option_map, option_and_then};
ghost use Rattle.serde_json.specs.View.{view};
ghost use Rattle.ss_lines.specs.Values.{line_from, text_at};
ghost use Rattle.ss_log_lines.specs.Values.{entry_from, log_from, log_line_from, mark_of, tag_of, log_line_of_tag};
ghost use Rattle.ss_log_lines.specs.declared.lines.LogLine.TheVariants.{Account, Call};

use crate::lines::LogLine;
use crate::requests::request_in;
use crate::values::number_in;
use crate::words::mark_of;
use serde_json::Value;
use ss_laws::Entry;
use ss_lines::values::{line_from, natural_at, text_at, time_at};
use ss_query::Mark;
use std::alloc::{AllocError, Global};

/// How a request ended.
fn mark_in(word: Option<&str>) -> Option<Mark>
    ensures { result ≡ option_and_then mark_of (option_map (λ w. w.now) word.entry) }
{
    mark_of(word?)
}

#[tactic(auto, unfolding(crate::specs::Values::entry_from))]
fn entry_from(alloc: Global, list: &Value) -> Result<Option<Entry>, AllocError>
    ensures { IfOk result (λ entry. entry ≡ entry_from (view list.now)) }
{
    let Some(ticket) = natural_at(list, 1) else {
        return Ok(None);
    };
    let Some(pass) = number_in(list.get(2)) else {
        return Ok(None);
    };
    let Some(now) = natural_at(list, 3) else {
        return Ok(None);
    };
    let Some(mark) = mark_in(text_at(list, 4)) else {
        return Ok(None);
    };
    match request_in(alloc, list.get(5))? {
        Some(request) => Ok(Some(Entry {
            ticket,
            pass,
            now,
            request,
            mark,
        })),
        None => Ok(None),
    }
}

#[tactic(auto, unfolding(crate::specs::Values::log_from))]
fn log_from(list: &Value) -> Option<LogLine>
    ensures { result ≡ log_from (view list.now) }
{
    Some(LogLine::Log {
        moment: time_at(list, 2)?,
        most: number_in(list.get(3))?,
    })
}

/// The line of an entry.
fn call_from(alloc: Global, list: &Value) -> Result<Option<LogLine>, AllocError>
    ensures { IfOk result (λ line. line ≡ option_map (λ entry. Call entry) (entry_from (view list.now))) }
{
    match entry_from(alloc, list)? {
        Some(entry) => Ok(Some(LogLine::Call(entry))),
        None => Ok(None),
    }
}

/// The line that tells of the opening account, or the end.
fn account_from(alloc: Global, list: Value) -> Result<Option<LogLine>, AllocError>
    ensures { IfOk result (λ line. line ≡ option_map (λ line. Account line) (line_from (view list))) }
{
    match line_from(alloc, list)? {
        Some(line) => Ok(Some(LogLine::Account(line))),
        None => Ok(None),
    }
}

/// The kinds of lines, by their first texts.
#[derive(Clone, Copy)]
pub(crate) enum Tag {
    Log,
    Call,
    Account,
}

fn tag_of(word: &str) -> Tag
    ensures { result ≡ tag_of word.now }
{
    match word {
        "log" => Tag::Log,
        "call" => Tag::Call,
        _ => Tag::Account,
    }
}

/// The kind of line that a list is.
fn tag_in(list: &Value) -> Option<Tag>
    ensures { result ≡ option_map tag_of (text_at 0 (view list.now)) }
{
    Some(tag_of(text_at(list, 0)?))
}

fn tagged(alloc: Global, tag: Tag, list: Value) -> Result<Option<LogLine>, AllocError>
    ensures { IfOk result (λ line. line ≡ log_line_of_tag tag (view list)) }
{
    match tag {
        Tag::Log => Ok(log_from(&list)),
        Tag::Call => call_from(alloc, &list),
        Tag::Account => account_from(alloc, list),
    }
}

/// What a value says as a line of a log; perhaps the line isn't written so.
#[tactic(auto, unfolding(crate::specs::Values::log_line_from))]
pub(crate) fn log_line_from(alloc: Global, list: Value) -> Result<Option<LogLine>, AllocError>
    ensures { IfOk result (λ line. line ≡ log_line_from (view list)) }
{
    match tag_in(&list) {
        Some(tag) => tagged(alloc, tag, list),
        None => Ok(None),
    }
}
