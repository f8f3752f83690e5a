//! What stands in a request, and how it is written.

ghost use Rattle.std.specs.Prelude.{◌≡◌, ◌++◌, OnOk};
ghost use Rattle.serde_json.specs.Data.{string};
ghost use Rattle.serde_json.specs.Written.{compact_text};
ghost use Rattle.ss_lines.specs.Cells.{data_of};
ghost use Rattle.ss_lines.specs.Lines.{natural, optional, time};
ghost use Rattle.ss_log_lines.specs.Pieces.{query_piece_data};
ghost use Rattle.ss_log_lines.specs.Requests.{cond_data, fields_data, data_of_list, mode_data, query_data};

use crate::arrays::{Written, push_array};
use crate::words::sort_word;
use ss_bso::{Fields, Part, Reason};
use ss_lines::cells::{Cell, integer_field, natural_field, payload_field};
use ss_query::{Mode, Query, reason_name};
use ss_text::{Cond, Id, Stamp, push_json_text};
use std::alloc::AllocError;

impl Written for Id {
    ghost use Rattle.serde_json.specs.Data.{string};

    ghost json = { λ id. string id };

    fn push(&self, out: &mut Vec<u8>) -> Result<(), AllocError> {
        push_json_text(out, self.as_str())
    }
}

impl Written for Part {
    ghost use Rattle.ss_log_lines.specs.Requests.{part_data};

    ghost json = { part_data };

    fn push(&self, out: &mut Vec<u8>) -> Result<(), AllocError> {
        let cells = [
            Cell::Text(self.id.as_str()),
            payload_field(&self.fields.payload),
            integer_field(&self.fields.sortindex),
            natural_field(&self.fields.ttl),
        ];
        push_array(out, &cells)
    }
}

impl Written for (Id, Reason) {
    ghost use Rattle.ss_log_lines.specs.Requests.{failure_data};

    ghost json = { failure_data };

    fn push(&self, out: &mut Vec<u8>) -> Result<(), AllocError> {
        let cells = [Cell::Text(self.0.as_str()), Cell::Text(reason_name(self.1))];
        push_array(out, &cells)
    }
}

/// Appends a condition.
fn push_cond(out: &mut Vec<u8>, cond: Cond) -> Result<(), AllocError>
    ensures { OnOk result (out.new.items ≡ out.old.items ++ compact_text (cond_data cond)) }
{
    match cond {
        Cond::Free => out.extend_from_slice(b"[]"),
        Cond::IfModified(since) => push_array(out, &[Cell::Text("modified"), Cell::Time(since)]),
        Cond::IfUnmodified(since) => {
            push_array(out, &[Cell::Text("unmodified"), Cell::Time(since)])
        }
        Cond::IfAbsent => push_array(out, &[Cell::Text("absent")]),
    }
}

/// Appends how the records of a POST are taken.
fn push_mode(out: &mut Vec<u8>, mode: Mode) -> Result<(), AllocError>
    ensures { OnOk result (out.new.items ≡ out.old.items ++ compact_text (mode_data mode)) }
{
    match mode {
        Mode::Plain => out.extend_from_slice(b"[]"),
        Mode::Begin => push_array(out, &[Cell::Text("begin")]),
        Mode::Append { batch } => push_array(out, &[Cell::Text("append"), Cell::Natural(batch)]),
        Mode::Commit { batch } => push_array(out, &[Cell::Text("commit"), Cell::Natural(batch)]),
    }
}

/// Appends what is said of a record.
fn push_fields(out: &mut Vec<u8>, fields: &Fields) -> Result<(), AllocError>
    ensures { OnOk result (out.new.items ≡ out.old.items ++ compact_text (fields_data fields.now)) }
{
    let cells = [
        payload_field(&fields.payload),
        integer_field(&fields.sortindex),
        natural_field(&fields.ttl),
    ];
    push_array(out, &cells)
}

/// A value of a query.
#[derive(Drop)]
pub(crate) enum QueryPiece<'a> {
    Cell(Cell<'a>),
    Flag(bool),
    Ids(&'a [Id]),
}

impl Written for QueryPiece<'_> {
    ghost use Rattle.ss_log_lines.specs.Pieces.{query_piece_data};

    ghost json = { query_piece_data };

    fn push(&self, out: &mut Vec<u8>) -> Result<(), AllocError> {
        match self {
            QueryPiece::Cell(cell) => cell.push(out),
            QueryPiece::Flag(true) => out.extend_from_slice(b"true"),
            QueryPiece::Flag(false) => out.extend_from_slice(b"false"),
            QueryPiece::Ids(ids) => push_array(out, *ids),
        }
    }
}

fn optional_ids(query: &Query) -> QueryPiece<'_>
    ensures { query_piece_data result ≡ optional (data_of_list string) query.now.ids }
{
    match &query.ids {
        None => QueryPiece::Cell(Cell::Null),
        Some(ids) => QueryPiece::Ids(ids.as_slice()),
    }
}

fn optional_time<'a>(value: Option<Stamp>) -> Cell<'a>
    ensures { data_of result ≡ optional time value }
{
    match value {
        None => Cell::Null,
        Some(stamp) => Cell::Time(stamp),
    }
}

fn optional_limit<'a>(limit: Option<u32>) -> Cell<'a>
    ensures { data_of result ≡ optional natural limit }
{
    match limit {
        None => Cell::Null,
        Some(number) => Cell::Natural(u64::from(number)),
    }
}

/// Appends which records of a collection are asked for.
fn push_query(out: &mut Vec<u8>, query: &Query) -> Result<(), AllocError>
    ensures { OnOk result (out.new.items ≡ out.old.items ++ compact_text (query_data query.now)) }
{
    let pieces = [
        optional_ids(query),
        QueryPiece::Cell(optional_time(query.newer)),
        QueryPiece::Cell(optional_time(query.older)),
        QueryPiece::Cell(optional_limit(query.limit)),
        QueryPiece::Cell(Cell::Natural(u64::from(query.offset))),
        QueryPiece::Cell(Cell::Text(sort_word(query.sort))),
        QueryPiece::Flag(query.full),
    ];
    push_array(out, &pieces)
}

/// A value of a request.
#[derive(Drop)]
pub(crate) enum Piece<'a> {
    Text(&'a str),
    Ids(&'a [Id]),
    Cond(Cond),
    Mode(Mode),
    Query(&'a Query),
    Fields(&'a Fields),
    Parts(&'a [Part]),
    Failed(&'a [(Id, Reason)]),
}

impl Written for Piece<'_> {
    ghost use Rattle.ss_log_lines.specs.Pieces.{piece_data};

    ghost json = { piece_data };

    fn push(&self, out: &mut Vec<u8>) -> Result<(), AllocError> {
        match self {
            Piece::Text(text) => push_json_text(out, text),
            Piece::Ids(ids) => push_array(out, *ids),
            Piece::Cond(cond) => push_cond(out, *cond),
            Piece::Mode(mode) => push_mode(out, *mode),
            Piece::Query(query) => push_query(out, *query),
            Piece::Fields(fields) => push_fields(out, *fields),
            Piece::Parts(parts) => push_array(out, *parts),
            Piece::Failed(failed) => push_array(out, *failed),
        }
    }
}
