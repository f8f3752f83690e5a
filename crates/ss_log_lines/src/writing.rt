//! How the lines of a log are written. Without memory for a line a part of it may stand at the end of `out`.

ghost use Rattle.std.specs.Prelude.{◌≡◌, ◌++◌, OnOk};
ghost use Rattle.serde_json.specs.Written.{compact_text};
ghost use Rattle.ss_log_lines.specs.LogLines.{log_line_text};
ghost use Rattle.ss_log_lines.specs.Requests.{request_data};
ghost use Rattle.ss_log_lines.specs.declared.lines.LogLine.TheVariants.{Account, Call, Log};

use crate::arrays::{Written, push_array};
use crate::lines::LogLine;
use crate::pieces::Piece;
use crate::words::{asked_word, mark_word};
use ss_laws::Entry;
use ss_lines::cells::{Cell, push_list};
use ss_lines::{Line, push_line};
use ss_query::Request;
use ss_text::Stamp;
use std::alloc::AllocError;

/// Appends a request.
fn push_request(out: &mut Vec<u8>, request: &Request) -> Result<(), AllocError>
    ensures { OnOk result (out.new.items ≡ out.old.items ++ compact_text (request_data request.now)) }
{
    match request {
        Request::Info { what, cond } => push_array(
            out,
            &[
                Piece::Text("info"),
                Piece::Text(asked_word(*what)),
                Piece::Cond(*cond),
            ],
        ),
        Request::DeleteAll { cond } => {
            push_array(out, &[Piece::Text("deleteall"), Piece::Cond(*cond)])
        }
        Request::List {
            collection,
            query,
            cond,
        } => push_array(
            out,
            &[
                Piece::Text("list"),
                Piece::Text(collection.as_str()),
                Piece::Query(query),
                Piece::Cond(*cond),
            ],
        ),
        Request::Post {
            collection,
            records,
            mode,
            cond,
        } => push_array(
            out,
            &[
                Piece::Text("post"),
                Piece::Text(collection.as_str()),
                Piece::Mode(*mode),
                Piece::Parts(records.parts.as_slice()),
                Piece::Failed(records.failed.as_slice()),
                Piece::Cond(*cond),
            ],
        ),
        Request::DeleteCollection { collection, cond } => push_array(
            out,
            &[
                Piece::Text("drop"),
                Piece::Text(collection.as_str()),
                Piece::Cond(*cond),
            ],
        ),
        Request::DeleteIds {
            collection,
            ids,
            cond,
        } => push_array(
            out,
            &[
                Piece::Text("dropids"),
                Piece::Text(collection.as_str()),
                Piece::Ids(ids.as_slice()),
                Piece::Cond(*cond),
            ],
        ),
        Request::Get {
            collection,
            id,
            cond,
        } => push_array(
            out,
            &[
                Piece::Text("get"),
                Piece::Text(collection.as_str()),
                Piece::Text(id.as_str()),
                Piece::Cond(*cond),
            ],
        ),
        Request::Put {
            collection,
            id,
            fields,
            cond,
        } => push_array(
            out,
            &[
                Piece::Text("put"),
                Piece::Text(collection.as_str()),
                Piece::Text(id.as_str()),
                Piece::Fields(fields),
                Piece::Cond(*cond),
            ],
        ),
        Request::Delete {
            collection,
            id,
            cond,
        } => push_array(
            out,
            &[
                Piece::Text("delete"),
                Piece::Text(collection.as_str()),
                Piece::Text(id.as_str()),
                Piece::Cond(*cond),
            ],
        ),
    }
}

/// Appends the line with which a log begins: its opening account has this moment, and it has room for so many entries.
#[tactic(auto, unfolding(crate::specs::LogLines::log_line_text))]
pub fn push_log(out: &mut Vec<u8>, moment: Stamp, most: u32) -> Result<(), AllocError>
    ensures { OnOk result (out.new.items ≡ out.old.items ++ log_line_text (Log moment most)) }
{
    let cells = [
        Cell::Natural(1),
        Cell::Time(moment),
        Cell::Natural(u64::from(most)),
    ];
    push_list(out, "log", &cells)
}

/// A value of an entry's line.
#[derive(Drop)]
pub(crate) enum CallPiece<'a> {
    Cell(Cell<'a>),
    Request(&'a Request),
}

impl Written for CallPiece<'_> {
    ghost use Rattle.ss_log_lines.specs.Pieces.{call_piece_data};

    ghost json = { call_piece_data };

    fn push(&self, out: &mut Vec<u8>) -> Result<(), AllocError> {
        match self {
            CallPiece::Cell(cell) => cell.push(out),
            CallPiece::Request(request) => push_request(out, *request),
        }
    }
}

/// Appends the line of an entry.
#[tactic(auto, unfolding(crate::specs::LogLines::log_line_text))]
pub fn push_call(out: &mut Vec<u8>, entry: &Entry) -> Result<(), AllocError>
    ensures { OnOk result (out.new.items ≡ out.old.items ++ log_line_text (Call entry.entry.now)) }
{
    let pieces = [
        CallPiece::Cell(Cell::Text("call")),
        CallPiece::Cell(Cell::Natural(entry.ticket)),
        CallPiece::Cell(Cell::Natural(u64::from(entry.pass))),
        CallPiece::Cell(Cell::Natural(entry.now)),
        CallPiece::Cell(Cell::Text(mark_word(entry.mark))),
        CallPiece::Request(&entry.request),
    ];
    push_array(out, &pieces)?;
    out.push(b'\n')?;
    Ok(())
}

/// Appends a line that tells of the opening account, or the end.
#[tactic(auto, unfolding(crate::specs::LogLines::log_line_text, ss_lines::specs::Lines::line_text))]
fn push_told(out: &mut Vec<u8>, line: &Line) -> Result<(), AllocError>
    ensures { OnOk result (out.new.items ≡ out.old.items ++ log_line_text (Account line.now)) }
{
    push_line(out, line)
}

/// Appends a line of a log.
pub fn push_log_line(out: &mut Vec<u8>, line: &LogLine) -> Result<(), AllocError>
    ensures { OnOk result (out.new.items ≡ out.old.items ++ log_line_text line.now) }
{
    match line {
        LogLine::Log { moment, most } => push_log(out, *moment, *most),
        LogLine::Account(line) => push_told(out, line),
        LogLine::Call(entry) => push_call(out, entry),
    }
}
