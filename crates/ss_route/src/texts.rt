//! The texts of bodies.

ghost use Rattle.std.specs.Prelude.{◌≡◌, ◌++◌, List, ℕ, OnOk, IfOk, map, flat_map, codes, decimal, string_bytes};
ghost use Rattle.std.specs.Fmt.{signed_decimal};
ghost use Rattle.std.specs.List.{join_with_byte};
ghost use Rattle.ss_text.specs.Time.{stamp_text};
ghost use Rattle.ss_bso.specs.Limits.{most_account_payload_bytes};
ghost use Rattle.ss_query.specs.Reasons.{reason_name};
ghost use Rattle.ss_route.specs.Posts.{token};
ghost use Rattle.ss_route.specs.Texts.{json_text, list_text, object_text, lines_text, elements_text, member_text};
ghost use Rattle.ss_route.specs.Texts.{sortindex_text, row_text, kilobytes_text, failure_text, records_text, word_text};
ghost use Rattle.ss_route.specs.Texts.{limits_text, body_text};

use crate::scalars::{put, put_json, put_kilobytes, put_number, put_signed};
use base64::engine::general_purpose::URL_SAFE_NO_PAD;
use itoa::Buffer;
use ss_bso::limits::{
    MOST_ACCOUNT_PAYLOAD_BYTES, MOST_BATCH_BYTES, MOST_BATCH_RECORDS, MOST_POST_BYTES,
    MOST_POST_RECORDS, MOST_RECORD_PAYLOAD_BYTES,
};
use ss_bso::{Failures, Reason, Row};
use ss_http::limits::BODY_ROOM;
use ss_query::{Body, Said, reason_name};
use ss_text::{Id, Ids, Name, Stamp, push_stamp};
use std::alloc::{AllocError, Global};

/// What is written as an element of a list or a member of an object.
pub trait Element {
    ghost text: { Self → List ℕ };

    fn write(&self, out: &mut Vec<u8>) -> Result<(), AllocError>
        ensures { OnOk result (out.new.items ≡ out.old.items ++ (text self.now)) };
}

impl Element for Id {
    ghost text = { json_text };

    fn write(&self, out: &mut Vec<u8>) -> Result<(), AllocError> {
        put_json(out, self.as_str())
    }
}

impl Element for Row {
    ghost text = { row_text };

    #[tactic(auto, using(crate::proofs::Appending::append_append), unfolding(crate::specs::Texts::row_text))]
    fn write(&self, out: &mut Vec<u8>) -> Result<(), AllocError> {
        put(out, b"{\"id\":")?;
        put_json(out, self.id.as_str())?;
        put(out, b",\"modified\":")?;
        push_stamp(out, self.modified)?;
        put(out, b",\"payload\":")?;
        put_json(out, self.payload.as_str())?;
        put_sortindex(out, self.sortindex)?;
        put(out, b"}")
    }
}

impl Element for (Name, Stamp) {
    ghost text = { λ entry. member_text entry.0 (stamp_text entry.1) };

    #[tactic(auto, using(crate::proofs::Appending::append_append), unfolding(crate::specs::Texts::member_text))]
    fn write(&self, out: &mut Vec<u8>) -> Result<(), AllocError> {
        put_json(out, self.0.as_str())?;
        put(out, b":")?;
        push_stamp(out, self.1)
    }
}

impl Element for (Name, u64) {
    ghost text = { λ entry. member_text entry.0 (decimal entry.1) };

    #[tactic(auto, using(crate::proofs::Appending::append_append), unfolding(crate::specs::Texts::member_text))]
    fn write(&self, out: &mut Vec<u8>) -> Result<(), AllocError> {
        put_json(out, self.0.as_str())?;
        put(out, b":")?;
        put_number(out, self.1)
    }
}

impl Element for (Id, Reason) {
    ghost text = { failure_text };

    #[tactic(auto, using(crate::proofs::Appending::append_append), unfolding(crate::specs::Texts::member_text))]
    fn write(&self, out: &mut Vec<u8>) -> Result<(), AllocError> {
        put_json(out, self.0.as_str())?;
        put(out, b":")?;
        put_reason(out, self.1)
    }
}

/// The reason of a failure, as the one string of a list.
#[tactic(auto, using(crate::proofs::Appending::append_append))]
fn put_reason(out: &mut Vec<u8>, reason: Reason) -> Result<(), AllocError>
    ensures { OnOk result (out.new.items ≡ out.old.items ++ (codes "[\"" ++ reason_name reason ++ codes "\"]")) }
{
    put(out, b"[\"")?;
    put(out, reason_name(reason).as_bytes())?;
    put(out, b"\"]")
}

#[tactic(auto, using(crate::proofs::Appending::append_append))]
fn put_index(out: &mut Vec<u8>, index: i32) -> Result<(), AllocError>
    ensures { OnOk result (out.new.items ≡ out.old.items ++ (codes ",\"sortindex\":" ++ signed_decimal index)) }
{
    put(out, b",\"sortindex\":")?;
    put_signed(out, index)
}

#[tactic(auto, unfolding(crate::specs::Texts::sortindex_text))]
fn put_sortindex(out: &mut Vec<u8>, sortindex: Option<i32>) -> Result<(), AllocError>
    ensures { OnOk result (out.new.items ≡ out.old.items ++ (sortindex_text sortindex)) }
{
    match sortindex {
        Some(index) => put_index(out, index),
        None => Ok(()),
    }
}

/// Texts with a comma before each.
#[tactic(auto, using(crate::proofs::Appending::append_append))]
fn put_tail<E: Element>(out: &mut Vec<u8>, elements: &[E]) -> Result<(), AllocError>
    ensures { OnOk result (out.new.items ≡ out.old.items ++ (flat_map (λ element. codes ","
        ++ E.text element) elements.now)) }
{
    for element in elements {
        put(out, b",")?;
        element.write(out)?;
    }
    Ok(())
}

/// Texts between commas.
#[tactic(auto, using(crate::proofs::Appending::append_append))]
fn put_joined<E: Element>(out: &mut Vec<u8>, elements: &[E]) -> Result<(), AllocError>
    ensures { OnOk result (out.new.items ≡ out.old.items ++ (join_with_byte 0x2c (map E.text elements.now))) }
{
    match elements {
        [] => Ok(()),
        [first, rest @ ..] => {
            first.write(out)?;
            put_tail(out, rest)
        }
    }
}

/// Texts with a newline behind each.
#[tactic(auto, using(crate::proofs::Appending::append_append), unfolding(crate::specs::Texts::lines_text))]
fn put_lines<E: Element>(out: &mut Vec<u8>, elements: &[E]) -> Result<(), AllocError>
    ensures { OnOk result (out.new.items ≡ out.old.items ++ (lines_text (map E.text elements.now))) }
{
    for element in elements {
        element.write(out)?;
        put(out, b"\n")?;
    }
    Ok(())
}

/// A list.
#[tactic(auto, using(crate::proofs::Appending::append_append), unfolding(crate::specs::Texts::list_text))]
pub fn put_list<E: Element>(out: &mut Vec<u8>, elements: &[E]) -> Result<(), AllocError>
    ensures { OnOk result (out.new.items ≡ out.old.items ++ (list_text (map E.text elements.now))) }
{
    put(out, b"[")?;
    put_joined(out, elements)?;
    put(out, b"]")
}

/// An object.
#[tactic(auto, using(crate::proofs::Appending::append_append), unfolding(crate::specs::Texts::object_text))]
fn put_object<E: Element>(out: &mut Vec<u8>, members: &[E]) -> Result<(), AllocError>
    ensures { OnOk result (out.new.items ≡ out.old.items ++ (object_text (map E.text members.now))) }
{
    put(out, b"{")?;
    put_joined(out, members)?;
    put(out, b"}")
}

/// A list in the form that is asked for.
fn put_elements<E: Element>(
    out: &mut Vec<u8>,
    lines: bool,
    elements: &[E],
) -> Result<(), AllocError>
    ensures { OnOk result (out.new.items ≡ out.old.items ++ (elements_text lines (map E.text elements.now))) }
{
    if lines {
        put_lines(out, elements)
    } else {
        put_list(out, elements)
    }
}

/// A collection with its payload bytes in KB.
#[derive(Drop)]
struct InKilobytes<'a> {
    entry: &'a (Name, u64),
}

impl Element for InKilobytes<'_> {
    ghost text = { λ member. member_text member.entry.now.0 (kilobytes_text member.entry.now.1) };

    #[tactic(auto, using(crate::proofs::Appending::append_append), unfolding(crate::specs::Texts::member_text))]
    fn write(&self, out: &mut Vec<u8>) -> Result<(), AllocError> {
        put_json(out, self.entry.0.as_str())?;
        put(out, b":")?;
        put_kilobytes(out, self.entry.1)
    }
}

/// The collections with their payload bytes in KB.
fn in_kilobytes(alloc: Global, usage: &[(Name, u64)]) -> Result<Vec<InKilobytes<'_>>, AllocError>
    ensures { IfOk result (λ members. map (λ member. member.entry.now) members.items ≡ usage.now) }
{
    let mut members = Vec::with_capacity(alloc, usage.len())?;
    for entry in usage {
        members.push(InKilobytes { entry })?;
    }
    Ok(members)
}

fn put_usage(alloc: Global, out: &mut Vec<u8>, usage: &[(Name, u64)]) -> Result<(), AllocError>
    ensures { OnOk result (out.new.items ≡ out.old.items ++ (object_text
        (map (λ entry. member_text entry.0 (kilobytes_text entry.1)) usage.now))) }
{
    let members = in_kilobytes(alloc, usage)?;
    put_object(out, members.as_slice())
}

#[tactic(auto, using(crate::proofs::Appending::append_append))]
fn put_quota(out: &mut Vec<u8>, used: u64) -> Result<(), AllocError>
    ensures { OnOk result (out.new.items ≡ out.old.items ++ (codes "[" ++ kilobytes_text used ++ codes ","
        ++ kilobytes_text most_account_payload_bytes ++ codes "]")) }
{
    put(out, b"[")?;
    put_kilobytes(out, used)?;
    put(out, b",")?;
    put_kilobytes(out, MOST_ACCOUNT_PAYLOAD_BYTES)?;
    put(out, b"]")
}

/// A limit of the server, by its name in the configuration.
struct Limit {
    name: &'static str,
    most: u64,
}

impl Element for Limit {
    ghost text = { λ limit. member_text limit.name.now (decimal limit.most) };

    #[tactic(auto, using(crate::proofs::Appending::append_append), unfolding(crate::specs::Texts::member_text))]
    fn write(&self, out: &mut Vec<u8>) -> Result<(), AllocError> {
        put_json(out, self.name)?;
        put(out, b":")?;
        put_number(out, self.most)
    }
}

#[tactic(auto, unfolding(crate::specs::Texts::limits_text))]
fn put_limits(out: &mut Vec<u8>) -> Result<(), AllocError>
    ensures { OnOk result (out.new.items ≡ out.old.items ++ limits_text) }
{
    put_object(
        out,
        &[
            Limit {
                name: "max_request_bytes",
                most: BODY_ROOM,
            },
            Limit {
                name: "max_post_records",
                most: MOST_POST_RECORDS,
            },
            Limit {
                name: "max_post_bytes",
                most: MOST_POST_BYTES,
            },
            Limit {
                name: "max_total_records",
                most: MOST_BATCH_RECORDS,
            },
            Limit {
                name: "max_total_bytes",
                most: MOST_BATCH_BYTES,
            },
            Limit {
                name: "max_record_payload_bytes",
                most: MOST_RECORD_PAYLOAD_BYTES as u64,
            },
        ],
    )
}

/// What is told of a deletion, and the beginning of what a POST is told.
#[tactic(auto, using(crate::proofs::Appending::append_append))]
fn put_modified(out: &mut Vec<u8>, time: Stamp) -> Result<(), AllocError>
    ensures { OnOk result (out.new.items ≡ out.old.items ++ (codes "{\"modified\":" ++ stamp_text time)) }
{
    put(out, b"{\"modified\":")?;
    push_stamp(out, time)
}

#[tactic(auto, using(crate::proofs::Appending::append_append))]
fn put_gone(out: &mut Vec<u8>, time: Stamp) -> Result<(), AllocError>
    ensures { OnOk result (out.new.items ≡ out.old.items ++ (codes "{\"modified\":" ++ stamp_text time ++ codes "}")) }
{
    put_modified(out, time)?;
    put(out, b"}")
}

/// The id of a batch.
#[tactic(auto, unfolding(crate::specs::Posts::token))]
pub fn token(alloc: Global, batch: u64) -> Result<String, AllocError>
    ensures { IfOk result (λ text. string_bytes text ≡ token batch) }
{
    let mut buffer = Buffer::new();
    URL_SAFE_NO_PAD.encode(alloc, buffer.format(batch).as_bytes())
}

/// The beginning of what a POST to a batch is told.
#[tactic(auto, using(crate::proofs::Appending::append_append))]
fn put_batch(alloc: Global, out: &mut Vec<u8>, batch: u64) -> Result<(), AllocError>
    ensures { OnOk result (out.new.items ≡ out.old.items ++ (codes "{\"batch\":\"" ++ token batch ++ codes "\"")) }
{
    let token = token(alloc, batch)?;
    put(out, b"{\"batch\":\"")?;
    put(out, token.as_str().as_bytes())?;
    put(out, b"\"")
}

/// What a POST is told of its records.
#[tactic(auto, using(crate::proofs::Appending::append_append), unfolding(crate::specs::Texts::records_text))]
fn put_records(out: &mut Vec<u8>, success: &Ids, failed: &Failures) -> Result<(), AllocError>
    ensures { OnOk result (out.new.items ≡ out.old.items ++ (records_text success.now failed.now)) }
{
    put(out, b",\"success\":")?;
    put_list(out, success.as_slice())?;
    put(out, b",\"failed\":")?;
    put_object(out, failed.as_slice())?;
    put(out, b"}")
}

#[tactic(auto, using(crate::proofs::Appending::append_append))]
fn put_posted(
    out: &mut Vec<u8>,
    modified: Stamp,
    success: &Ids,
    failed: &Failures,
) -> Result<(), AllocError>
    ensures { OnOk result (out.new.items ≡ out.old.items ++ (codes "{\"modified\":" ++ stamp_text modified
        ++ records_text success.now failed.now)) }
{
    put_modified(out, modified)?;
    put_records(out, success, failed)
}

#[tactic(auto, using(crate::proofs::Appending::append_append))]
fn put_staged(
    alloc: Global,
    out: &mut Vec<u8>,
    batch: u64,
    success: &Ids,
    failed: &Failures,
) -> Result<(), AllocError>
    ensures { OnOk result (out.new.items ≡ out.old.items ++ (codes "{\"batch\":\"" ++ token batch ++ codes "\""
        ++ records_text success.now failed.now)) }
{
    put_batch(alloc, out, batch)?;
    put_records(out, success, failed)
}

fn word_of(word: Said) -> &'static str
    ensures { result.now ≡ word_text word }
{
    match word {
        Said::Account => "account",
        Said::Announce => "announce",
        Said::Batch => "batch",
        Said::Batches => "batches",
        Said::Clock => "clock",
        Said::Commit => "commit",
        Said::Condition => "condition",
        Said::Head => "head",
        Said::Ids => "ids",
        Said::Item => "item",
        Said::Keeper => "keeper",
        Said::Length => "length",
        Said::Limit => "limit",
        Said::Memory => "memory",
        Said::Modified => "modified",
        Said::Offset => "offset",
        Said::Path => "path",
        Said::Size => "size",
        Said::Sort => "sort",
        Said::Stamp => "stamp",
        Said::Term => "term",
        Said::Type => "type",
    }
}

#[tactic(auto, using(crate::proofs::Appending::append_append))]
fn put_word(out: &mut Vec<u8>, word: Said) -> Result<(), AllocError>
    ensures { OnOk result (out.new.items ≡ out.old.items ++ (codes "\"" ++ word_text word ++ codes "\"")) }
{
    put(out, b"\"")?;
    put(out, word_of(word).as_bytes())?;
    put(out, b"\"")
}

/// A body; `lines` is the form of a list.
#[tactic(auto, unfolding(crate::specs::Texts::body_text))]
pub fn put_body(
    alloc: Global,
    out: &mut Vec<u8>,
    lines: bool,
    body: &Body,
) -> Result<(), AllocError>
    ensures { OnOk result (out.new.items ≡ out.old.items ++ (body_text lines body.now)) }
{
    match body {
        Body::Times(times) => put_object(out, times.as_slice()),
        Body::Counts(counts) => put_object(out, counts.as_slice()),
        Body::Usage(usage) => put_usage(alloc, out, usage.as_slice()),
        Body::Quota { used } => put_quota(out, *used),
        Body::Limits => put_limits(out),
        Body::Gone(time) => put_gone(out, *time),
        Body::Ids(ids) => put_elements(out, lines, ids.as_slice()),
        Body::Rows(rows) => put_elements(out, lines, rows.as_slice()),
        Body::Posted {
            modified,
            success,
            failed,
        } => put_posted(out, *modified, success, failed),
        Body::Staged {
            batch,
            success,
            failed,
        } => put_staged(alloc, out, *batch, success, failed),
        Body::One(row) => row.write(out),
        Body::At(time) => push_stamp(out, *time),
        Body::Empty => Ok(()),
        Body::Code(code) => put_number(out, u64::from(*code)),
        Body::Said(word) => put_word(out, *word),
    }
}
