//! What a POST says besides its body.

ghost use Rattle.std.specs.Prelude.{◌≡◌, IfOk, option_map, string_bytes, bytes_eq, codes};
ghost use Rattle.std.specs.List.{list_all};
ghost use Rattle.base64.specs.GeneralPurpose.{decoded_of};
ghost use Rattle.base64.specs.Engines.{url_safe_no_pad};
ghost use Rattle.ss_route.specs.Posts.{batch_of, commits_in, continues, batch_in, mode_of, mode_in, is_readable};
ghost use Rattle.ss_route.specs.Posts.{is_within, sizes, names_batch, announced_in};
ghost use Rattle.ss_route.specs.Refusals.{Settles};

use crate::cuts::is_same;
use crate::routed::{Stop, code, said};
use crate::targets::read_positive;
use base64::DecodeAllocError;
use base64::engine::general_purpose::URL_SAFE_NO_PAD;
use ss_bso::limits::{MOST_BATCH_BYTES, MOST_BATCH_RECORDS, MOST_POST_BYTES, MOST_POST_RECORDS};
use ss_http::FieldLines;
use ss_query::{Mode, Said, read_parameter};
use ss_text::read_number;
use std::alloc::{AllocError, Global};

/// The bytes of a base64 text for URLs, without padding.
#[tactic(auto, unfolding(base64::specs::GeneralPurpose::decoded_of))]
fn decoded(alloc: Global, text: &[u8]) -> Result<Option<Vec<u8>>, AllocError>
    ensures { IfOk result (λ bytes. option_map (λ list. list.items) bytes ≡ decoded_of url_safe_no_pad text.now) }
{
    match URL_SAFE_NO_PAD.decode(alloc, text) {
        Ok(bytes) => Ok(Some(bytes)),
        Err(DecodeAllocError::DecodeError(_)) => Ok(None),
        Err(DecodeAllocError::OutOfMemory) => Err(AllocError),
    }
}

/// The number of which a text is the id of a batch.
#[tactic(auto, unfolding(crate::specs::Posts::batch_of))]
fn batch_of(alloc: Global, text: &[u8]) -> Result<Option<u64>, AllocError>
    ensures { IfOk result (λ number. number ≡ batch_of text.now) }
{
    match decoded(alloc, text)? {
        Some(digits) => Ok(read_positive(digits.as_slice(), 12)),
        None => Ok(None),
    }
}

fn is_true(value: &str) -> bool
    ensures { result ≡ bytes_eq value.now (codes "true") }
{
    is_same(value.as_bytes(), b"true")
}

/// Whether a POST commits.
fn commits_in(batch: &Option<String>, commit: &Option<String>) -> Result<bool, Stop>
    ensures { Settles result (commits_in (option_map (λ text. string_bytes text) batch.now)
        (option_map (λ text. string_bytes text) commit.now)) }
{
    match (batch, commit) {
        (_, None) => Ok(false),
        (Some(_), Some(commit)) if is_true(commit.as_str()) => Ok(true),
        _ => Err(Stop::Refused(said(400, Said::Commit))),
    }
}

fn continues(commits: bool, number: Option<u64>) -> Result<Mode, Stop>
    ensures { Settles result (continues commits number) }
{
    match (number, commits) {
        (Some(batch), true) => Ok(Mode::Commit { batch }),
        (Some(batch), false) => Ok(Mode::Append { batch }),
        (None, _) => Err(Stop::Refused(said(400, Said::Batch))),
    }
}

fn batch_in(alloc: Global, commits: bool, batch: &Option<String>) -> Result<Mode, Stop>
    ensures { Settles result (batch_in commits (option_map (λ text. string_bytes text) batch.now)) }
{
    let batch = match batch {
        Some(batch) => batch.as_str(),
        None => return Ok(Mode::Plain),
    };
    if is_true(batch) {
        return Ok(if commits { Mode::Plain } else { Mode::Begin });
    }
    continues(commits, batch_of(alloc, batch.as_bytes())?)
}

/// How the records of a POST are taken.
#[tactic(auto, unfolding(crate::specs::Posts::mode_in))]
pub fn mode_in(alloc: Global, query: &[u8]) -> Result<Mode, Stop>
    ensures { Settles result (mode_in query.now) }
{
    let batch = read_parameter(alloc, query, "batch")?;
    let commit = read_parameter(alloc, query, "commit")?;
    let commits = commits_in(&batch, &commit)?;
    batch_in(alloc, commits, &batch)
}

/// Whether a query names a batch, with whatever value.
pub fn names_batch(alloc: Global, query: &[u8]) -> Result<bool, AllocError>
    ensures { IfOk result (λ named. named ≡ names_batch query.now) }
{
    Ok(read_parameter(alloc, query, "batch")?.is_some())
}

fn is_readable(fields: &FieldLines, name: &str, limit: u64) -> bool
    ensures { result ≡ is_readable fields.now (name.now, limit) }
{
    match fields.first(name) {
        Some(value) => read_number(value, 15).is_some(),
        None => true,
    }
}

fn is_within(fields: &FieldLines, name: &str, limit: u64) -> bool
    ensures { result ≡ is_within fields.now (name.now, limit) }
{
    match fields.first(name) {
        Some(value) => read_number(value, 15).unwrap_or(0) <= limit,
        None => true,
    }
}

fn are_readable(fields: &FieldLines, batch: bool) -> bool
    ensures { result ≡ list_all (is_readable fields.now) (sizes batch) }
{
    is_readable(fields, "X-Weave-Records", MOST_POST_RECORDS)
        && is_readable(fields, "X-Weave-Bytes", MOST_POST_BYTES)
        && (!batch
            || is_readable(fields, "X-Weave-Total-Records", MOST_BATCH_RECORDS)
                && is_readable(fields, "X-Weave-Total-Bytes", MOST_BATCH_BYTES))
}

fn are_within(fields: &FieldLines, batch: bool) -> bool
    ensures { result ≡ list_all (is_within fields.now) (sizes batch) }
{
    is_within(fields, "X-Weave-Records", MOST_POST_RECORDS)
        && is_within(fields, "X-Weave-Bytes", MOST_POST_BYTES)
        && (!batch
            || is_within(fields, "X-Weave-Total-Records", MOST_BATCH_RECORDS)
                && is_within(fields, "X-Weave-Total-Bytes", MOST_BATCH_BYTES))
}

/// The sizes that a POST announces; those of the whole batch count where one is named.
#[tactic(auto, unfolding(crate::specs::Posts::announced_in))]
pub fn announced_in(batch: bool, fields: &FieldLines) -> Result<(), Stop>
    ensures { Settles result (announced_in batch fields.now) }
{
    if !are_readable(fields, batch) {
        return Err(Stop::Refused(said(400, Said::Announce)));
    }
    if !are_within(fields, batch) {
        return Err(Stop::Refused(code(17)));
    }
    Ok(())
}
