//! Plans of uploads.

use crate::trees::desk::Desk;
use crate::trees::listing::listed;
use crate::words::number;
use anyhow::bail;
use ss_bso::{Field, Part};
use ss_plan::{Limits, plan};
use std::alloc::{AllocError, Global};

/// Limits that let so many records pass.
fn limits(records: u64) -> Limits {
    Limits {
        max_request_bytes: 1_000,
        max_post_records: 100,
        max_post_bytes: 1_000,
        max_total_records: records,
        max_total_bytes: 1_000,
        max_record_payload_bytes: 1_000,
    }
}

/// What a part says of its record: its id and its payload.
fn part_text(alloc: Global, part: &Part) -> Result<String, AllocError> {
    let payload = match &part.fields.payload {
        Field::Set(text) => text.as_str(),
        Field::Keep => "as it was",
        Field::Clear => "empty",
    };
    format!(in alloc; "{} {payload}", part.id.as_str())
}

/// What parts say.
fn parts_text(alloc: Global, parts: &[Part]) -> Result<String, AllocError> {
    let mut texts = Vec::new(alloc);
    for part in parts {
        texts.push(part_text(alloc, part)?)?;
    }
    listed(alloc, "puts", &texts)
}

/// Plans the upload of the tree over the rows that were built, with limits that let so many records pass.
pub fn plan_upload(alloc: Global, desk: &Desk, records: &str) -> anyhow::Result<String> {
    let limits = limits(number(records)?);
    let Some(built) = &desk.built else {
        bail!("no rows were built");
    };
    Ok(match plan(alloc, &desk.tree, built, &limits) {
        Ok(parts) => parts_text(alloc, &parts)?,
        Err(fault) => format!(in alloc; "{fault:?}")?,
    })
}
