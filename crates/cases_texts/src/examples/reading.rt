//! The records of the body of a POST.

use anyhow::bail;
use ss_bso::{Field, read_parts};
use std::alloc::Global;

/// Three records: one that clears its end, one whose sortindex is a decimal, and one that sets no payload.
const BODY: &str =
    r#"[{"id":"a","payload":"x","ttl":null},{"id":"b","sortindex":1.5},{"id":"c","sortindex":2}]"#;

/// Reads the records, and tells of each whether it can be put, and what it says of its payload, or why it can't.
pub fn read(alloc: Global) -> anyhow::Result<Vec<String>> {
    let Ok(records) = read_parts(alloc, BODY.as_bytes(), false) else {
        bail!("no list of records");
    };
    let mut lines = Vec::new(alloc);
    for part in records.parts.as_slice() {
        let payload = match &part.fields.payload {
            Field::Keep => "keeps its payload",
            Field::Clear => "has the empty payload",
            Field::Set(text) => text.as_str(),
        };
        lines.push(format!(in alloc; "{}: {payload}", part.id.as_str())?)?;
    }
    for (id, reason) in records.failed.as_slice() {
        lines.push(format!(in alloc; "{} failed: {reason:?}", id.as_str())?)?;
    }
    Ok(lines)
}
