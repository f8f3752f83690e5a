//! Texts of a line, and a device's file as it is told.

use anyhow::bail;
use serde_json::Value;
use ss_device::{Device, write_device};
use std::alloc::Global;

fn text_in(value: Value) -> anyhow::Result<String> {
    match value {
        Value::String(text) => Ok(text),
        _ => bail!("no text"),
    }
}

/// The text of a JSON string.
pub fn text(alloc: Global, json: &str) -> anyhow::Result<String> {
    text_in(Value::from_str(alloc, json)?)
}

/// The two texts of a JSON array.
pub fn two_texts(alloc: Global, json: &str) -> anyhow::Result<(String, String)> {
    let Value::Array(mut values) = Value::from_str(alloc, json)? else {
        bail!("no list");
    };
    match (values.pop(), values.pop(), values.pop()) {
        (Some(second), Some(first), None) => Ok((text_in(first)?, text_in(second)?)),
        _ => bail!("no two texts"),
    }
}

/// How many bytes a file has, and the file.
pub fn shown(alloc: Global, file: &str) -> anyhow::Result<String> {
    Ok(format!(in alloc; "{} bytes\n{file}", file.len())?)
}

/// The text of a device's file.
pub fn written(alloc: Global, device: &Device) -> anyhow::Result<String> {
    let bytes = write_device(alloc, device)?;
    Ok(String::from_utf8_lossy(alloc, bytes.as_slice())?)
}
