//! What stands in a line behind its first word: JSON values with commas between them. And bytes as they are told.

use anyhow::bail;
use serde_json::Value;
use std::alloc::Global;

/// The longest bytes that are told themselves.
const MOST_TOLD: usize = 600;

/// The values of a text, as a list.
pub fn values(alloc: Global, text: &str) -> anyhow::Result<Value> {
    let list = format!(in alloc; "[{text}]")?;
    Ok(Value::from_str(alloc, list.as_str())?)
}

/// The text at a place.
pub fn text_in(values: &Value, at: usize) -> anyhow::Result<&str> {
    match values.get(at).and_then(Value::as_str) {
        Some(text) => Ok(text),
        None => bail!("no text at place {at}"),
    }
}

/// The number at a place.
pub fn number_in(values: &Value, at: usize) -> anyhow::Result<u64> {
    match values.get(at).and_then(Value::as_u64) {
        Some(number) => Ok(number),
        None => bail!("no number at place {at}"),
    }
}

/// The list at a place.
fn list_in(values: &Value, at: usize) -> anyhow::Result<&[Value]> {
    match values.get(at).and_then(Value::as_array) {
        Some(list) => Ok(list.as_slice()),
        None => bail!("no list at place {at}"),
    }
}

/// The numbers of the list at a place.
pub fn numbers_in(alloc: Global, values: &Value, at: usize) -> anyhow::Result<Vec<u64>> {
    let mut numbers = Vec::new(alloc);
    for value in list_in(values, at)? {
        match value.as_u64() {
            Some(number) => numbers.push(number)?,
            None => bail!("no number in a list"),
        }
    }
    Ok(numbers)
}

/// The texts of the list at a place.
pub fn texts_in(alloc: Global, values: &Value, at: usize) -> anyhow::Result<Vec<&str>> {
    let mut texts = Vec::new(alloc);
    for value in list_in(values, at)? {
        match value.as_str() {
            Some(text) => texts.push(text)?,
            None => bail!("no text in a list"),
        }
    }
    Ok(texts)
}

/// The pieces of the list at a place.
pub fn pieces_in(alloc: Global, values: &Value, at: usize) -> anyhow::Result<Vec<Vec<u8>>> {
    let mut pieces = Vec::new(alloc);
    for text in &texts_in(alloc, values, at)? {
        pieces.push(Vec::from_slice(alloc, text.as_bytes())?)?;
    }
    Ok(pieces)
}

/// Bytes as a JSON string, or how many they are where they are many.
pub fn quoted(alloc: Global, bytes: &[u8]) -> anyhow::Result<String> {
    if bytes.len() > MOST_TOLD {
        return Ok(format!(in alloc; "{} bytes", bytes.len())?);
    }
    let text = String::from_utf8_lossy(alloc, bytes)?;
    Ok(Value::String(text).to_string(alloc)?)
}

/// Adds a part to a line, behind a mark where there are others.
pub fn add(line: &mut String, mark: &str, part: &str) -> anyhow::Result<()> {
    if !line.is_empty() {
        line.push_str(mark)?;
    }
    Ok(line.push_str(part)?)
}
