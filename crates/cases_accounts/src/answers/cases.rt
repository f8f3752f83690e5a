//! Lines of the input.

use anyhow::bail;
use serde_json::Value;
use std::alloc::Global;

/// A run as a line has it.
#[derive(Drop)]
pub struct Case {
    pub words: Vec<String>,
    pub pieces: Vec<Vec<u8>>,
    /// The numbers of the read and of the write that fail, from 1; 0 is none.
    pub failing_read: u64,
    pub failing_write: u64,
}

/// The texts at a place of a line.
fn texts(alloc: Global, line: &[Value], at: usize) -> anyhow::Result<Vec<String>> {
    let Some(Value::Array(found)) = line.get(at) else {
        bail!("no list of texts");
    };
    let mut texts = Vec::new(alloc);
    for value in found.iter() {
        match value.as_str() {
            Some(text) => texts.push(String::from_str(alloc, text)?)?,
            None => bail!("no text"),
        }
    }
    Ok(texts)
}

/// The number at a place of a line.
fn number(line: &[Value], at: usize) -> anyhow::Result<u64> {
    match line.get(at) {
        Some(Value::Number(number)) => match number.as_u64() {
            Some(number) => Ok(number),
            None => bail!("no number from 0 on"),
        },
        _ => bail!("no number"),
    }
}

/// Texts as they come, each in one piece.
fn whole(alloc: Global, texts: &[String]) -> anyhow::Result<Vec<Vec<u8>>> {
    let mut pieces = Vec::new(alloc);
    for text in texts.iter() {
        pieces.push(Vec::from_slice(alloc, text.as_bytes())?)?;
    }
    Ok(pieces)
}

/// Texts as they come, byte by byte.
fn cut(alloc: Global, texts: &[String]) -> anyhow::Result<Vec<Vec<u8>>> {
    let mut pieces = Vec::new(alloc);
    for text in texts.iter() {
        for byte in text.bytes() {
            pieces.push(vec![in alloc; byte]?)?;
        }
    }
    Ok(pieces)
}

/// The pieces in which the input of a line comes.
fn pieces_in(alloc: Global, line: &[Value], is_cut: bool) -> anyhow::Result<Vec<Vec<u8>>> {
    let input = texts(alloc, line, 1)?;
    if is_cut {
        cut(alloc, input.as_slice())
    } else {
        whole(alloc, input.as_slice())
    }
}

/// The run that a line's list has.
fn case_of(alloc: Global, line: &[Value], is_cut: bool) -> anyhow::Result<Case> {
    Ok(Case {
        failing_read: number(line, 2)?,
        failing_write: number(line, 3)?,
        pieces: pieces_in(alloc, line, is_cut)?,
        words: texts(alloc, line, 0)?,
    })
}

/// Reads a line.
pub fn read(alloc: Global, line: &str) -> anyhow::Result<Case> {
    let (is_cut, list) = match line.strip_prefix("cut ") {
        Some(list) => (true, list),
        None => (false, line),
    };
    let value = Value::from_str(alloc, list)?;
    match value.as_array() {
        Some(list) => case_of(alloc, list.as_slice(), is_cut),
        None => bail!("no list"),
    }
}
