//! Cases of ss_text. Behind `decimals` and `backslashes` stands a text as it is, or a number, and behind the others a
//! JSON string, a number or a list:
//! - `decimals TEXT` tells how many decimals it has, and how it is wrapped, marked and unmarked again; `backslashes N`
//!   the same of a
//!   string of so many with a decimal inside and one behind it, by numbers of bytes; `decimal TEXT` whether it is one.
//! - `stamp TEXT` is read, in hundredths of a second, and `hundredths N` is printed; `text TEXT` is escaped behind a
//!   colon, and
//!   `lines TEXT` is cut.
//! - `id`, `name`, `ids`, `word` and `bytes` are made and copied.

use crate::reading::{add, number_in, quoted, text_in, texts_in, values};
use anyhow::bail;
use ss_text::{
    Bytes, Id, Ids, Name, Stamp, Word, count_decimals, cut_lines, is_decimal, mark_decimals,
    push_json_text, push_stamp, read_stamp, unmark_decimals, wrap_decimals,
};
use std::alloc::Global;

/// What a text is with its decimals wrapped, marked and unmarked.
fn decimals(alloc: Global, text: &str) -> anyhow::Result<String> {
    let wrapped = wrap_decimals(alloc, text.as_bytes())?;
    let marked = mark_decimals(alloc, text.as_bytes())?;
    let back = unmark_decimals(alloc, marked.as_slice())?;
    Ok(format!(in alloc;
        "{} of {} wrapped: {}  marked: {}  unmarked: {}",
        wrapped.count,
        count_decimals(text.as_bytes()),
        String::from_utf8_lossy(alloc, wrapped.bytes.as_slice())?,
        String::from_utf8_lossy(alloc, marked.as_slice())?,
        String::from_utf8_lossy(alloc, back.as_slice())?
    )?)
}

/// A string of so many backslashes with a decimal inside, and one behind it.
fn backslashed(alloc: Global, count: u64) -> anyhow::Result<String> {
    let backslashes = "\\".repeat(alloc, usize::try_from(count)?)?;
    Ok(format!(in alloc; "[\"{backslashes},1.5\",2.5")?)
}

/// How many bytes a string of so many backslashes has, and with its decimals wrapped, marked and unmarked.
fn backslashes(alloc: Global, text: &str) -> anyhow::Result<String> {
    let text = backslashed(alloc, text.parse::<u64>()?)?;
    let text = text.as_str().as_bytes();
    let wrapped = wrap_decimals(alloc, text)?;
    let marked = mark_decimals(alloc, text)?;
    let back = unmark_decimals(alloc, marked.as_slice())?;
    let same = if back.as_slice() == text {
        "the same"
    } else {
        "another text"
    };
    Ok(format!(in alloc;
        "{} bytes, {} of {} wrapped: {} bytes, marked: {}, unmarked: {}, {same}",
        text.len(),
        wrapped.count,
        count_decimals(text),
        wrapped.bytes.len(),
        marked.len(),
        back.len()
    )?)
}

/// Whether a text is a decimal.
fn decimal(alloc: Global, text: &str) -> anyhow::Result<String> {
    let answer = if is_decimal(text) {
        "a decimal"
    } else {
        "no decimal"
    };
    Ok(String::from_str(alloc, answer)?)
}

/// The hundredths of a second that a text says.
fn stamp(alloc: Global, text: &str) -> anyhow::Result<String> {
    match read_stamp(text.as_bytes()) {
        Some(stamp) => Ok(stamp.get().to_string(alloc)?),
        None => Ok(String::from_str(alloc, "no stamp")?),
    }
}

/// The stamp of a number of hundredths, as text.
fn hundredths(alloc: Global, number: u64) -> anyhow::Result<String> {
    let mut out = Vec::new(alloc);
    push_stamp(&mut out, Stamp::clamp(number))?;
    Ok(String::from_utf8_lossy(alloc, out.as_slice())?)
}

/// A text as a JSON string, behind a colon.
fn escaped(alloc: Global, text: &str) -> anyhow::Result<String> {
    let mut out = Vec::new(alloc);
    out.push(b':')?;
    push_json_text(&mut out, text)?;
    Ok(String::from_utf8_lossy(alloc, out.as_slice())?)
}

/// The lines of a text.
fn lines(alloc: Global, text: &str) -> anyhow::Result<String> {
    let mut out = String::new(alloc);
    for line in &cut_lines(alloc, text.as_bytes())? {
        add(&mut out, ", ", quoted(alloc, line.as_slice())?.as_str())?;
    }
    Ok(out)
}

/// A copy, and whether it is equal to what it was made of.
fn copied(alloc: Global, copy: &[u8], is_equal: bool) -> anyhow::Result<String> {
    let copy = quoted(alloc, copy)?;
    let equal = if is_equal { "equal" } else { "not equal" };
    Ok(format!(in alloc; "copied as {copy}, {equal}")?)
}

/// An id of a text, and its copy.
fn id(alloc: Global, text: &str) -> anyhow::Result<String> {
    let Some(id) = Id::new(alloc, text.as_bytes())? else {
        return Ok(String::from_str(alloc, "no id")?);
    };
    let copy = id.copy(alloc)?;
    copied(alloc, copy.as_str().as_bytes(), copy == id)
}

/// A collection's name of a text, and its copy.
fn name(alloc: Global, text: &str) -> anyhow::Result<String> {
    let Some(name) = Name::new(alloc, text.as_bytes())? else {
        return Ok(String::from_str(alloc, "no name")?);
    };
    let copy = name.copy(alloc)?;
    copied(alloc, copy.as_str().as_bytes(), copy == name)
}

/// A text of any length, and its copy.
fn word(alloc: Global, text: &str) -> anyhow::Result<String> {
    let word = Word::new(String::from_str(alloc, text)?);
    let copy = word.copy(alloc)?;
    copied(alloc, copy.as_str().as_bytes(), copy == word)
}

/// Bytes, and their copy.
fn bytes(alloc: Global, text: &str) -> anyhow::Result<String> {
    let bytes = Bytes::from_slice(alloc, text.as_bytes())?;
    let copy = bytes.copy(alloc)?;
    copied(alloc, copy.as_slice(), copy == bytes)
}

/// The ids of these texts.
fn ids_of(alloc: Global, texts: &[&str]) -> anyhow::Result<Ids> {
    let mut ids = Vec::new(alloc);
    for text in texts {
        match Id::new(alloc, text.as_bytes())? {
            Some(id) => ids.push(id)?,
            None => bail!("no id: {text}"),
        }
    }
    Ok(Ids::new(ids))
}

/// A list of ids, its copy, and whether it is equal to a list of none.
fn ids(alloc: Global, texts: &[&str]) -> anyhow::Result<String> {
    let ids = ids_of(alloc, texts)?;
    let copy = ids.copy(alloc)?;
    let mut out = String::new(alloc);
    for id in copy.as_slice() {
        add(&mut out, ", ", id.as_str())?;
    }
    let copied = copied(alloc, out.as_str().as_bytes(), copy == ids)?;
    let none = if ids == Ids::new(Vec::new(alloc)) {
        "equal"
    } else {
        "not equal"
    };
    Ok(format!(in alloc; "{} {copied}; to none {none}", copy.as_slice().len())?)
}

/// What a case tells of a JSON string, where it is one of these.
fn told_of_text(alloc: Global, kind: &str, text: &str) -> anyhow::Result<String> {
    match kind {
        "decimal" => decimal(alloc, text),
        "stamp" => stamp(alloc, text),
        "text" => escaped(alloc, text),
        "lines" => lines(alloc, text),
        "id" => id(alloc, text),
        "name" => name(alloc, text),
        "word" => word(alloc, text),
        _ => bytes(alloc, text),
    }
}

/// What a case tells, where it is one of these.
pub fn text_line(alloc: Global, kind: &str, text: &str) -> anyhow::Result<Option<String>> {
    let line = match kind {
        "decimals" => decimals(alloc, text)?,
        "backslashes" => backslashes(alloc, text)?,
        "hundredths" => hundredths(alloc, text.parse::<u64>()?)?,
        "ids" => ids(alloc, texts_in(alloc, &values(alloc, text)?, 0)?.as_slice())?,
        "decimal" | "stamp" | "text" | "lines" | "id" | "name" | "word" | "bytes" => {
            told_of_text(alloc, kind, text_in(&values(alloc, text)?, 0)?)?
        }
        _ => return Ok(None),
    };
    Ok(Some(line))
}
