//! Cases of ss_record, whose words and texts stand as they are:
//! - `payload ID PAYLOAD` is read; `record ID KIND PARENT CHILD CONTENT` is written, with one child, and read again;
//! - `content ID KIND CONTENT` tells whether there is such an item; `tombstone ID` is written.

use crate::reading::quoted;
use anyhow::bail;
use ss_record::{
    Item, ItemFault, Kind, Reading, Sheet, read_record, write_record, write_tombstone,
};
use ss_text::{Id, Stamp, Word};
use std::alloc::Global;

fn id(alloc: Global, text: &str) -> anyhow::Result<Id> {
    match Id::new(alloc, text.as_bytes())? {
        Some(id) => Ok(id),
        None => bail!("no id: {text}"),
    }
}

fn word(alloc: Global, text: &str) -> anyhow::Result<Word> {
    Ok(Word::new(String::from_str(alloc, text)?))
}

/// An item in one line: kind, content, parent and children.
fn told_item(
    alloc: Global,
    item: &Item,
    parentid: &Option<Word>,
    children: &[Word],
) -> anyhow::Result<String> {
    let parent = match parentid {
        Some(parent) => quoted(alloc, parent.as_str().as_bytes())?,
        None => String::from_str(alloc, "nobody")?,
    };
    let mut line = format!(in alloc;
        "{} {} under {parent}",
        item.kind().name(),
        item.content().as_str()
    )?;
    for child in children {
        line.push_str(" ")?;
        line.push_str(quoted(alloc, child.as_str().as_bytes())?.as_str())?;
    }
    Ok(line)
}

/// What a payload says of an id.
fn told_payload(alloc: Global, of: &str, payload: &str) -> anyhow::Result<String> {
    let sheet = Sheet {
        id: id(alloc, of)?,
        modified: Stamp::clamp(1000),
        payload: word(alloc, payload)?,
    };
    match read_record(alloc, &sheet)? {
        Reading::Item {
            item,
            parentid,
            children,
        } => told_item(alloc, &item, &parentid, children.as_slice()),
        Reading::Tombstone => Ok(String::from_str(alloc, "deleted")?),
        Reading::Skipped => Ok(String::from_str(alloc, "skipped")?),
    }
}

/// The kind of a name.
fn kind_of(name: &str) -> anyhow::Result<Kind> {
    match Kind::from_name(name) {
        Some(kind) => Ok(kind),
        None => bail!("no kind: {name}"),
    }
}

/// An item, or why there is none.
fn item(
    alloc: Global,
    of: &str,
    kind: &str,
    content: &str,
) -> anyhow::Result<Result<Item, ItemFault>> {
    Ok(Item::new(alloc, id(alloc, of)?, kind_of(kind)?, word(alloc, content)?))
}

/// Whether there is an item with this content.
fn told_content(alloc: Global, of: &str, kind: &str, content: &str) -> anyhow::Result<String> {
    match item(alloc, of, kind, content)? {
        Ok(item) => Ok(format!(in alloc; "fit: {}", item.content().as_str())?),
        Err(ItemFault::Unfit) => Ok(String::from_str(alloc, "unfit")?),
        Err(ItemFault::Memory) => bail!("no memory"),
    }
}

/// The record of an item with one child, and what it says.
fn told_record(
    alloc: Global,
    of: &str,
    item: &Item,
    parent: &str,
    child: &str,
) -> anyhow::Result<String> {
    let children = vec![in alloc; id(alloc, child)?]?;
    let record = write_record(alloc, &item.copy(alloc)?, &id(alloc, parent)?, &children)?;
    let told = told_payload(alloc, of, record.as_str())?;
    Ok(format!(in alloc; "{} says {told}", record.as_str())?)
}

/// The record that a line of five words tells, the last of which is the content.
fn record(alloc: Global, words: &[&str]) -> anyhow::Result<String> {
    match words {
        [of, kind, parent, child, content] => match item(alloc, of, kind, content)? {
            Ok(item) => told_record(alloc, of, &item, parent, child),
            Err(_) => bail!("no item"),
        },
        _ => bail!("no record"),
    }
}

/// The words of a text, the last of which has the rest.
fn words_in(alloc: Global, text: &str, count: usize) -> anyhow::Result<Vec<&str>> {
    let mut words = Vec::new(alloc);
    for word in text.splitn(count, ' ') {
        words.push(word)?;
    }
    Ok(words)
}

/// What a case tells, where it is one of these.
pub fn record_line(alloc: Global, kind: &str, text: &str) -> anyhow::Result<Option<String>> {
    let line = match kind {
        "payload" => match words_in(alloc, text, 2)?.as_slice() {
            [of, payload] => told_payload(alloc, of, payload)?,
            _ => bail!("no payload"),
        },
        "content" => match words_in(alloc, text, 3)?.as_slice() {
            [of, kind, content] => told_content(alloc, of, kind, content)?,
            _ => bail!("no content"),
        },
        "record" => record(alloc, words_in(alloc, text, 5)?.as_slice())?,
        "tombstone" => {
            let record = write_tombstone(alloc, &id(alloc, text)?)?;
            String::from_str(alloc, record.as_str())?
        }
        _ => return Ok(None),
    };
    Ok(Some(line))
}
