//! Ids, bookmarks and folders.

use anyhow::bail;
use ss_record::{Item, Kind};
use ss_text::{Id, Name, Word};
use std::alloc::Global;

pub fn id(alloc: Global, text: &str) -> anyhow::Result<Id> {
    match Id::new(alloc, text.as_bytes())? {
        Some(id) => Ok(id),
        None => bail!("no id"),
    }
}

pub fn name(alloc: Global, text: &str) -> anyhow::Result<Name> {
    match Name::new(alloc, text.as_bytes())? {
        Some(name) => Ok(name),
        None => bail!("no name"),
    }
}

pub fn word(alloc: Global, text: &str) -> anyhow::Result<Word> {
    Ok(Word::new(String::from_str(alloc, text)?))
}

/// An item with its id as its title: a folder where the id begins with `f`.
pub fn item(alloc: Global, text: &str) -> anyhow::Result<Item> {
    let (kind, content) = if text.starts_with('f') {
        (Kind::Folder, format!(in alloc; "{{\"title\":\"{text}\"}}")?)
    } else {
        let content = format!(in alloc; "{{\"bmkUri\":\"http://h/{text}\",\"title\":\"{text}\"}}")?;
        (Kind::Bookmark, content)
    };
    match Item::new(alloc, id(alloc, text)?, kind, Word::new(content)) {
        Ok(item) => Ok(item),
        Err(_) => bail!("no item"),
    }
}
