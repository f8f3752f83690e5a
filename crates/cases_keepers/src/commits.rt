//! Commits in short. A line has three texts, each of changes that are parted by bars: of rows, of collections and of
//! batches.
//! - A row that is put is `collection/id=payload`, with `^sortindex` and `~expiry` where it has them, and a payload `*`
//!   is 2 MB of text; a row that is dropped is `collection/id`; `collection/#count` puts so many rows.
//! - A collection that is set is `name@time`, one that is dropped `name`.
//! - A batch that begins is `number:collection/parts`, one that gets parts `number+parts`, and one that ends `number`.
//!   Commas part the parts: `id` says nothing of its fields, `id!` clears them, and `id=payload` sets the payload and,
//!   with `^sortindex` and `~ttl`, those too.

use crate::words::{id, name};
use anyhow::{Context, bail};
use serde_json::Value;
use ss_bso::{
    BatchChange, BatchChanges, Changes, CollectionChange, CollectionChanges, Field, Fields, Part,
    Parts, Row, RowChange, RowChanges, Staged,
};
use ss_text::{Stamp, Word};
use std::alloc::Global;

fn payload(alloc: Global, text: &str) -> anyhow::Result<Word> {
    if text != "*" {
        return Ok(Word::new(String::from_str(alloc, text)?));
    }
    let mut large = String::new(alloc);
    for _ in 0..131_072 {
        large.push_str("sixteen letters ")?;
    }
    Ok(Word::new(large))
}

/// A text up to a mark, and the number behind it.
fn marked(text: &str, mark: char) -> anyhow::Result<(&str, Option<&str>)> {
    Ok(match text.split_once(mark) {
        Some((front, number)) => (front, Some(number)),
        None => (text, None),
    })
}

fn put(alloc: Global, place: (&str, &str), text: &str) -> anyhow::Result<RowChange> {
    let (text, expiry) = marked(text, '~')?;
    let (text, sortindex) = marked(text, '^')?;
    let expires = match expiry {
        Some(number) => Some(number.parse::<u64>()?),
        None => None,
    };
    let sortindex = match sortindex {
        Some(number) => Some(number.parse::<i32>()?),
        None => None,
    };
    Ok(RowChange::Put(Row {
        modified: Stamp::clamp(999_999_999_999),
        sortindex,
        expires,
        collection: name(alloc, place.0)?,
        id: id(alloc, place.1)?,
        payload: payload(alloc, text)?,
    }))
}

fn drop_row(alloc: Global, place: (&str, &str)) -> anyhow::Result<RowChange> {
    Ok(RowChange::Drop {
        collection: name(alloc, place.0)?,
        id: id(alloc, place.1)?,
    })
}

fn row_change(alloc: Global, word: &str) -> anyhow::Result<RowChange> {
    match word.split_once('=') {
        Some((place, text)) => put(alloc, place.split_once('/').context("a place")?, text),
        None => drop_row(alloc, word.split_once('/').context("a place")?),
    }
}

/// So many rows of a collection.
fn many(alloc: Global, collection: &str, count: u64) -> anyhow::Result<RowChanges> {
    let mut changes = Vec::new(alloc);
    for number in 0..count {
        let of = format!(in alloc; "{number}")?;
        changes.push(put(alloc, (collection, of.as_str()), "row")?)?;
    }
    Ok(RowChanges::new(changes))
}

fn row_changes(alloc: Global, words: &str) -> anyhow::Result<RowChanges> {
    if let Some((collection, count)) = words.split_once("/#") {
        return many(alloc, collection, count.parse::<u64>()?);
    }
    let mut changes = Vec::new(alloc);
    for word in words.split('|') {
        if !word.is_empty() {
            changes.push(row_change(alloc, word)?)?;
        }
    }
    Ok(RowChanges::new(changes))
}

fn time_change(alloc: Global, word: &str) -> anyhow::Result<CollectionChange> {
    match word.split_once('@') {
        Some((collection, time)) => Ok(CollectionChange::Set {
            name: name(alloc, collection)?,
            time: Stamp::clamp(time.parse::<u64>()?),
        }),
        None => Ok(CollectionChange::Drop {
            name: name(alloc, word)?,
        }),
    }
}

fn time_changes(alloc: Global, words: &str) -> anyhow::Result<CollectionChanges> {
    let mut changes = Vec::new(alloc);
    for word in words.split('|') {
        if !word.is_empty() {
            changes.push(time_change(alloc, word)?)?;
        }
    }
    Ok(CollectionChanges::new(changes))
}

/// A part that clears its fields.
fn cleared(alloc: Global, of: &str) -> anyhow::Result<Part> {
    Ok(Part {
        id: id(alloc, of)?,
        fields: Fields {
            payload: Field::Clear,
            sortindex: Field::Clear,
            ttl: Field::Clear,
        },
    })
}

/// A part that sets what its text tells.
fn set(alloc: Global, text: &str) -> anyhow::Result<Part> {
    let (text, ttl) = marked(text, '~')?;
    let (text, sortindex) = marked(text, '^')?;
    let (of, text) = marked(text, '=')?;
    let fields = Fields {
        ttl: match ttl {
            Some(number) => Field::Set(number.parse::<u32>()?),
            None => Field::Keep,
        },
        sortindex: match sortindex {
            Some(number) => Field::Set(number.parse::<i32>()?),
            None => Field::Keep,
        },
        payload: match text {
            Some(text) => Field::Set(payload(alloc, text)?),
            None => Field::Keep,
        },
    };
    Ok(Part {
        id: id(alloc, of)?,
        fields,
    })
}

fn part(alloc: Global, text: &str) -> anyhow::Result<Part> {
    match text.split_once('!') {
        Some((of, _)) => cleared(alloc, of),
        None => set(alloc, text),
    }
}

fn parts(alloc: Global, text: &str) -> anyhow::Result<Parts> {
    let mut parts = Vec::new(alloc);
    for word in text.split(',') {
        if !word.is_empty() {
            parts.push(part(alloc, word)?)?;
        }
    }
    Ok(Parts::new(parts))
}

fn batch_begin(alloc: Global, number: &str, text: &str) -> anyhow::Result<BatchChange> {
    let (collection, text) = text.split_once('/').context("parts")?;
    Ok(BatchChange::Begin(Staged {
        number: number.parse::<u64>()?,
        begun: Stamp::clamp(999_999_999_999),
        collection: name(alloc, collection)?,
        parts: parts(alloc, text)?,
    }))
}

fn batch_append(alloc: Global, number: &str, text: &str) -> anyhow::Result<BatchChange> {
    Ok(BatchChange::Append {
        number: number.parse::<u64>()?,
        parts: parts(alloc, text)?,
    })
}

fn batch_change(alloc: Global, word: &str) -> anyhow::Result<BatchChange> {
    if let Some((number, text)) = word.split_once(':') {
        return batch_begin(alloc, number, text);
    }
    match word.split_once('+') {
        Some((number, text)) => batch_append(alloc, number, text),
        None => Ok(BatchChange::End {
            number: word.parse::<u64>()?,
        }),
    }
}

fn batch_changes(alloc: Global, words: &str) -> anyhow::Result<BatchChanges> {
    let mut changes = Vec::new(alloc);
    for word in words.split('|') {
        if !word.is_empty() {
            changes.push(batch_change(alloc, word)?)?;
        }
    }
    Ok(BatchChanges::new(changes))
}

/// A commit as its line tells it.
#[derive(Drop)]
struct Commit {
    rows: String,
    collections: String,
    batches: String,
}

/// The commits of the lines so far, by their numbers from 0 on.
#[derive(Drop)]
pub struct Commits {
    commits: Vec<Commit>,
    /// Numbers of commits, and the statements that make a database of an older version with what each makes.
    old: Vec<(u64, String)>,
}

/// The text at a place of a line.
fn text_in(alloc: Global, line: &Value, at: usize) -> anyhow::Result<String> {
    let text = line.get(at).and_then(Value::as_str).context("a text")?;
    Ok(String::from_str(alloc, text)?)
}

/// The commit of a line, a JSON list of its three texts.
fn read_commit(alloc: Global, line: &Value) -> anyhow::Result<Commit> {
    Ok(Commit {
        rows: text_in(alloc, line, 0)?,
        collections: text_in(alloc, line, 1)?,
        batches: text_in(alloc, line, 2)?,
    })
}

impl Commits {
    pub fn new(alloc: Global) -> Commits {
        Commits {
            commits: Vec::new(alloc),
            old: Vec::new(alloc),
        }
    }

    /// Adds the commit of a line, a JSON list of its three texts.
    pub fn add(&mut self, alloc: Global, json: &str) -> anyhow::Result<()> {
        let line = Value::from_str(alloc, json)?;
        self.commits.push(read_commit(alloc, &line)?)?;
        Ok(())
    }

    /// Takes statements that make a database of an older version with what the last commit makes.
    pub fn add_old(&mut self, alloc: Global, sql: &str) -> anyhow::Result<()> {
        let Some(last) = self.commits.len().checked_sub(1) else {
            bail!("no commit");
        };
        self.old.push((last as u64, String::from_str(alloc, sql)?))?;
        Ok(())
    }

    /// The statements that make a database of an older version with what a commit makes, where there are such.
    pub fn old_tables(&self, number: u64) -> Option<&str> {
        for old in &self.old {
            if old.0 == number {
                return Some(old.1.as_str());
            }
        }
        None
    }

    /// The changes of a commit. Its moment isn't its store's time, and the last deletion is later than both.
    pub fn changes(&self, alloc: Global, number: u64) -> anyhow::Result<Changes> {
        let commit = self
            .commits
            .get(usize::try_from(number)?)
            .context("a commit")?;
        Ok(Changes {
            moment: Stamp::clamp(number.saturating_mul(10).saturating_add(10)),
            rows: row_changes(alloc, commit.rows.as_str())?,
            collections: time_changes(alloc, commit.collections.as_str())?,
            store: Stamp::clamp(number.saturating_mul(10).saturating_add(4)),
            last_delete: Stamp::clamp(number.saturating_add(1000)),
            counter: u64::MAX.saturating_sub(number),
            batches: batch_changes(alloc, commit.batches.as_str())?,
        })
    }
}
