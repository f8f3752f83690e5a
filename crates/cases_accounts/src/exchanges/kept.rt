//! Lines that tell what is kept of an account at first.

use crate::exchanges::bodies::letters;
use crate::words::{id, name, number, split};
use anyhow::bail;
use ss_bso::{Batches, Field, Fields, Kept, Part, Parts, Row, Rows, Staged, Times};
use ss_text::{Name, Stamp, Word};
use std::alloc::Global;

/// What is kept of an account, as it is gathered.
#[derive(Drop)]
pub struct Gathered {
    rows: Vec<Row>,
    collections: Vec<(Name, Stamp)>,
    batches: Vec<Staged>,
    store: u64,
    counter: u64,
}

/// A record with a payload of so many letters.
fn part(alloc: Global, size: u64) -> anyhow::Result<Part> {
    Ok(Part {
        id: id(alloc, "a")?,
        fields: Fields {
            payload: Field::Set(Word::new(letters(alloc, size)?)),
            sortindex: Field::Keep,
            ttl: Field::Keep,
        },
    })
}

/// So many records with payloads of so many letters.
fn parts_of(alloc: Global, records: u64, size: u64) -> anyhow::Result<Vec<Part>> {
    let mut parts = Vec::new(alloc);
    for _ in 0..records {
        parts.push(part(alloc, size)?)?;
    }
    Ok(parts)
}

impl Gathered {
    pub fn new(alloc: Global) -> Gathered {
        Gathered {
            rows: Vec::new(alloc),
            collections: Vec::new(alloc),
            batches: Vec::new(alloc),
            store: 0,
            counter: 0,
        }
    }

    pub fn into_kept(self, alloc: Global) -> Kept {
        let Gathered {
            rows,
            collections,
            batches,
            store,
            counter,
        } = self;
        Kept {
            rows: Rows::new(rows),
            collections: Times::new(collections),
            batches: Batches::new(batches),
            store: Stamp::clamp(store),
            counter,
            ..Kept::fresh(alloc)
        }
    }

    /// A row without a payload.
    fn add_row(
        &mut self,
        alloc: Global,
        collection: &str,
        of: &str,
        time: &str,
    ) -> anyhow::Result<()> {
        let modified = Stamp::clamp(number(time)?);
        self.rows.push(Row {
            collection: name(alloc, collection)?,
            id: id(alloc, of)?,
            modified,
            sortindex: None,
            payload: Word::new(String::new(alloc)),
            expires: None,
        })?;
        Ok(())
    }

    /// So many rows, whose ids are the numbers from 0 on.
    fn add_rows(
        &mut self,
        alloc: Global,
        collection: &str,
        count: &str,
        time: &str,
    ) -> anyhow::Result<()> {
        for of in 0..number(count)? {
            self.add_row(alloc, collection, of.to_string(alloc)?.as_str(), time)?;
        }
        Ok(())
    }

    /// A batch of so many records of so many payload bytes.
    fn add_batch(
        &mut self,
        alloc: Global,
        of: &str,
        collection: &str,
        begun: &str,
        records: &str,
        size: &str,
    ) -> anyhow::Result<()> {
        let (of, begun) = (number(of)?, Stamp::clamp(number(begun)?));
        let parts = parts_of(alloc, number(records)?, number(size)?)?;
        self.batches.push(Staged {
            number: of,
            collection: name(alloc, collection)?,
            begun,
            parts: Parts::new(parts),
        })?;
        Ok(())
    }

    /// One more record in the last batch, of so many payload bytes.
    fn add_part(&mut self, alloc: Global, size: &str) -> anyhow::Result<()> {
        let part = part(alloc, number(size)?)?;
        let Some(staged) = self.batches.last_mut() else {
            bail!("no batch");
        };
        let none = Parts::new(Vec::new(alloc));
        let mut parts = std::mem::replace(&mut staged.parts, none).into_vec();
        parts.push(part)?;
        staged.parts = Parts::new(parts);
        Ok(())
    }

    /// A collection with its time.
    fn add_collection(
        &mut self,
        alloc: Global,
        collection: &str,
        time: &str,
    ) -> anyhow::Result<()> {
        let time = Stamp::clamp(number(time)?);
        self.collections.push((name(alloc, collection)?, time))?;
        Ok(())
    }

    /// Takes a line by its words, and says whether it is one of these.
    fn take_words(&mut self, alloc: Global, words: &[&str]) -> anyhow::Result<bool> {
        match words {
            ["collection", collection, time] => self.add_collection(alloc, collection, time)?,
            ["row", collection, of, time] => self.add_row(alloc, collection, of, time)?,
            ["rows", collection, count, time] => self.add_rows(alloc, collection, count, time)?,
            ["batch", of, collection, begun, records, size] => {
                self.add_batch(alloc, of, collection, begun, records, size)?;
            }
            ["part", size] => self.add_part(alloc, size)?,
            ["store", time] => self.store = number(time)?,
            ["counter", count] => self.counter = number(count)?,
            _ => return Ok(false),
        }
        Ok(true)
    }

    /// Takes a line, and says whether it is one of these.
    pub fn take(&mut self, alloc: Global, line: &str) -> anyhow::Result<bool> {
        let words = split(alloc, line)?;
        self.take_words(alloc, words.as_slice())
    }
}
