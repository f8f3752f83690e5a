//! A shelf under random changes, against a plain list of rows. A line `query TEXT` is one of the queries, whose times
//! are counted from one second before the last change; `changes SEED ROUNDS EVERY` makes so many changes and asks all
//! queries and numbers after each so many. `newer TIME` tells which of five rows are newer.

use crate::rows::newer;
use crate::rows::plain::{listed, rows_of, sizes};
use crate::rows::shelf_rows::{Dice, collection, random_changes};
use crate::words::number;
use anyhow::bail;
use ss_bso::{Changes, Row};
use ss_index::Shelf;
use ss_list::Steps;
use ss_query::{Picked, PickedIds, Query, answer_query, read_query};
use ss_text::{Name, Stamp};
use std::alloc::{AllocError, Global};
use std::sync::ledger::Ledger;

/// The shelf after changes; false where they aren't in the order of time, or too many.
pub fn change(alloc: Global, shelf: &mut Shelf, changes: &Changes) -> Result<bool, AllocError> {
    let few = shelf.len() < 1_000 && changes.rows.as_slice().len() < 1_000;
    if !few || !shelf.is_in_time(changes) {
        return Ok(false);
    }
    let ready = shelf.prepare(alloc, changes)?;
    shelf.apply(ready);
    Ok(true)
}

/// A query's text, read, with its times counted from a base.
fn query(alloc: Global, text: &str, base: u64) -> anyhow::Result<Query> {
    let Ok(mut query) = read_query(alloc, text.as_bytes()) else {
        bail!("no query: {text}");
    };
    query.newer = query
        .newer
        .map(|time| Stamp::clamp(time.get().saturating_add(base)));
    query.older = query
        .older
        .map(|time| Stamp::clamp(time.get().saturating_add(base)));
    Ok(query)
}

fn same_row(one: &Row, other: &Row) -> bool {
    one.collection == other.collection
        && one.id == other.id
        && one.modified == other.modified
        && one.sortindex == other.sortindex
        && one.payload == other.payload
        && one.expires == other.expires
}

/// The same rows in the same order, and the same next page.
fn same_rows(one: &Picked, other: &Picked) -> bool {
    let (rows, others) = (one.rows.as_slice(), other.rows.as_slice());
    one.next == other.next
        && rows.len() == others.len()
        && rows
            .iter()
            .zip(others)
            .all(|(row, other)| same_row(row, other))
}

/// The ids are those of the rows, in their order.
fn same_ids(ids: &PickedIds, picked: &Picked) -> bool {
    let rows = picked.rows.as_slice();
    let ids_are = ids.ids.as_slice();
    ids.next == picked.next
        && ids_are.len() == rows.len()
        && ids_are.iter().zip(rows).all(|(id, row)| *id == row.id)
}

/// The rows and bytes of each collection, by what a shelf's `counts`, `usage` and `total` tell.
fn sizes_line(
    alloc: Global,
    counts: &[(Name, u64)],
    usage: &[(Name, u64)],
    total: u64,
) -> anyhow::Result<String> {
    if counts.len() != usage.len() {
        return Ok(String::from_str(alloc, "other collections")?);
    }
    let mut line = String::new(alloc);
    for (count, bytes) in counts.iter().zip(usage) {
        if count.0 != bytes.0 {
            return Ok(String::from_str(alloc, "another name")?);
        }
        let word = format!(in alloc; "{}={},{} ", count.0.as_str(), count.1, bytes.1)?;
        line.push_str(word.as_str())?;
    }
    Ok(format!(in alloc; "{line}total={total}")?)
}

/// The rows and bytes of each collection by `counts`, `usage` and `total`.
fn sizes_told(alloc: Global, shelf: &Shelf) -> anyhow::Result<String> {
    let (counts, usage) = (shelf.counts(alloc)?, shelf.usage(alloc)?);
    sizes_line(alloc, counts.as_slice(), usage.as_slice(), shelf.total())
}

/// What a query is answered: over a plain list, and by a shelf with rows and with ids.
#[derive(Drop)]
struct Answers {
    wanted: Picked,
    found: Picked,
    ids: PickedIds,
}

impl Answers {
    /// Whether they are alike.
    fn are_same(&self) -> bool {
        same_rows(&self.found, &self.wanted) && same_ids(&self.ids, &self.wanted)
    }
}

/// A shelf and a list that must be alike, and what was compared and found.
#[derive(Drop)]
struct Draws {
    dice: Dice,
    shelf: Shelf,
    rows: Vec<Row>,
    lengths: u64,
    queries: u64,
    counts: u64,
    sizes: u64,
    differing: Vec<String>,
}

impl Draws {
    fn new(alloc: Global, seed: u32) -> Draws {
        Draws {
            dice: Dice { state: seed },
            shelf: Shelf::new(alloc),
            rows: Vec::new(alloc),
            lengths: 0,
            queries: 0,
            counts: 0,
            sizes: 0,
            differing: Vec::new(alloc),
        }
    }

    /// Makes changes in both.
    fn make(&mut self, alloc: Global, changes: &Changes) -> anyhow::Result<()> {
        if !change(alloc, &mut self.shelf, changes)? {
            bail!("changes out of time");
        }
        let rows = std::mem::replace(&mut self.rows, Vec::new(alloc));
        self.rows = listed(alloc, rows, changes)?;
        Ok(())
    }

    /// One random change of both.
    fn turn(&mut self, alloc: Global, time: u64) -> anyhow::Result<()> {
        let changes = random_changes(alloc, &mut self.dice, time)?;
        self.make(alloc, &changes)?;
        self.lengths = self.lengths.saturating_add(1);
        let (length, wanted) = (self.shelf.len(), self.rows.len());
        if length != wanted as u64 {
            self.differing.push(format!(in alloc; "\n{time}: {length} rows and not {wanted}")?)?;
        }
        Ok(())
    }

    /// What a query is answered over a collection's rows and by the shelf.
    fn answers<L: Ledger>(
        &self,
        alloc: Global,
        name: &Name,
        rows: &[Row],
        query: &Query,
        steps: &mut Steps<L>,
    ) -> anyhow::Result<Answers> {
        Ok(Answers {
            wanted: answer_query(alloc, rows, query)?,
            found: self.shelf.select(alloc, name, query, steps)?,
            ids: self.shelf.select_ids(alloc, name, query, steps)?,
        })
    }

    /// Notes answers that differ, behind the query that was asked.
    fn note(&mut self, alloc: Global, asked: &str, answers: &Answers) -> anyhow::Result<()> {
        let Answers { wanted, found, ids } = answers;
        self.differing.push(format!(in alloc;
            "\n{asked}: {found:?} and {ids:?}, and not {wanted:?}"
        )?)?;
        Ok(())
    }

    /// Compares the answer of a query with that over a collection's rows.
    fn ask<L: Ledger>(
        &mut self,
        alloc: Global,
        name: &Name,
        rows: &[Row],
        text: &str,
        base: u64,
        steps: &mut Steps<L>,
    ) -> anyhow::Result<()> {
        let query = query(alloc, text, base)?;
        let answers = self.answers(alloc, name, rows, &query, steps)?;
        self.queries = self.queries.saturating_add(1);
        if !answers.are_same() {
            let asked = format!(in alloc; "{} {text} from {base}", name.as_str())?;
            self.note(alloc, asked.as_str(), &answers)?;
        }
        Ok(())
    }

    /// Compares the number of a collection's rows.
    fn count(&mut self, alloc: Global, name: &Name, wanted: usize) -> anyhow::Result<()> {
        let count = self.shelf.count_of(name);
        self.counts = self.counts.saturating_add(1);
        if count != wanted as u64 {
            self.differing.push(format!(in alloc;
                "\n{}: {count} rows and not {wanted}",
                name.as_str()
            )?)?;
        }
        Ok(())
    }

    /// Compares every query and the number of rows of a collection.
    fn ask_all<L: Ledger>(
        &mut self,
        alloc: Global,
        queries: &[String],
        number: u32,
        base: u64,
        steps: &mut Steps<L>,
    ) -> anyhow::Result<()> {
        let name = collection(alloc, number)?;
        let rows = rows_of(alloc, self.rows.as_slice(), &name)?;
        self.count(alloc, &name, rows.len())?;
        for text in queries {
            self.ask(alloc, &name, rows.as_slice(), text.as_str(), base, steps)?;
        }
        Ok(())
    }

    /// Compares the rows and bytes of all collections.
    fn weigh(&mut self, alloc: Global) -> anyhow::Result<()> {
        let (found, wanted) = (
            sizes_told(alloc, &self.shelf)?,
            sizes(alloc, self.rows.as_slice())?,
        );
        self.sizes = self.sizes.saturating_add(1);
        if found != wanted {
            self.differing
                .push(format!(in alloc; "\n{found} and not {wanted}")?)?;
        }
        Ok(())
    }

    /// Compares all that can be asked, about one second after the base of times.
    fn expect<L: Ledger>(
        &mut self,
        alloc: Global,
        queries: &[String],
        time: u64,
        steps: &mut Steps<L>,
    ) -> anyhow::Result<()> {
        let base = time.saturating_sub(100);
        self.ask_all(alloc, queries, 0, base, steps)?;
        self.ask_all(alloc, queries, 1, base, steps)?;
        self.weigh(alloc)
    }

    /// What was compared, what differs, and what there is at last.
    fn shelf_line(&self, alloc: Global) -> anyhow::Result<String> {
        let mut told = format!(in alloc;
            "{} lengths, {} queries, {} counts and {} sizes compared with a list, {} differ; at last {} rows: {}",
            self.lengths,
            self.queries,
            self.counts,
            self.sizes,
            self.differing.len(),
            self.shelf.len(),
            sizes_told(alloc, &self.shelf)?
        )?;
        for found in self.differing.iter() {
            told.push_str(found.as_str())?;
        }
        Ok(told)
    }
}

/// The queries that are asked.
#[derive(Drop)]
pub struct Shelves {
    queries: Vec<String>,
}

impl Shelves {
    pub fn new(alloc: Global) -> Shelves {
        Shelves {
            queries: Vec::new(alloc),
        }
    }

    /// Makes so many changes, and compares after each so many.
    fn play<L: Ledger>(
        &self,
        alloc: Global,
        draws: &mut Draws,
        rounds: u64,
        every: u64,
        steps: &mut Steps<L>,
    ) -> anyhow::Result<()> {
        let mut left = every;
        for round in 0..rounds {
            draws.turn(alloc, round / 3)?;
            left = left.saturating_sub(1);
            if left == 0 {
                draws.expect(alloc, self.queries.as_slice(), round / 3, steps)?;
                left = every;
            }
        }
        Ok(())
    }

    fn run<L: Ledger>(
        &self,
        alloc: Global,
        seed: u32,
        rounds: u64,
        every: u64,
        steps: &mut Steps<L>,
    ) -> anyhow::Result<String> {
        let mut draws = Draws::new(alloc, seed);
        self.play(alloc, &mut draws, rounds, every, steps)?;
        draws.shelf_line(alloc)
    }

    /// Takes a query, and tells how many there are.
    fn add(&mut self, alloc: Global, text: &str) -> anyhow::Result<String> {
        self.queries.push(String::from_str(alloc, text)?)?;
        Ok(format!(in alloc; "query {}", self.queries.len())?)
    }

    /// What comes of a line, if it is about a shelf.
    pub fn outcome<L: Ledger>(
        &mut self,
        alloc: Global,
        words: &[&str],
        steps: &mut Steps<L>,
    ) -> anyhow::Result<Option<String>> {
        Ok(Some(match words {
            ["query"] => self.add(alloc, "")?,
            ["query", text] => self.add(alloc, text)?,
            ["changes", seed, rounds, every] => {
                let seed = seed.parse::<u32>()?;
                self.run(alloc, seed, number(rounds)?, number(every)?, steps)?
            }
            ["newer", time] => newer::times(alloc, number(time)?, steps)?,
            _ => return Ok(None),
        }))
    }
}
