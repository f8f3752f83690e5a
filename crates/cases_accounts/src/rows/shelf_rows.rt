//! Rows and changes of rows that numbers give.

use crate::words::{id, name};
use ss_bso::{
    BatchChanges, Changes, CollectionChange, CollectionChanges, Row, RowChange, RowChanges,
};
use ss_text::{Id, Name, Stamp, Word};
use std::alloc::Global;

/// Numbers that look random.
#[derive(Drop)]
pub struct Dice {
    pub state: u32,
}

impl Dice {
    pub fn roll(&mut self) -> u32 {
        self.state = self
            .state
            .wrapping_mul(1_664_525)
            .wrapping_add(1_013_904_223);
        self.state >> 8
    }
}

/// One of two collections.
pub fn collection(alloc: Global, number: u32) -> anyhow::Result<Name> {
    name(alloc, if number % 2 == 0 { "forms" } else { "tabs" })
}

/// One of 32 ids.
fn id_of(alloc: Global, number: u32) -> anyhow::Result<Id> {
    id(alloc, format!(in alloc; "r{}", number / 2 % 32)?.as_str())
}

/// The row that a number gives, written at a time. Each fifth one ends 15 hundredths of a second later.
pub fn row(alloc: Global, number: u32, time: u64) -> anyhow::Result<Row> {
    let index = (number % 7) as i32;
    Ok(Row {
        collection: collection(alloc, number)?,
        id: id_of(alloc, number)?,
        modified: Stamp::clamp(time),
        sortindex: if number % 3 == 0 { None } else { Some(index) },
        payload: Word::new(format!(in alloc; "{number}")?),
        expires: if number % 5 == 0 {
            Some(time.saturating_add(15))
        } else {
            None
        },
    })
}

/// A number puts a row in two of three cases, and drops one in the others.
fn row_change(alloc: Global, number: u32, time: u64) -> anyhow::Result<RowChange> {
    if number % 9 < 6 {
        return Ok(RowChange::Put(row(alloc, number, time)?));
    }
    Ok(RowChange::Drop {
        collection: collection(alloc, number)?,
        id: id_of(alloc, number)?,
    })
}

/// Changes of rows at a time, once some collections are dropped.
pub fn changes(
    alloc: Global,
    rows: Vec<RowChange>,
    dropped: Vec<CollectionChange>,
    time: u64,
) -> Changes {
    Changes {
        moment: Stamp::clamp(time),
        rows: RowChanges::new(rows),
        collections: CollectionChanges::new(dropped),
        store: Stamp::clamp(time),
        last_delete: Stamp::clamp(0),
        counter: 0,
        batches: BatchChanges::new(Vec::new(alloc)),
    }
}

/// One to three changes of rows at a time; once in 50 times a collection goes first.
pub fn random_changes(alloc: Global, dice: &mut Dice, time: u64) -> anyhow::Result<Changes> {
    let mut rows = Vec::new(alloc);
    for _ in 0..=dice.roll() % 3 {
        rows.push(row_change(alloc, dice.roll(), time)?)?;
    }
    let mut dropped = Vec::new(alloc);
    if dice.roll() % 50 == 0 {
        let name = collection(alloc, dice.roll())?;
        dropped.push(CollectionChange::Drop { name })?;
    }
    Ok(changes(alloc, rows, dropped, time))
}
