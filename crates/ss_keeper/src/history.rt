//! What is kept, in memory, with the changes of later commits beside it.

ghost use Rattle.std.specs.Prelude.{◌≡◌, [], IfOk, OnOk, OnErr};
ghost use Rattle.ss_bso.specs.Changes.{kept_after_changes};
ghost use Rattle.ss_keeper.specs.Memory.{after_commits};

use crate::making::make;
use ss_bso::{BatchChange, Changes, Field, Kept, Part, Row, RowChange, Rows};
use ss_text::Word;
use std::alloc::{AllocError, Global};
use std::marker::Model;

/// What a row, a part, a collection or a commit counts beside its payload, in bytes.
const BESIDES: u64 = 256;

/// What is kept after the changes of commits. They stand beside what was kept before them until they weigh as much;
/// then they are made to it together. So a commit costs time in the size of its changes, and not of what is kept.
#[derive(Drop, Debug)]
pub(crate) struct History {
    before: Kept,
    commits: Vec<Changes>,

    /// How much `before` weighs.
    weight: u64,

    /// How much the commits weigh.
    later_weight: u64,
}

impl Model for History {
    ghost use Rattle.ss_bso.specs.declared.changes.Kept.{Kept};
    ghost use Rattle.ss_keeper.specs.Memory.{after_commits};

    ghost Value = { Kept };

    ghost view = { λ h. after_commits h.before h.commits.items };
}

fn row_weight(row: &Row) -> u64 {
    BESIDES.saturating_add(row.payload.as_str().len() as u64)
}

fn payload_weight(payload: &Field<Word>) -> u64 {
    match payload {
        Field::Set(text) => text.as_str().len() as u64,
        Field::Keep | Field::Clear => 0,
    }
}

fn parts_weight(parts: &[Part]) -> u64 {
    let mut weight = 0u64;
    for part in parts {
        weight = weight.saturating_add(BESIDES);
        weight = weight.saturating_add(payload_weight(&part.fields.payload));
    }
    weight
}

fn kept_weight(kept: &Kept) -> u64 {
    let mut weight = BESIDES.saturating_mul(kept.collections.as_slice().len() as u64);
    for row in kept.rows.as_slice() {
        weight = weight.saturating_add(row_weight(row));
    }
    for batch in kept.batches.as_slice() {
        weight = weight.saturating_add(parts_weight(batch.parts.as_slice()));
    }
    weight
}

fn batch_change_weight(change: &BatchChange) -> u64 {
    let weight = match change {
        BatchChange::End { .. } => 0,
        BatchChange::Begin(staged) => parts_weight(staged.parts.as_slice()),
        BatchChange::Append { parts, .. } => parts_weight(parts.as_slice()),
    };
    weight.saturating_add(BESIDES)
}

fn changes_weight(changes: &Changes) -> u64 {
    let mut weight = BESIDES.saturating_mul(changes.collections.as_slice().len() as u64);
    for change in changes.rows.as_slice() {
        weight = weight.saturating_add(match change {
            RowChange::Put(row) => row_weight(row),
            RowChange::Drop { .. } => BESIDES,
        });
    }
    for change in changes.batches.as_slice() {
        weight = weight.saturating_add(batch_change_weight(change));
    }
    weight.saturating_add(BESIDES)
}

/// Makes the changes of all commits to what was kept before them. Without memory both are as they were.
fn settle(alloc: Global, before: &mut Kept, commits: &mut Vec<Changes>) -> Result<(), AllocError>
    ensures made { OnOk result (before.new ≡ after_commits before.old commits.old.items) }
    ensures none { OnOk result (commits.new.items ≡ []) }
    ensures same { OnErr result (before.new ≡ before.old) }
    ensures left { OnErr result (commits.new.items ≡ commits.old.items) }
{
    make(alloc, before, commits.as_slice())?;
    commits.clear();
    Ok(())
}

impl History {
    /// What is kept, before any commit.
    pub(crate) fn new(kept: Kept) -> History
        ensures { result ≡ kept }
    {
        let weight = kept_weight(&kept);
        let rows = kept.rows.into_vec();
        let commits = Vec::new(*rows.allocator());
        History {
            before: Kept {
                rows: Rows::new(rows),
                collections: kept.collections,
                store: kept.store,
                last_delete: kept.last_delete,
                counter: kept.counter,
                batches: kept.batches,
            },
            commits,
            weight,
            later_weight: 0,
        }
    }

    /// What is kept.
    pub(crate) fn copy(&mut self, alloc: Global) -> Result<Kept, AllocError>
        ensures copied { IfOk result (λ kept. kept ≡ self.old) }
        ensures same { self.new ≡ self.old }
    {
        settle(alloc, &mut self.before, &mut self.commits)?;
        self.weight = kept_weight(&self.before);
        self.later_weight = 0;
        self.before.copy(alloc)
    }

    /// Adds a commit; without memory it changes nothing.
    pub(crate) fn add(&mut self, alloc: Global, changes: &Changes) -> Result<(), AllocError>
        ensures ok { OnOk result (self.new ≡ kept_after_changes self.old changes.now) }
        ensures err { OnErr result (self.new ≡ self.old) }
    {
        let copied = changes.copy(alloc)?;
        self.commits.push(copied)?;
        self.later_weight = self.later_weight.saturating_add(changes_weight(changes));
        if self.later_weight >= self.weight
            && settle(alloc, &mut self.before, &mut self.commits).is_ok()
        {
            self.weight = kept_weight(&self.before);
            self.later_weight = 0;
        }
        Ok(())
    }
}
