//! What lines have told of a commit.

ghost use Rattle.std.specs.Prelude.{◌≡◌, ◌++◌, ◌∷◌, [], IfOk, option_map};
ghost use Rattle.ss_commits.specs.Drafts.{changes_in};
ghost use Rattle.ss_commits.specs.Telling.{nothing, told_by, with_batch, with_collection, with_line, with_mark};
ghost use Rattle.ss_commits.specs.Telling.{with_part, with_part_of, with_row};

use crate::marks::Mark;
use crate::notes::Note;
use ss_bso::{
    BatchChange, BatchChanges, Changes, CollectionChange, CollectionChanges, Part, Parts,
    RowChange, RowChanges, Staged,
};
use ss_lines::Line;
use ss_text::Stamp;
use std::alloc::{AllocError, Global};

/// What is told of a commit so far.
#[derive(Drop)]
pub(crate) struct Draft {
    moment: Stamp,
    rows: Vec<RowChange>,
    collections: Vec<CollectionChange>,
    store: Stamp,
    last_delete: Stamp,
    counter: u64,
    batches: Vec<BatchChange>,
}

/// Parts with one more.
fn more_parts(alloc: Global, mut parts: Parts, part: Part) -> Result<Parts, AllocError>
    ensures { IfOk result (λ more. more ≡ parts ++ part ∷ []) }
{
    let mut one = Vec::with_capacity(alloc, 1)?;
    one.push(part)?;
    parts.append(one)?;
    Ok(parts)
}

/// What becomes of a batch, with one more part.
fn with_part_of(
    alloc: Global,
    change: BatchChange,
    part: Part,
) -> Result<Option<BatchChange>, AllocError>
    ensures { IfOk result (λ o. o ≡ with_part_of change part) }
{
    match change {
        BatchChange::End { number: _ } => Ok(None),
        BatchChange::Begin(staged) => Ok(Some(BatchChange::Begin(Staged {
            number: staged.number,
            collection: staged.collection,
            begun: staged.begun,
            parts: more_parts(alloc, staged.parts, part)?,
        }))),
        BatchChange::Append { number, parts } => Ok(Some(BatchChange::Append {
            number,
            parts: more_parts(alloc, parts, part)?,
        })),
    }
}

impl Draft {
    /// Nothing is told.
    pub(crate) fn new(alloc: Global) -> Draft
        ensures { changes_in result ≡ nothing }
    {
        Draft {
            moment: Stamp::clamp(0),
            rows: Vec::new(alloc),
            collections: Vec::new(alloc),
            store: Stamp::clamp(0),
            last_delete: Stamp::clamp(0),
            counter: 0,
            batches: Vec::new(alloc),
        }
    }

    /// What is told, as changes.
    pub(crate) fn into_changes(self) -> Changes
        ensures { result ≡ changes_in self }
    {
        Changes {
            moment: self.moment,
            rows: RowChanges::new(self.rows),
            collections: CollectionChanges::new(self.collections),
            store: self.store,
            last_delete: self.last_delete,
            counter: self.counter,
            batches: BatchChanges::new(self.batches),
        }
    }
}

fn with_row(mut draft: Draft, change: RowChange) -> Result<Option<Draft>, AllocError>
    ensures { IfOk result (λ o. option_map changes_in o ≡ with_row (changes_in draft) change) }
{
    draft.rows.push(change)?;
    Ok(Some(draft))
}

fn with_collection(mut draft: Draft, change: CollectionChange) -> Result<Option<Draft>, AllocError>
    ensures { IfOk result (λ o. option_map changes_in o ≡ with_collection (changes_in draft) change) }
{
    draft.collections.push(change)?;
    Ok(Some(draft))
}

fn with_batch(mut draft: Draft, change: BatchChange) -> Result<Option<Draft>, AllocError>
    ensures { IfOk result (λ o. option_map changes_in o ≡ with_batch (changes_in draft) change) }
{
    draft.batches.push(change)?;
    Ok(Some(draft))
}

/// A part is of the batch that was told last.
fn with_part(alloc: Global, mut draft: Draft, part: Part) -> Result<Option<Draft>, AllocError>
    ensures { IfOk result (λ o. option_map changes_in o ≡ with_part (changes_in draft) part) }
{
    let Some(last) = draft.batches.pop() else {
        return Ok(None);
    };
    match with_part_of(alloc, last, part)? {
        Some(change) => {
            draft.batches.push(change)?;
            Ok(Some(draft))
        }
        None => Ok(None),
    }
}

fn with_times(mut draft: Draft, store: Stamp, last_delete: Stamp, counter: u64) -> Draft
    ensures { changes_in result ≡ record (changes_in draft) { store = store; last_delete = last_delete; counter = counter } }
{
    draft.store = store;
    draft.last_delete = last_delete;
    draft.counter = counter;
    draft
}

fn with_line(alloc: Global, draft: Draft, line: Line) -> Result<Option<Draft>, AllocError>
    ensures { IfOk result (λ o. option_map changes_in o ≡ with_line (changes_in draft) line) }
{
    match line {
        Line::Times {
            store,
            last_delete,
            counter,
        } => Ok(Some(with_times(draft, store, last_delete, counter))),
        Line::Collection { name, modified } => with_collection(
            draft,
            CollectionChange::Set {
                name,
                time: modified,
            },
        ),
        Line::Row(row) => with_row(draft, RowChange::Put(row)),
        Line::Batch {
            number,
            collection,
            begun,
        } => {
            let staged = Staged {
                number,
                collection,
                begun,
                parts: Parts::new(Vec::new(alloc)),
            };
            with_batch(draft, BatchChange::Begin(staged))
        }
        Line::Part(part) => with_part(alloc, draft, part),
        Line::Account | Line::Digest(_) | Line::End => Ok(None),
    }
}

fn with_moment(mut draft: Draft, moment: Stamp) -> Draft
    ensures { changes_in result ≡ record (changes_in draft) { moment = moment } }
{
    draft.moment = moment;
    draft
}

fn with_mark(alloc: Global, draft: Draft, mark: Mark) -> Result<Option<Draft>, AllocError>
    ensures { IfOk result (λ o. option_map changes_in o ≡ with_mark (changes_in draft) mark) }
{
    match mark {
        Mark::Now(moment) => Ok(Some(with_moment(draft, moment))),
        Mark::NoRow { collection, id } => with_row(draft, RowChange::Drop { collection, id }),
        Mark::NoCollection { name } => with_collection(draft, CollectionChange::Drop { name }),
        Mark::NoBatch { number } => with_batch(draft, BatchChange::End { number }),
        Mark::NextParts { number } => {
            let parts = Parts::new(Vec::new(alloc));
            with_batch(draft, BatchChange::Append { number, parts })
        }
    }
}

/// What is told with one more line; None where that line isn't one of a commit.
pub(crate) fn told_by(alloc: Global, draft: Draft, note: Note) -> Result<Option<Draft>, AllocError>
    ensures { IfOk result (λ o. option_map changes_in o ≡ told_by (changes_in draft) note) }
{
    match note {
        Note::Of(line) => with_line(alloc, draft, line),
        Note::Beside(mark) => with_mark(alloc, draft, mark),
    }
}
