//! What a text has told of an account, line by line.

ghost use Rattle.std.specs.Prelude.{◌≡◌, ◌++◌, ◌∷◌, [], IfOk, option_map};
ghost use Rattle.ss_dump.specs.Dumps.{comes_before, name_cmp, number_cmp, place_cmp};
ghost use Rattle.ss_dump.specs.Stages.{is_closed, kept_in, stage_state, states};
ghost use Rattle.ss_dump.specs.Telling.{begun, is_whole, may_end, more, next, with_batch, with_collection, with_part};
ghost use Rattle.ss_dump.specs.Telling.{with_row};

use crate::dumping::place_order;
use crate::hashing::is_same;
use ss_bso::{Batches, Kept, Part, Parts, Row, Rows, Staged, Times};
use ss_lines::{Digest, Line};
use ss_text::{Name, Stamp};
use std::alloc::{AllocError, Global};

/// What is told of an account so far.
#[derive(Drop)]
pub(crate) struct Draft {
    pub(crate) store: Stamp,
    pub(crate) last_delete: Stamp,
    pub(crate) counter: u64,
    pub(crate) collections: Vec<(Name, Stamp)>,
    pub(crate) rows: Vec<Row>,
    pub(crate) batches: Vec<Staged>,
}

/// How far a text has told an account.
#[derive(Drop)]
pub(crate) enum Stage {
    /// Nothing is told.
    Nothing,

    /// An account follows.
    Begun,

    /// This is told of it.
    Account(Draft),

    /// All of it, and its digest.
    Closed(Draft, Digest),

    /// The end, too.
    Whole(Draft, Digest),
}

impl Draft {
    /// What is told as what is kept of an account.
    pub(crate) fn into_kept(self) -> Kept
        ensures { result ≡ kept_in self }
    {
        Kept {
            rows: Rows::new(self.rows),
            collections: Times::new(self.collections),
            store: self.store,
            last_delete: self.last_delete,
            counter: self.counter,
            batches: Batches::new(self.batches),
        }
    }
}

/// Whether a collection may be the last one.
fn may_end_names(collections: &[(Name, Stamp)], name: &Name, modified: Stamp) -> bool
    ensures { result ≡ may_end (comes_before name_cmp) collections.now (name.now, modified) }
{
    let _modified = modified;
    match collections.last() {
        Some(last) => !name.cmp(&last.0).is_lt(),
        None => true,
    }
}

/// Whether a row may be the last one.
fn may_end_rows(rows: &[Row], row: &Row) -> bool
    ensures { result ≡ may_end (comes_before place_cmp) rows.now row.now }
{
    match rows.last() {
        Some(last) => !place_order(row, last).is_lt(),
        None => true,
    }
}

/// Whether a batch may be the last one.
fn may_end_batches(batches: &[Staged], batch: &Staged) -> bool
    ensures { result ≡ may_end (comes_before number_cmp) batches.now batch.now }
{
    match batches.last() {
        Some(last) => !batch.number.cmp(&last.number).is_lt(),
        None => true,
    }
}

fn with_collection(
    mut draft: Draft,
    name: Name,
    modified: Stamp,
) -> Result<Option<Stage>, AllocError>
    ensures { IfOk result (λ o. option_map stage_state o ≡ with_collection (kept_in draft) (name, modified)) }
{
    if draft.rows.is_empty()
        && draft.batches.is_empty()
        && may_end_names(&draft.collections, &name, modified)
    {
        draft.collections.push((name, modified))?;
        Ok(Some(Stage::Account(draft)))
    } else {
        Ok(None)
    }
}

fn with_row(mut draft: Draft, row: Row) -> Result<Option<Stage>, AllocError>
    ensures { IfOk result (λ o. option_map stage_state o ≡ with_row (kept_in draft) row) }
{
    if draft.batches.is_empty() && may_end_rows(&draft.rows, &row) {
        draft.rows.push(row)?;
        Ok(Some(Stage::Account(draft)))
    } else {
        Ok(None)
    }
}

fn with_batch(mut draft: Draft, batch: Staged) -> Result<Option<Stage>, AllocError>
    ensures { IfOk result (λ o. option_map stage_state o ≡ with_batch (kept_in draft) batch) }
{
    if may_end_batches(&draft.batches, &batch) {
        draft.batches.push(batch)?;
        Ok(Some(Stage::Account(draft)))
    } else {
        Ok(None)
    }
}

/// A batch with one more part.
fn grown(alloc: Global, mut batch: Staged, part: Part) -> Result<Staged, AllocError>
    ensures { IfOk result (λ grown. grown ≡ record batch { parts = batch.parts ++ part ∷ [] }) }
{
    let mut parts = Vec::with_capacity(alloc, 1)?;
    parts.push(part)?;
    batch.parts.append(parts)?;
    Ok(batch)
}

fn with_part(alloc: Global, mut draft: Draft, part: Part) -> Result<Option<Stage>, AllocError>
    ensures { IfOk result (λ o. option_map stage_state o ≡ with_part (kept_in draft) part) }
{
    match draft.batches.pop() {
        Some(batch) => {
            draft.batches.push(grown(alloc, batch, part)?)?;
            Ok(Some(Stage::Account(draft)))
        }
        None => Ok(None),
    }
}

/// What a line adds to what is told of an account.
fn more(alloc: Global, draft: Draft, line: Line) -> Result<Option<Stage>, AllocError>
    ensures { IfOk result (λ o. option_map stage_state o ≡ more (kept_in draft) line) }
{
    match line {
        Line::Collection { name, modified } => with_collection(draft, name, modified),
        Line::Row(row) => with_row(draft, row),
        Line::Batch {
            number,
            collection,
            begun,
        } => {
            let batch = Staged {
                number,
                collection,
                begun,
                parts: Parts::new(Vec::new(alloc)),
            };
            with_batch(draft, batch)
        }
        Line::Part(part) => with_part(alloc, draft, part),
        Line::Digest(digest) => Ok(Some(Stage::Closed(draft, digest))),
        Line::Account | Line::Times { .. } | Line::End => Ok(None),
    }
}

/// What follows once it is told that an account follows: its times, and nothing else.
#[tactic(auto, unfolding(crate::specs::Telling::next))]
fn timed(alloc: Global, line: Line) -> Option<Stage>
    ensures { option_map stage_state result ≡ next begun line }
{
    match line {
        Line::Times {
            store,
            last_delete,
            counter,
        } => Some(Stage::Account(Draft {
            store,
            last_delete,
            counter,
            collections: Vec::new(alloc),
            rows: Vec::new(alloc),
            batches: Vec::new(alloc),
        })),
        _ => None,
    }
}

impl Stage {
    /// What the next line makes of what is told; None exactly where that line may not come next.
    #[tactic(auto, unfolding(crate::specs::Telling::next))]
    pub(crate) fn next(self, alloc: Global, line: Line) -> Result<Option<Stage>, AllocError>
        ensures { IfOk result (λ o. option_map stage_state o ≡ next (stage_state self) line) }
    {
        match self {
            Stage::Nothing => match line {
                Line::Account => Ok(Some(Stage::Begun)),
                _ => Ok(None),
            },
            Stage::Begun => Ok(timed(alloc, line)),
            Stage::Account(draft) => more(alloc, draft, line),
            Stage::Closed(draft, digest) => match line {
                Line::End => Ok(Some(Stage::Whole(draft, digest))),
                _ => Ok(None),
            },
            Stage::Whole(_, _) => Ok(None),
        }
    }

    /// Whether the digest is told, and the end isn't.
    pub(crate) fn is_closed(&self) -> bool
        ensures { result ≡ is_closed (stage_state self.now) }
    {
        matches!(self, Stage::Closed(_, _))
    }

    /// Whether this is the digest that is told.
    pub(crate) fn states(&self, digest: &Digest) -> bool
        ensures { result ≡ states (stage_state self.now) digest.now }
    {
        match self {
            Stage::Closed(_, stated) | Stage::Whole(_, stated) => is_same(stated, digest),
            _ => false,
        }
    }

    /// Whether the end is told.
    pub(crate) fn is_whole(&self) -> bool
        ensures { result ≡ is_whole (stage_state self.now) }
    {
        matches!(self, Stage::Whole(_, _))
    }
}
