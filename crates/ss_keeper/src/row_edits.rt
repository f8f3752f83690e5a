//! What the changes of commits come to for rows, so that they are made in one pass over the rows.

ghost use Rattle.std.specs.Prelude.{◌≡◌, ◌&&◌, ◌||◌, ◌++◌, max, not, IfOk, OnOk, Some, None, true, [], filter, reverse};
ghost use Rattle.std.specs.Option.{option_map_or};
ghost use Rattle.ss_bso.specs.declared.rows.Row.{Row};
ghost use Rattle.ss_keeper.specs.Together.{collection_of, id_of, is_held, is_spared, is_touched, last_puts, leaves};
ghost use Rattle.ss_keeper.specs.Together.{spared_puts, spares, touches, with_put};

use crate::names::{has_name, note_drops};
use ss_bso::{Changes, Row, RowChange};
use ss_text::{Id, Name, Stamp};
use std::alloc::{AllocError, Global};
use std::collections::HashSet;

/// Where a row is: its collection and its id.
#[derive(Clone, Copy, PartialEq, Eq, Hash)]
pub(crate) struct Place<'a> {
    collection: &'a Name,
    id: &'a Id,
}

fn place_of(change: &RowChange) -> Place<'_>
    ensures collection { result.collection.now ≡ collection_of change.now }
    ensures id { result.id.now ≡ id_of change.now }
{
    match change {
        RowChange::Put(row) => Place {
            collection: &row.collection,
            id: &row.id,
        },
        RowChange::Drop { collection, id } => Place { collection, id },
    }
}

/// Notes the place of a change.
fn touch<'a>(touched: &mut HashSet<Place<'a>>, change: &'a RowChange) -> Result<(), AllocError>
    ensures { OnOk result ((row : Row) → is_held touched.new row ≡ (touches row change.now || is_held touched.old
        row)) }
{
    let _added = touched.insert(place_of(change))?;
    Ok(())
}

/// The later of a moment and one that was noted.
fn later_of(noted: Option<Stamp>, moment: Stamp) -> Option<Stamp>
    ensures { result ≡ Some (option_map_or (λ old. max moment old) noted moment) }
{
    match noted {
        Some(old) if moment.get() < old.get() => Some(old),
        Some(_) | None => Some(moment),
    }
}

/// What commits come to for rows: when rows must be alive, which collections go, which places are touched, and which
/// rows are put there in the end. They are gathered from the last commit to the first, and the rows that are put stand
/// in that order.
#[derive(Drop)]
pub(crate) struct RowEdits<'a> {
    moment: Option<Stamp>,
    dropped: HashSet<&'a Name>,
    touched: HashSet<Place<'a>>,
    pub(crate) puts: Vec<Row>,
}

impl<'a> RowEdits<'a> {
    fn none(alloc: Global) -> RowEdits<'a>
        ensures leaves { (row : Row) → leaves result row ≡ true }
        ensures puts { result.puts.items ≡ [] }
    {
        RowEdits {
            moment: None,
            dropped: HashSet::new(alloc),
            touched: HashSet::new(alloc),
            puts: Vec::new(alloc),
        }
    }

    /// Whether a row stays as it is.
    pub(crate) fn leaves(&self, row: &Row) -> bool
        ensures { result ≡ leaves self.now row.now }
    {
        let is_alive = match self.moment {
            None => true,
            Some(moment) => row.is_alive(moment),
        };
        is_alive
            && (!has_name(&self.dropped, &row.collection)
                && !self.touched.contains(&Place {
                    collection: &row.collection,
                    id: &row.id,
                }))
    }

    /// Takes a copy of the row that is put, unless it goes again.
    fn push_put(&mut self, alloc: Global, change: &RowChange) -> Result<(), AllocError>
        ensures puts { OnOk result (reverse self.new.puts.items ≡ with_put (leaves self.old) change.now
            (reverse self.old.puts.items)) }
        ensures same { OnOk result ((row : Row) → leaves self.new row ≡ leaves self.old row) }
    {
        match change {
            RowChange::Put(row) if self.leaves(row) => self.puts.push(row.copy(alloc)?)?,
            RowChange::Put(_) | RowChange::Drop { .. } => (),
        }
        Ok(())
    }

    /// Gathers a change before those that were gathered.
    fn add_change(&mut self, alloc: Global, change: &'a RowChange) -> Result<(), AllocError>
        ensures puts { OnOk result (reverse self.new.puts.items ≡ with_put (leaves self.old) change.now
            (reverse self.old.puts.items)) }
        ensures leaves { OnOk result ((row : Row) → leaves self.new row
            ≡ (not (touches row change.now) && leaves self.old row)) }
    {
        self.push_put(alloc, change)?;
        touch(&mut self.touched, change)?;
        Ok(())
    }

    /// Gathers the changes of a commit's rows before those that were gathered.
    fn add_changes(&mut self, alloc: Global, changes: &'a [RowChange]) -> Result<(), AllocError>
        ensures puts { OnOk result (reverse self.new.puts.items ≡ filter (leaves self.old) (last_puts changes.now)
            ++ reverse self.old.puts.items) }
        ensures leaves { OnOk result ((row : Row) → leaves self.new row
            ≡ (not (is_touched changes.now row) && leaves self.old row)) }
    {
        let mut at = changes.len();
        'changes: while at > 0 {
            at -= 1;
            self.add_change(alloc, &changes[at])?;
        }
        Ok(())
    }

    /// Gathers a commit before those that were gathered.
    fn add(&mut self, alloc: Global, commit: &'a Changes) -> Result<(), AllocError>
        ensures puts { OnOk result (reverse self.new.puts.items ≡ filter (leaves self.old) (last_puts commit.now.rows)
            ++ reverse self.old.puts.items) }
        ensures leaves { OnOk result ((row : Row) → leaves self.new row
            ≡ (spares commit.now row && leaves self.old row)) }
    {
        self.add_changes(alloc, commit.rows.as_slice())?;
        note_drops(&mut self.dropped, commit.collections.as_slice())?;
        self.moment = later_of(self.moment, commit.moment);
        Ok(())
    }

    /// What commits come to, each made after the one before it.
    pub(crate) fn of(alloc: Global, commits: &'a [Changes]) -> Result<RowEdits<'a>, AllocError>
        ensures leaves { IfOk result (λ edits. (row : Row) → leaves edits row ≡ is_spared commits.now row) }
        ensures puts { IfOk result (λ edits. edits.puts.items ≡ spared_puts commits.now) }
    {
        let mut edits = RowEdits::none(alloc);
        let mut at = commits.len();
        'commits: while at > 0 {
            at -= 1;
            edits.add(alloc, &commits[at])?;
        }
        edits.puts.reverse();
        Ok(edits)
    }
}
