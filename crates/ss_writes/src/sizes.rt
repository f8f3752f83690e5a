//! How large rows are.

ghost use Rattle.std.specs.Prelude.{◌≡◌, ◌≤◌, ◌<◌, length, ◌++◌, ◌∷◌, [], List, filter_map, min};
ghost use Rattle.std.specs.Option.{option_copied, option_to_list};
ghost use Rattle.ss_batch.specs.Stage.{most_counted};
ghost use Rattle.ss_bso.specs.Batches.{fit};
ghost use Rattle.ss_bso.specs.declared.rows.Row.{Row as RowValue};
ghost use Rattle.ss_bso.specs.Account.{row_at};
ghost use Rattle.ss_bso.specs.Lists.{Apart, Pairs};
ghost use Rattle.ss_bso.specs.Write.{rows_without};
ghost use Rattle.ss_bso.specs.Limits.{is_too_much, part_bytes, payload_size, row_bytes};
ghost use Rattle.ss_index.specs.Shelved.{rows_in};
ghost use Rattle.ss_writes.specs.Parts.{IsSize, OtherText};

use crate::targets::Targets;
use ss_bso::limits::{
    MOST_ACCOUNT_PAYLOAD_BYTES, MOST_BATCH_BYTES, MOST_BATCH_RECORDS, MOST_ROWS_AND_COLLECTIONS,
};
use ss_bso::{Field, Part, Row};
use ss_index::Shelf;
use ss_text::Name;

/// A number of rows and their payload bytes, each up to the greatest u64.
#[derive(Clone, Copy)]
pub struct Size {
    pub rows: u64,
    pub bytes: u64,
}

impl Size {
    /// The size of no rows.
    pub fn none() -> Size
        ensures { IsSize [] result }
    {
        Size { rows: 0, bytes: 0 }
    }

    /// The size with one row more.
    pub fn with(self, row: &Row) -> Size
        ensures { (old : List RowValue) → IsSize old self → IsSize (old ++ row.now ∷ []) result }
    {
        Size {
            rows: self.rows.saturating_add(1),
            bytes: self.bytes.saturating_add(row.payload.as_str().len() as u64),
        }
    }

    /// The size with a row that was found, or without.
    fn with_found(self, found: Option<&Row>) -> Size
        ensures { (old : List RowValue) → IsSize old self → IsSize (old
            ++ option_to_list (option_copied found.entry)) result }
    {
        match found {
            Some(row) => self.with(row),
            None => self,
        }
    }

    /// The size of rows.
    pub(crate) fn of(rows: &[Row]) -> Size
        ensures { IsSize rows.now result }
    {
        let mut size = Size::none();
        for row in rows {
            size = size.with(row);
        }
        size
    }

    /// Whether rows of this size, with a number of collections, pass the limits of an account.
    pub fn is_full(self, collections: usize) -> bool
        ensures { (rows : List RowValue) → IsSize rows self → result ≡ is_too_much rows collections }
    {
        self.bytes > MOST_ACCOUNT_PAYLOAD_BYTES
            || self.rows.saturating_add(collections as u64) > MOST_ROWS_AND_COLLECTIONS
    }

    /// The size of the rows of a collection that are named.
    fn named(shelf: &Shelf, collection: &Name, targets: &Targets) -> Size
        ensures { IsSize (filter_map (λ id. row_at collection.now id (rows_in shelf.now)) targets.now) result }
    {
        let mut size = Size::none();
        let ids = targets.as_slice();
        for id in ids {
            size = size.with_found(shelf.get(collection, id));
        }
        size
    }
}

/// The payload bytes that a part brings.
fn brings(part: &Part) -> u64
    ensures { result ≡ payload_size part.now.fields.payload }
{
    match &part.fields.payload {
        Field::Keep | Field::Clear => 0,
        Field::Set(text) => text.as_str().len() as u64,
    }
}

/// The payload bytes of parts, up to the greatest u64.
fn bytes_of(parts: &[Part]) -> u64
    ensures { result ≡ min (part_bytes parts.now) most_counted }
{
    let mut bytes: u64 = 0;
    for part in parts {
        bytes = bytes.saturating_add(brings(part));
    }
    bytes
}

/// Whether parts are within the limits of a batch.
pub fn is_fit(parts: &[Part]) -> bool
    ensures { result ≡ fit parts.now }
{
    parts.len() as u64 <= MOST_BATCH_RECORDS && bytes_of(parts) <= MOST_BATCH_BYTES
}

/// Whether the rows of a shelf pass the limits of an account once those that are named are replaced by others.
pub fn would_be_full(
    shelf: &Shelf,
    collection: &Name,
    targets: &Targets,
    made: &[Row],
    collections: usize,
) -> bool
    requires places { Pairs Apart (rows_in shelf.now) }
    requires number { length (rows_in shelf.now) ≤ most_counted }
    requires bytes { row_bytes (rows_in shelf.now) < most_counted }
    requires targets { Pairs OtherText targets.now }
    ensures { result ≡ is_too_much (rows_without collection.now targets.now (rows_in shelf.now)
        ++ made.now) collections }
{
    let gone = Size::named(shelf, collection, targets);
    let added = Size::of(made);
    let rows = (shelf.len() - gone.rows).saturating_add(added.rows);
    let bytes = (shelf.total() - gone.bytes).saturating_add(added.bytes);
    let size = Size { rows, bytes };
    size.is_full(collections)
}
