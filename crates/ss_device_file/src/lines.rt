//! The lines of a device's file, as values.

use ss_record::{Item, Sheet};
use ss_text::{Id, Ids, Stamp};

/// The version of a file. The first one has no number with a point, an exponent or more than 18 digits, nor -0.
#[derive(Clone, Copy, Debug, PartialEq, Eq)]
pub enum Version {
    First,
    Second,
}

/// The line of an item: its time in hundredths of a second, 0 for none; the item; and the ids of its parent and of its
/// children.
#[derive(Drop, Debug)]
pub struct ItemLine {
    pub time: Stamp,
    pub item: Item,
    pub parent: Id,
    pub children: Ids,
}

/// What a line of a device's file says.
#[derive(Drop, Debug)]
pub enum Line {
    /// The version of the file.
    Head(Version),
    /// The time of the last sync.
    Synced(Stamp),
    /// A row as it stood at the last sync.
    Row(Sheet),
    /// An item in its place.
    Item(ItemLine),
    /// A deleted id, with the time of its deletion.
    Dead(Id, Stamp),
    /// The end.
    End,
}
