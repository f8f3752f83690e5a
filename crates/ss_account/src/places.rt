//! The places of rows.

use ss_text::{Id, Name};

/// Where a row is: its collection and its id.
#[derive(Clone, Copy, PartialEq, Eq, Hash)]
pub(crate) struct Place<'a> {
    pub(crate) collection: &'a Name,
    pub(crate) id: &'a Id,
}
