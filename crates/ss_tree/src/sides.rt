//! What a merge looks at.

use crate::trees::Tree;
use ss_text::Ids;

/// The three trees of a merge, and the ids that were deleted: the mirror is what both sides had at the last sync.
#[derive(Clone, Copy)]
pub struct Sides<'a> {
    pub mirror: &'a Tree,
    pub local: &'a Tree,
    pub remote: &'a Tree,
    /// The ids that the device deleted.
    pub local_dead: &'a Ids,
    /// The ids that the server tells as deleted.
    pub remote_dead: &'a Ids,
}
