//! Times and batches, found in plain lists.

ghost use Rattle.std.specs.Prelude.{◌≡◌, bytes_eq};
ghost use Rattle.ss_bso.specs.Account.{is_open, time_of};

use ss_bso::Staged;
use ss_bso::limits::BATCH_LIFE;
use ss_text::{Name, Stamp};

/// Whether a batch is still there at a moment.
pub(crate) fn is_open(staged: &Staged, moment: Stamp) -> bool
    ensures { result ≡ is_open moment staged.now }
{
    moment.get() < staged.begun.get() + BATCH_LIFE
}

pub(crate) fn is_named(entry: &(Name, Stamp), collection: &Name) -> bool
    ensures { result ≡ bytes_eq entry.now.0 collection.now }
{
    entry.0 == *collection
}

/// The time of a collection, where it is there.
pub fn find_time(times: &[(Name, Stamp)], collection: &Name) -> Option<Stamp>
    ensures { result ≡ time_of collection.now times.now }
{
    let entry = times.iter().find(|entry| is_named(entry, collection))?;
    Some(entry.1)
}
