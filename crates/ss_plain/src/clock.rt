//! What a reading of the clock makes of an account.

ghost use Rattle.std.specs.Prelude.{◌≡◌, filter};
ghost use Rattle.ss_bso.specs.Account.{is_alive, is_open, tick};

use ss_bso::limits::BATCH_LIFE;
use ss_bso::{Batches, Plain, Row, Rows, Staged};
use ss_text::Stamp;

fn is_open(staged: &Staged, moment: Stamp) -> bool
    ensures { result ≡ is_open moment staged.now }
{
    moment.get() < staged.begun.get() + BATCH_LIFE
}

/// The rows that are alive at a moment.
fn rows_alive(mut rows: Vec<Row>, moment: Stamp) -> Vec<Row>
    ensures { result.items ≡ filter (is_alive moment) rows.items }
{
    rows.retain(|row| row.is_alive(moment));
    rows
}

/// The batches whose life hasn't ended at a moment.
fn batches_open(mut batches: Vec<Staged>, moment: Stamp) -> Vec<Staged>
    ensures { result.items ≡ filter (is_open moment) batches.items }
{
    batches.retain(|staged| is_open(staged, moment));
    batches
}

/// The account once the clock was read: its moment doesn't fall, and what has ended by then is there no more.
pub(crate) fn tick(account: Plain, now: u64) -> Plain
    ensures { result ≡ tick account now }
{
    let moment = account.moment.max(Stamp::clamp(now));
    Plain {
        rows: Rows::new(rows_alive(account.rows.into_vec(), moment)),
        collections: account.collections,
        store: account.store,
        last_delete: account.last_delete,
        moment,
        counter: account.counter,
        batches: Batches::new(batches_open(account.batches.into_vec(), moment)),
    }
}
