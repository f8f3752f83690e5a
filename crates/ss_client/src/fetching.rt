//! The pages of a fetch, and the list of ids.

ghost use Rattle.std.specs.Prelude.{◌≡◌, ◌||◌, ◌&&◌, [], ◌++◌, not, nat_le, is_some, if◌then◌else◌, IfOk};
ghost use Rattle.ss_client.specs.Machine.{is_bad, unread, falls_back, LastPage, PageOn, OpensWith, ListsAll};
ghost use Rattle.ss_client.specs.Told.{next_of_step};

use crate::runs::{Listing, Paging, Run, Stage};
use crate::steps::Step;
use crate::uploading::finish;
use ss_device::Device;
use ss_hearing::Sheets;
use ss_sync::{Fetched, are_known};
use ss_text::{Ids, Stamp};
use std::alloc::{AllocError, Global};

/// The most pages of a fetch.
const MOST_PAGES: u64 = 1_000;

/// Whether ids stand twice, or a page names a further one that may not.
fn is_bad(fit: bool, pages: u64, offset: Option<u32>) -> bool
    ensures { result ≡ (not fit || (is_some offset && nat_le 1000 pages)) }
{
    !fit || (offset.is_some() && MOST_PAGES <= pages)
}

/// The last page came: a newer fetch goes on to the ids.
fn last_page(
    alloc: Global,
    device: &Device,
    run: Run,
    time: Stamp,
    rows: Fetched,
) -> Result<Step, AllocError>
    ensures { IfOk result (λ step. LastPage device.now run time rows (next_of_step step)) }
{
    if run.newer {
        Ok(run.onward(Stage::Lists(Listing { time, rows })))
    } else {
        finish(alloc, device, run, time, rows)
    }
}

/// A page comes, so many of the fetch with it.
pub(crate) fn page_on(
    alloc: Global,
    device: &Device,
    run: Run,
    paging: (Stamp, u64, Fetched),
    rows: Sheets,
    offset: Option<u32>,
) -> Result<Step, AllocError>
    ensures { IfOk result (λ step. PageOn device.now run paging.0 paging.1 paging.2 rows offset (next_of_step step)) }
{
    let (time, pages, mut fetched) = paging;
    let fit = fetched.add(alloc, rows.into_vec())?;
    if is_bad(fit, pages, offset) {
        return Ok(run.unread());
    }
    match offset {
        Some(offset) => Ok(run.onward(Stage::Pages(Paging {
            time,
            offset,
            pages,
            rows: fetched,
        }))),
        None => last_page(alloc, device, run, time, fetched),
    }
}

/// The first page of a newer fetch whose collection's time is below the device's.
fn give_up(alloc: Global, run: Run, rows: Sheets, offset: Option<u32>) -> Result<Step, AllocError>
    ensures { IfOk result (λ step. next_of_step step ≡ (if is_bad 1 rows offset then unread run else falls_back run)) }
{
    let mut fetched = Fetched::new(alloc);
    let fit = fetched.add(alloc, rows.into_vec())?;
    if is_bad(fit, 1, offset) {
        Ok(run.unread())
    } else {
        Ok(run.falling_back())
    }
}

/// The first page comes.
pub(crate) fn open_with(
    alloc: Global,
    device: &Device,
    run: Run,
    rows: Sheets,
    offset: Option<u32>,
    time: Stamp,
) -> Result<Step, AllocError>
    ensures { IfOk result (λ step. OpensWith device.now run time rows offset (next_of_step step)) }
{
    if run.newer && time.get() < device.stamp().get() {
        return give_up(alloc, run, rows, offset);
    }
    let fetched = Fetched::new(alloc);
    page_on(alloc, device, run, (time, 1, fetched), rows, offset)
}

/// The ids come.
pub(crate) fn list_all(
    alloc: Global,
    device: &Device,
    run: Run,
    listing: Listing,
    ids: &Ids,
) -> Result<Step, AllocError>
    ensures { IfOk result (λ step. ListsAll device.now run listing.time listing.rows ids.now (next_of_step step)) }
{
    let Listing { time, mut rows } = listing;
    if !are_known(alloc, &rows, device.mirror(), ids)? {
        return Ok(run.falling_back());
    }
    rows.keep(alloc, device.mirror(), ids)?;
    finish(alloc, device, run, time, rows)
}
