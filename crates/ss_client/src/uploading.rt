//! From the fetched rows to the end: the merge, the plan, and its POSTs.

ghost use Rattle.std.specs.Prelude.{◌≡◌, ◌<◌, ◌≤◌, true, length, unwrap_or, IfOk, OnErr};
ghost use Rattle.ss_hearing.specs.declared.answer.Answer.TheVariants.{Held, Written};
ghost use Rattle.ss_sync.specs.Posts.{IsNext};
ghost use Rattle.ss_client.specs.Leaves.{LeavesKnown};
ghost use Rattle.ss_client.specs.Runs.{rest_of};
ghost use Rattle.ss_client.specs.Asking.{awaited_of};
ghost use Rattle.ss_client.specs.Machine.{items, Ends, Begins, Finishes, Holds, Writes};
ghost use Rattle.ss_client.specs.Told.{is_of, next_of_step};

use crate::runs::{Run, Upload};
use crate::steps::Step;
use crate::summaries::{Summary, SyncFault};
use crate::synced::Synced;
use ss_bso::Parts;
use ss_device::Device;
use ss_hearing::Sheets;
use ss_plan::{PlanFault, plan};
use ss_sync::{Fetched, join, next_post, rows_after};
use ss_text::Stamp;
use ss_tree::Tree;
use std::alloc::{AllocError, Global};

/// The items of a tree, without `places` and the four roots.
fn items(alloc: Global, tree: &Tree) -> Result<u64, AllocError>
    ensures { IfOk result (λ n. n ≡ items tree.now) }
{
    Ok(tree.walk(alloc)?.len().saturating_sub(5) as u64)
}

/// The end of a run, at which these parts have this time.
fn end(
    alloc: Global,
    run: Run,
    rows: Sheets,
    merged: Tree,
    parts: Parts,
    stamp: Stamp,
) -> Result<Step, AllocError>
    requires { LeavesKnown rows parts merged }
    ensures { IfOk result (λ step. Ends run rows merged parts stamp (next_of_step step)) }
{
    let items = items(alloc, &merged)?;
    let mirror = rows_after(alloc, rows.into_vec(), parts.as_slice(), stamp)?;
    let summary = Summary {
        items,
        posts: run.posts,
        fetches: run.fetches,
        stamp,
    };
    Ok(Step::Done(Synced::new(merged, mirror, stamp), summary))
}

/// The first POST of a plan, or the end where there is nothing to send.
fn begin(
    alloc: Global,
    run: Run,
    time: Stamp,
    rows: Sheets,
    merged: Tree,
    parts: Parts,
) -> Result<Step, AllocError>
    requires { LeavesKnown rows parts merged }
    ensures { IfOk result (λ step. Begins run time rows merged parts (next_of_step step)) }
{
    if parts.as_slice().is_empty() {
        return end(alloc, run, rows, merged, parts, time);
    }
    let count = next_post(alloc, &run.limits, parts.as_slice())?;
    Ok(run.posting(Upload {
        time,
        rows,
        merged,
        parts,
        batch: None,
        sent: 0,
        count,
    }))
}

/// All rows are there: they are merged, and the plan is sent.
pub(crate) fn finish(
    alloc: Global,
    device: &Device,
    run: Run,
    time: Stamp,
    rows: Fetched,
) -> Result<Step, AllocError>
    ensures { IfOk result (λ step. Finishes device.now run time rows (next_of_step step)) }
{
    let dead = device.dead_ids(alloc)?;
    let joined = join(
        alloc,
        device.mirror(),
        device.tree(),
        &dead,
        rows.as_slice(),
    )?;
    match plan(alloc, &joined.tree, &joined.remote, &run.limits) {
        Ok(parts) => begin(
            alloc,
            run,
            time,
            Sheets::new(rows.into_vec()),
            joined.tree,
            Parts::new(parts),
        ),
        Err(PlanFault::Memory) => Err(AllocError),
        Err(fault) => Ok(Step::Stop(SyncFault::Plan(fault))),
    }
}

/// The POST is in the batch, and the next one takes what it can.
#[tactic(auto, using(crate::proofs::Posting::held_awaited))]
pub(crate) fn hold(alloc: Global, run: Run, upload: Upload, batch: u64) -> Result<Step, AllocError>
    ensures holds { IfOk result (λ step. Holds run upload (unwrap_or upload.batch batch) (rest_of upload) (next_of_step step)) }
    ensures wanting { OnErr result (is_of (awaited_of (rest_of upload)) (Held batch) ≡ true) }
{
    let sent = upload.sent + upload.count;
    if sent == upload.parts.as_slice().len() {
        return Ok(run.unread());
    }
    let count = next_post(alloc, &run.limits, &upload.parts.as_slice()[sent..])?;
    let batch = upload.batch.unwrap_or(batch);
    Ok(run.posting(Upload {
        time: upload.time,
        rows: upload.rows,
        merged: upload.merged,
        parts: upload.parts,
        batch: Some(batch),
        sent,
        count,
    }))
}

/// The last POST is written.
#[tactic(auto, using(crate::proofs::Posting::written_awaited))]
pub(crate) fn write(
    alloc: Global,
    run: Run,
    upload: Upload,
    stamp: Stamp,
) -> Result<Step, AllocError>
    ensures writes { IfOk result (λ step. Writes run upload stamp (rest_of upload) (next_of_step step)) }
    ensures wanting { OnErr result (is_of (awaited_of (rest_of upload)) (Written stamp) ≡ true) }
{
    if upload.sent + upload.count < upload.parts.as_slice().len() {
        return Ok(run.unread());
    }
    end(alloc, run, upload.rows, upload.merged, upload.parts, stamp)
}
