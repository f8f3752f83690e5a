//! The lines that tell how a run ended.

ghost use Rattle.std.specs.Prelude.{◌≡◌, ◌++◌, OnOk, IfOk, decimal};
ghost use Rattle.ss_text.specs.Time.{stamp_text};
ghost use Rattle.ss_run_sync.specs.Endings.{refused_record, synced_line, refused_line, changing_line, numbered_line};
ghost use Rattle.ss_run_sync.specs.Endings.{stopped_line, too_large};

use itoa::Buffer;
use ss_client::{Summary, SyncFault};
use ss_plan::PlanFault;
use ss_text::{Id, Stamp, push_stamp};
use std::alloc::{AllocError, Global};

fn push_number(out: &mut Vec<u8>, number: u64) -> Result<(), AllocError>
    ensures { OnOk result (out.new.items ≡ out.old.items ++ decimal number) }
{
    let mut buffer = Buffer::new();
    out.extend_from_slice(buffer.format(number).as_bytes())
}

/// The line of a sync that is done.
#[tactic(auto, unfolding(crate::specs::Endings::synced_line))]
pub(crate) fn synced(alloc: Global, summary: &Summary) -> Result<Vec<u8>, AllocError>
    ensures { IfOk result (λ line. line.items ≡ synced_line summary.now) }
{
    let mut line = Vec::new(alloc);
    line.extend_from_slice(b"synced ")?;
    push_number(&mut line, summary.items)?;
    line.extend_from_slice(b" items, ")?;
    push_number(&mut line, summary.posts)?;
    line.extend_from_slice(b" posts, ")?;
    push_number(&mut line, summary.fetches)?;
    line.extend_from_slice(b" fetches, at ")?;
    push_stamp(&mut line, summary.stamp)?;
    line.extend_from_slice(b"\n")?;
    Ok(line)
}

/// The record that was refused, where one was.
fn push_named(out: &mut Vec<u8>, id: &Option<Id>) -> Result<(), AllocError>
    ensures { OnOk result (out.new.items ≡ out.old.items ++ refused_record id.now) }
{
    match id {
        Some(id) => {
            out.extend_from_slice(b" ")?;
            out.extend_from_slice(id.as_str().as_bytes())?;
            Ok(())
        }
        None => Ok(()),
    }
}

/// The line of an entry of a reply that the server refused, or of a reply that it refused whole.
#[tactic(auto, unfolding(crate::specs::Endings::refused_line))]
fn refused(alloc: Global, status: u16, id: &Option<Id>) -> Result<Vec<u8>, AllocError>
    ensures { IfOk result (λ line. line.items ≡ refused_line status id.now) }
{
    let mut line = Vec::new(alloc);
    line.extend_from_slice(b"stopped: refused ")?;
    push_number(&mut line, u64::from(status))?;
    push_named(&mut line, id)?;
    line.extend_from_slice(b"\n")?;
    Ok(line)
}

/// The line of a collection that changed four times.
#[tactic(auto, unfolding(crate::specs::Endings::changing_line))]
fn changing(
    alloc: Global,
    first: Stamp,
    second: Stamp,
    third: Stamp,
    fourth: Stamp,
) -> Result<Vec<u8>, AllocError>
    ensures { IfOk result (λ line. line.items ≡ changing_line first second third fourth) }
{
    let mut line = Vec::new(alloc);
    line.extend_from_slice(b"stopped: changing ")?;
    push_stamp(&mut line, first)?;
    line.extend_from_slice(b" ")?;
    push_stamp(&mut line, second)?;
    line.extend_from_slice(b" ")?;
    push_stamp(&mut line, third)?;
    line.extend_from_slice(b" ")?;
    push_stamp(&mut line, fourth)?;
    line.extend_from_slice(b"\n")?;
    Ok(line)
}

/// A line that ends with a number.
#[tactic(auto, unfolding(crate::specs::Endings::numbered_line))]
fn numbered(alloc: Global, words: &[u8], number: u64) -> Result<Vec<u8>, AllocError>
    ensures { IfOk result (λ line. line.items ≡ numbered_line words.now number) }
{
    let mut line = Vec::new(alloc);
    line.extend_from_slice(words)?;
    push_number(&mut line, number)?;
    line.extend_from_slice(b"\n")?;
    Ok(line)
}

/// How much of what is too large.
pub(crate) fn too_large(fault: &PlanFault) -> Option<u64>
    ensures { result ≡ too_large fault.now }
{
    match fault {
        PlanFault::RecordTooLarge { n, .. } => Some(*n),
        PlanFault::BodyTooLarge { n, .. } => Some(*n),
        PlanFault::TooManyRecords { n } => Some(*n),
        PlanFault::TooManyBytes { n } => Some(*n),
        PlanFault::Memory => None,
    }
}

/// The line of a run that stopped.
pub(crate) fn stopped(alloc: Global, fault: &SyncFault) -> Result<Vec<u8>, AllocError>
    ensures { IfOk result (λ line. line.items ≡ stopped_line fault.now) }
{
    match fault {
        SyncFault::Refused { status, id } => refused(alloc, *status, id),
        SyncFault::Changing {
            first,
            second,
            third,
            fourth,
        } => changing(alloc, *first, *second, *third, *fourth),
        SyncFault::Plan(fault) => match too_large(fault) {
            Some(n) => numbered(alloc, b"stopped: too large ", n),
            None => Vec::from_slice(alloc, b"stopped: memory\n"),
        },
        SyncFault::BadReply { number } => numbered(alloc, b"stopped: reply ", *number),
        SyncFault::Memory => Vec::from_slice(alloc, b"stopped: memory\n"),
    }
}
