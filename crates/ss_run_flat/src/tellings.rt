//! What `flat` tells of rows.

ghost use Rattle.std.specs.Prelude.{◌≡◌, ◌++◌, List, IfOk, OnOk};
ghost use Rattle.std.specs.List.{flat_map};
ghost use Rattle.ss_bso.specs.declared.rows.Row.{Row};
ghost use Rattle.ss_flat.specs.States.{IsFlatState};
ghost use Rattle.ss_run_flat.specs.Tellings.{IsTelling, flat_text, gone_line, item_line, skipped_line};

use ss_flat::{Flat, Shown};
use ss_text::{Id, Ids, Stamp, push_json_text, push_stamp};
use std::alloc::{AllocError, Global};

/// Appends the line of an item.
#[tactic(auto, unfolding(crate::specs::Tellings::item_line))]
fn push_item(out: &mut Vec<u8>, shown: &Shown) -> Result<(), AllocError>
    ensures { OnOk result (out.new.items ≡ out.old.items ++ item_line shown.now) }
{
    out.extend_from_slice(b"[\"item\",")?;
    push_json_text(out, shown.id.as_str())?;
    out.extend_from_slice(b",")?;
    out.extend_from_slice(shown.text.as_str().as_bytes())?;
    out.extend_from_slice(b"]\n")?;
    Ok(())
}

/// Appends the line of an id that is gone since this time.
#[tactic(auto, unfolding(crate::specs::Tellings::gone_line))]
fn push_gone(out: &mut Vec<u8>, id: &Id, time: Stamp) -> Result<(), AllocError>
    ensures { OnOk result (out.new.items ≡ out.old.items ++ gone_line (id.now, time)) }
{
    out.extend_from_slice(b"[\"gone\",")?;
    push_json_text(out, id.as_str())?;
    out.extend_from_slice(b",\"")?;
    push_stamp(out, time)?;
    out.extend_from_slice(b"\"]\n")?;
    Ok(())
}

/// Appends the line of an id of which a row was skipped.
#[tactic(auto, unfolding(crate::specs::Tellings::skipped_line))]
fn push_skipped(out: &mut Vec<u8>, id: &Id) -> Result<(), AllocError>
    ensures { OnOk result (out.new.items ≡ out.old.items ++ skipped_line id.now) }
{
    out.extend_from_slice(b"[\"skipped\",")?;
    push_json_text(out, id.as_str())?;
    out.extend_from_slice(b"]\n")?;
    Ok(())
}

fn push_items(out: &mut Vec<u8>, items: &[Shown]) -> Result<(), AllocError>
    ensures { OnOk result (out.new.items ≡ out.old.items ++ flat_map item_line items.now) }
{
    for shown in items {
        push_item(out, shown)?;
    }
    Ok(())
}

fn push_all_gone(out: &mut Vec<u8>, gone: &[(Id, Stamp)]) -> Result<(), AllocError>
    ensures { OnOk result (out.new.items ≡ out.old.items ++ flat_map gone_line gone.now) }
{
    for (id, time) in gone {
        push_gone(out, id, *time)?;
    }
    Ok(())
}

fn push_all_skipped(out: &mut Vec<u8>, ids: &[Id]) -> Result<(), AllocError>
    ensures { OnOk result (out.new.items ≡ out.old.items ++ flat_map skipped_line ids.now) }
{
    for id in ids {
        push_skipped(out, id)?;
    }
    Ok(())
}

/// The text of three lists.
#[tactic(auto, unfolding(crate::specs::Tellings::flat_text, ss_device::specs::Writing::end_line))]
fn text_of(
    alloc: Global,
    shown: &[Shown],
    gone: &[(Id, Stamp)],
    skipped: &Ids,
) -> Result<Vec<u8>, AllocError>
    ensures { IfOk result (λ out. out.items ≡ flat_text shown.now gone.now skipped.now) }
{
    let mut out = Vec::new(alloc);
    push_items(&mut out, shown)?;
    push_all_gone(&mut out, gone)?;
    push_all_skipped(&mut out, skipped.as_slice())?;
    out.extend_from_slice(b"[\"end\"]\n")?;
    Ok(out)
}

/// What is told of the rows of a state.
pub fn telling(alloc: Global, flat: &Flat) -> Result<Vec<u8>, AllocError>
    ensures { IfOk result (λ out. (rows : List Row) → IsFlatState rows flat.now
        → IsTelling flat.now.kind rows out.items) }
{
    let shown = flat.shown(alloc)?;
    let gone = flat.gone(alloc)?;
    let skipped = flat.skipped(alloc)?;
    text_of(alloc, &shown, &gone, &skipped)
}
