//! What lines say, apart by kind.

ghost use Rattle.std.specs.Prelude.{◌≡◌, ◌++◌, ◌∷◌, [], IfOk, OnOk, filter_map, map};
ghost use Rattle.std.specs.Option.{option_to_list};
ghost use Rattle.ss_device.specs.Device.{AreById, dead_ids};
ghost use Rattle.ss_device_file.specs.Files.{death_in, deaths_in, item_in, items_in, kept_rows, row_in, rows_in};
ghost use Rattle.ss_device_file.specs.Files.{stamp_in};

use crate::lines::{ItemLine, Line, Version};
use ss_record::Sheet;
use ss_text::{Id, Stamp, count_decimals};
use std::alloc::{AllocError, Global};
use std::collections::BTreeMap;

/// What lines say, apart by kind.
#[derive(Drop)]
pub(crate) struct Parts {
    pub(crate) rows: Vec<Sheet>,
    pub(crate) items: Vec<ItemLine>,
    pub(crate) deaths: Vec<(Id, Stamp)>,
}

/// Puts what a line says behind what is there.
fn sort_in(parts: &mut Parts, line: Line) -> Result<(), AllocError>
    ensures rows { OnOk result (parts.new.rows.items ≡ parts.old.rows.items ++ option_to_list (row_in line)) }
    ensures items { OnOk result (parts.new.items.items ≡ parts.old.items.items ++ option_to_list (item_in line)) }
    ensures deaths { OnOk result (parts.new.deaths.items ≡ parts.old.deaths.items ++ option_to_list (death_in line)) }
{
    match line {
        Line::Row(row) => parts.rows.push(row)?,
        Line::Item(item) => parts.items.push(item)?,
        Line::Dead(id, time) => parts.deaths.push((id, time))?,
        Line::Head(_) | Line::Synced(_) | Line::End => {}
    }
    Ok(())
}

/// The rows, the items and the deleted ids of lines.
pub(crate) fn apart(alloc: Global, lines: Vec<Line>) -> Result<Parts, AllocError>
    ensures rows { IfOk result (λ parts. parts.rows.items ≡ rows_in lines.items) }
    ensures items { IfOk result (λ parts. parts.items.items ≡ items_in lines.items) }
    ensures deaths { IfOk result (λ parts. parts.deaths.items ≡ deaths_in lines.items) }
{
    let mut parts = Parts {
        rows: Vec::new(alloc),
        items: Vec::new(alloc),
        deaths: Vec::new(alloc),
    };
    for line in lines {
        sort_in(&mut parts, line)?;
    }
    Ok(parts)
}

/// The time of the last sync, which the second line says.
pub(crate) fn stamp_in(lines: &[Line]) -> Stamp
    ensures { result ≡ stamp_in lines.now }
{
    match lines.get(1) {
        Some(Line::Synced(time)) => *time,
        _ => Stamp::clamp(0),
    }
}

/// The rows that a version keeps.
pub(crate) fn kept_rows(version: Version, rows: Vec<Sheet>) -> Vec<Sheet>
    ensures { result.items ≡ kept_rows version rows.items }
{
    let mut rows = rows;
    match version {
        Version::First => rows.retain(|row| count_decimals(row.payload.as_str().as_bytes()) == 0),
        Version::Second => {}
    }
    rows
}

/// Deleted ids as a map.
pub(crate) fn as_map(
    alloc: Global,
    deaths: Vec<(Id, Stamp)>,
) -> Result<BTreeMap<Id, Stamp>, AllocError>
    requires { AreById (dead_ids deaths.items) }
    ensures { IfOk result (λ dead. dead.entries ≡ deaths.items) }
{
    let mut dead = BTreeMap::new(alloc);
    let mut left = deaths;
    'deaths: while let Some((id, time)) = left.pop() {
        dead.insert(id, time)?;
    }
    Ok(dead)
}
