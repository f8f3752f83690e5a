//! The rows that an upload leaves.

ghost use Rattle.std.specs.Prelude.{◌≡◌, [], ◌∷◌, ℕ, List, IfOk, OnOk};
ghost use Rattle.std.specs.Option.{option_map_or};
ghost use Rattle.ss_bso.specs.Put.{field_value};
ghost use Rattle.ss_plan.specs.Written.{AreRowsAfter, sheet, sheet_after};
ghost use Rattle.ss_sync.specs.Rows.{AreById};
ghost use Rattle.ss_sync.specs.Told.{row_at, rows_of};
ghost use Rattle.std.specs.BTreeMap.{IsOrdered};
ghost use Rattle.ss_text.specs.Texts.{text_cmp};

use ss_bso::{Field, Part};
use ss_record::Sheet;
use ss_text::{Id, Stamp, Word};
use std::alloc::{AllocError, Global};
use std::collections::BTreeMap;

/// What a row tells of its id.
#[derive(Drop, Debug)]
struct Told {
    modified: Stamp,
    payload: Word,
}

/// The rows by their ids; of several rows of an id the first counts.
fn gathered(alloc: Global, mut sheets: Vec<Sheet>) -> Result<BTreeMap<Id, Told>, AllocError>
    ensures { IfOk result (λ rows. (x : List ℕ) → row_at rows x ≡ sheet x sheets.items) }
{
    let mut rows = BTreeMap::new(alloc);
    while let Some(sheet) = sheets.pop() {
        let Sheet {
            id,
            modified,
            payload,
        } = sheet;
        rows.insert(id, Told { modified, payload })?;
    }
    Ok(rows)
}

/// The payload that a part leaves.
fn payload_after(alloc: Global, old: Option<&Told>, field: &Field<Word>) -> Result<Word, AllocError>
    ensures { IfOk result (λ payload. payload ≡ field_value field.now (option_map_or (λ t. t.now.payload) old.entry [])
        [] (λ text. text)) }
{
    match (field, old) {
        (Field::Set(text), _) => text.copy(alloc),
        (Field::Keep, Some(told)) => told.payload.copy(alloc),
        _ => Ok(Word::new(String::new(alloc))),
    }
}

/// Puts a part.
fn put(
    alloc: Global,
    rows: &mut BTreeMap<Id, Told>,
    part: &Part,
    stamp: Stamp,
) -> Result<(), AllocError>
    ensures { OnOk result ((x : List ℕ) → row_at rows.new x ≡ sheet_after stamp (part.now ∷ []) x (row_at rows.old x)) }
{
    let payload = payload_after(alloc, rows.get(&part.id), &part.fields.payload)?;
    rows.insert(
        part.id.copy(alloc)?,
        Told {
            modified: stamp,
            payload,
        },
    )?;
    Ok(())
}

/// The rows of a map, each its id and what it tells, by id.
fn into_pairs(alloc: Global, rows: BTreeMap<Id, Told>) -> Result<Vec<(Id, Told)>, AllocError>
    ensures pairs { IfOk result (λ pairs. pairs.items ≡ rows.entries) }
    ensures ordered { OnOk result (IsOrdered text_cmp rows) }
{
    let mut pairs = Vec::with_capacity(alloc, rows.len())?;
    for (id, told) in rows {
        pairs.push((id, told))?;
    }
    Ok(pairs)
}

fn each_row(alloc: Global, pairs: Vec<(Id, Told)>) -> Result<Vec<Sheet>, AllocError>
    ensures { IfOk result (λ sheets. sheets.items ≡ rows_of pairs.items) }
{
    let mut sheets = Vec::with_capacity(alloc, pairs.len())?;
    for (id, told) in pairs {
        let Told { modified, payload } = told;
        sheets.push(Sheet {
            id,
            modified,
            payload,
        })?;
    }
    Ok(sheets)
}

/// The rows, by id.
fn into_sheets(alloc: Global, rows: BTreeMap<Id, Told>) -> Result<Vec<Sheet>, AllocError>
    ensures rows { IfOk result (λ sheets. (x : List ℕ) → sheet x sheets.items ≡ row_at rows x) }
    ensures by_id { IfOk result (λ sheets. AreById sheets.items) }
{
    let pairs = into_pairs(alloc, rows)?;
    let sheets = each_row(alloc, pairs)?;
    Ok(sheets)
}

/// The rows after these parts were put with one stamp, by id: each id that a part names has the row that its parts make
/// of the old one, and each other id the row that it had.
pub fn rows_after(
    alloc: Global,
    sheets: Vec<Sheet>,
    parts: &[Part],
    stamp: Stamp,
) -> Result<Vec<Sheet>, AllocError>
    ensures written { IfOk result (λ after. AreRowsAfter sheets.items parts.now stamp after.items) }
    ensures by_id { IfOk result (λ after. AreById after.items) }
{
    let mut rows = gathered(alloc, sheets)?;
    for part in parts {
        put(alloc, &mut rows, part, stamp)?;
    }
    let after = into_sheets(alloc, rows)?;
    Ok(after)
}
