//! The rows of lines, as a collection stores them.

ghost use Rattle.std.specs.Prelude.{◌≡◌, ◌∷◌, ◌++◌, [], List, IfOk, OnOk};
ghost use Rattle.ss_bso.specs.declared.rows.Row.{Row as Stored};
ghost use Rattle.ss_flat.specs.States.{IsFlatState};
ghost use Rattle.ss_run_flat.specs.Files.{name_of, stored_row};

use ss_bso::Row;
use ss_flat::{Flat, FlatKind};
use ss_record::Sheet;
use ss_text::Name;
use std::alloc::{AllocError, Global};

/// The collection of the rows of a kind.
#[tactic(auto, unfolding(crate::specs::Files::name_of, ss_text::specs::Names::is_name))]
fn collection_of(alloc: Global, kind: FlatKind) -> Result<Name, AllocError>
    ensures { IfOk result (λ name. name ≡ name_of kind) }
{
    let found = match kind {
        FlatKind::History => Name::new(alloc, b"history")?,
        FlatKind::Forms => Name::new(alloc, b"forms")?,
    };
    match found {
        Some(name) => Ok(name),
        None => unreachable!(),
    }
}

/// The row of a line, as the collection of this kind stores it.
pub(crate) fn stored(alloc: Global, kind: FlatKind, sheet: Sheet) -> Result<Row, AllocError>
    ensures { IfOk result (λ row. row ≡ stored_row kind sheet) }
{
    let Sheet {
        id,
        modified,
        payload,
    } = sheet;
    Ok(Row {
        collection: collection_of(alloc, kind)?,
        id,
        modified,
        sortindex: None,
        payload,
        expires: None,
    })
}

/// Sees the row of a line.
pub(crate) fn see(alloc: Global, flat: &mut Flat, sheet: Sheet) -> Result<(), AllocError>
    ensures kind { flat.new.kind ≡ flat.old.kind }
    ensures seen { OnOk result ((rows : List Stored) → IsFlatState rows flat.old
        → IsFlatState (rows ++ stored_row flat.old.kind sheet ∷ []) flat.new) }
{
    let row = stored(alloc, flat.kind(), sheet)?;
    flat.see(alloc, &row)?;
    Ok(())
}
