//! The records that have to be put.

ghost use Rattle.std.specs.Option.{option_to_list};
ghost use Rattle.std.specs.Prelude.{◌≡◌, ◌++◌, ◌||◌, ℕ, Some, None, false, true, IfOk, OnOk, bytes_eq, option_map};
ghost use Rattle.std.specs.Prelude.{is_some, if◌then◌else◌};
ghost use Rattle.ss_record.specs.Ids.{places};
ghost use Rattle.ss_record.specs.Items.{is_fit};
ghost use Rattle.ss_tree.specs.declared.entries.Entry.{Entry};
ghost use Rattle.ss_tree.specs.Entries.{IsTree, entry, tree as tree_of};
ghost use Rattle.ss_plan.specs.Plan.{is_told, order, part, puts, record_at, record_due, record_for};
ghost use Rattle.ss_plan.specs.Seats.{placed_at};

use crate::agreeing::is_told;
use crate::known::known;
use crate::seats::{Seat, seat_of};
use ss_bso::{Field, Fields, Part};
use ss_record::{Reading, is_places, write_record};
use ss_text::{Id, Word};
use ss_tree::Tree;
use std::alloc::{AllocError, Global};

/// What is put for an id: its payload alone.
pub(crate) fn part(id: Id, payload: Word) -> Part
    ensures { result ≡ part id payload }
{
    Part {
        id,
        fields: Fields {
            payload: Field::Set(payload),
            sortindex: Field::Keep,
            ttl: Field::Keep,
        },
    }
}

/// The record of an item where it stands.
#[tactic(auto, unfolding(crate::specs::Plan::record_at))]
fn record_at(alloc: Global, seat: &Seat) -> Result<Word, AllocError>
    requires { is_some seat.now.parent ≡ true }
    ensures { IfOk result (λ r. r ≡ record_at (placed_at seat.now)) }
{
    match &seat.parent {
        Some(parent) => write_record(alloc, seat.item, parent, &seat.children),
        None => unreachable!(),
    }
}

/// The record that has to be put for an item, by what its row says.
#[tactic(auto, unfolding(crate::specs::Plan::record_due))]
fn record_due(
    alloc: Global,
    seat: &Seat,
    reading: Option<&Reading>,
) -> Result<Option<Word>, AllocError>
    requires { bytes_eq seat.now.item.now.id places ≡ false → is_some seat.now.parent ≡ true }
    ensures { IfOk result (λ r. r ≡ record_due (placed_at seat.now) (option_map (λ r. r.now) reading.entry)) }
{
    if is_places(seat.item.id()) || is_told(seat, reading) {
        return Ok(None);
    }
    Ok(Some(record_at(alloc, seat)?))
}

/// Puts a payload for an id, where there is one.
fn put(
    alloc: Global,
    parts: &mut Vec<Part>,
    id: &Id,
    payload: Option<Word>,
) -> Result<(), AllocError>
    ensures { OnOk result (parts.new.items ≡ parts.old.items ++ option_to_list (option_map (part id.now) payload)) }
{
    if let Some(payload) = payload {
        parts.push(part(id.copy(alloc)?, payload))?;
    }
    Ok(())
}

/// The records that have to be put, in preorder.
pub(crate) fn records(
    alloc: Global,
    tree: &Tree,
    readings: &[(Id, Reading)],
) -> Result<Vec<Part>, AllocError>
    ensures parts { IfOk result (λ parts. parts.items ≡ puts (record_for (tree_of tree.now) readings.now)
        (order tree.now)) }
    ensures fit { OnOk result ((k : ℕ) (e : Entry) → entry k tree.now ≡ Some e → is_fit e.item ≡ true) }
    ensures kept { OnOk result (IsTree tree.now) }
{
    let known = known(alloc, readings)?;
    let nodes = tree.walk(alloc)?;
    let mut parts = Vec::new(alloc);
    for node in &nodes {
        let seat = seat_of(alloc, tree, *node)?;
        let id = seat.item.id();
        let due = record_due(alloc, &seat, known.get(id).copied())?;
        put(alloc, &mut parts, id, due)?;
    }
    Ok(parts)
}
