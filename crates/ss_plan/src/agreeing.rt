//! Whether a row agrees with an item of a tree.

ghost use Rattle.std.specs.Prelude.{◌≡◌, ◌&&◌, false, bytes_eq, map, option_map, unwrap_or};
ghost use Rattle.ss_record.specs.Ids.{has, same_list};
ghost use Rattle.ss_record.specs.Kinds.{same_kind};
ghost use Rattle.ss_build.specs.Stand.{agrees, same_parent};
ghost use Rattle.ss_plan.specs.Plan.{is_told};
ghost use Rattle.ss_plan.specs.Seats.{placed_at};

use crate::seats::Seat;
use ss_record::{Kind, Reading, Words, is_root};
use ss_text::{Id, Word};

fn same_kind(a: Kind, b: Kind) -> bool
    ensures { result ≡ same_kind a b }
{
    a == b
}

/// Whether a text is this id.
fn is_id(text: &Word, id: &Id) -> bool
    ensures { result ≡ bytes_eq text.now id.now }
{
    text.as_str() == id.as_str()
}

/// Whether a record's children are these, in this order.
#[tactic(auto, unfolding(ss_record::specs::Ids::same_list))]
fn same_children(words: &Words, ids: &[Id]) -> bool
    ensures { result ≡ same_list words.now ids.now }
{
    let words = words.as_slice();
    if words.len() != ids.len() {
        return false;
    }
    for at in 0..words.len() {
        if !is_id(&words[at], &ids[at]) {
            return false;
        }
    }
    true
}

/// Whether the parent that a record names is the item's; of a root it may be absent.
fn same_parent(seat: &Seat, named: &Option<Word>) -> bool
    ensures { result ≡ same_parent (placed_at seat.now) named.now }
{
    match named {
        None => is_root(seat.item.id()),
        Some(named) => match &seat.parent {
            Some(parent) => is_id(named, parent),
            None => false,
        },
    }
}

/// Whether what was read of an item's row is the item, in its place.
fn agrees(seat: &Seat, reading: &Reading) -> bool
    ensures { result ≡ agrees (placed_at seat.now) reading.now }
{
    match reading {
        Reading::Item {
            item,
            parentid,
            children,
        } => {
            same_kind(item.kind(), seat.item.kind())
                && item.content() == seat.item.content()
                && same_parent(seat, parentid)
                && same_children(children, &seat.children)
        }
        Reading::Tombstone | Reading::Skipped => false,
    }
}

/// Whether an item's row is there and agrees with it.
#[tactic(auto, unfolding(crate::specs::Plan::is_told))]
pub(crate) fn is_told(seat: &Seat, reading: Option<&Reading>) -> bool
    ensures { result ≡ is_told (placed_at seat.now) (option_map (λ r. r.now) reading.entry) }
{
    match reading {
        Some(reading) => agrees(seat, reading),
        None => false,
    }
}
