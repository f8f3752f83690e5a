//! What survives a merge, and the side that is taken.

ghost use Rattle.std.specs.Prelude.{◌≡◌, ◌||◌, true, option_map};
ghost use Rattle.ss_record.specs.Kinds.{is_folder};
ghost use Rattle.ss_dupe.specs.Looks.{at, is_in};
ghost use Rattle.ss_dupe.specs.Plains.{placed_at, view};
ghost use Rattle.ss_dupe.specs.Sides.{tree_of};
ghost use Rattle.ss_dupe.specs.Shapes.{HaveShapes};
ghost use Rattle.ss_merge.specs.Survivors.{content_of, differs, is_changed, is_merged_folder, newer, side_of, stays};
ghost use Rattle.ss_merge.specs.Survivors.{survives, taken};
ghost use Rattle.ss_merge.specs.Parts.{alike};

use crate::parts::{Part, alike};
use ss_dupe::{Plains, Seat, Side};
use ss_record::{is_places, is_root};
use ss_text::Id;

/// The item of a side's tree.
#[tactic(auto, unfolding(ss_dupe::specs::Looks::at))]
fn seat_on<'p, 'a>(plains: &'p Plains<'a>, side: Side, id: &Id) -> &'p Seat<'a>
    requires { is_in (tree_of (view plains.now) side) id.now ≡ true }
    ensures { placed_at result.now ≡ at (tree_of (view plains.now) side) id.now }
{
    match plains.of(side).get(id) {
        Some(seat) => seat,
        None => unreachable!(),
    }
}

/// Whether a part of a side's item differs from the mirror's, or the item isn't in the mirror.
#[tactic(auto, unfolding(crate::specs::Survivors::differs, ss_dupe::specs::Looks::at, ss_dupe::specs::Looks::is_in))]
fn differs(plains: &Plains, part: Part, side: Side, id: &Id) -> bool
    requires { is_in (tree_of (view plains.now) side) id.now ≡ true }
    ensures { result ≡ differs (view plains.now) (alike part) side id.now }
{
    match plains.mirror.get(id) {
        Some(old) => !alike(part, seat_on(plains, side, id), old),
        None => true,
    }
}

/// The side on which an item of both trees was changed later; at one time the remote one.
#[tactic(auto, unfolding(crate::specs::Survivors::newer))]
fn newer(plains: &Plains, id: &Id) -> Side
    requires local { is_in (view plains.now).local id.now ≡ true }
    requires remote { is_in (view plains.now).remote id.now ≡ true }
    ensures { result ≡ newer (view plains.now) id.now }
{
    let local = seat_on(plains, Side::Local, id).time.get();
    let remote = seat_on(plains, Side::Remote, id).time.get();
    if remote < local {
        Side::Local
    } else {
        Side::Remote
    }
}

/// The side of an item of both trees on which a part differs from the mirror's, or the newer one; None where neither
/// differs.
fn differing(plains: &Plains, part: Part, id: &Id) -> Option<Side>
    requires local { is_in (view plains.now).local id.now ≡ true }
    requires remote { is_in (view plains.now).remote id.now ≡ true }
    ensures { result ≡ taken (view plains.now) (alike part) id.now }
{
    let remote = differs(plains, part, Side::Remote, id);
    if differs(plains, part, Side::Local, id) {
        if remote {
            Some(newer(plains, id))
        } else {
            Some(Side::Local)
        }
    } else if remote {
        Some(Side::Remote)
    } else {
        None
    }
}

/// The side whose part of an item is taken; None where it differs from the mirror's on neither.
#[tactic(auto, unfolding(crate::specs::Survivors::taken))]
pub(crate) fn taken(plains: &Plains, part: Part, id: &Id) -> Option<Side>
    ensures { result ≡ taken (view plains.now) (alike part) id.now }
{
    if !plains.remote.has(id) {
        Some(Side::Local)
    } else if !plains.local.has(id) {
        Some(Side::Remote)
    } else {
        differing(plains, part, id)
    }
}

/// The side whose part of an item is taken.
#[tactic(auto, unfolding(crate::specs::Survivors::side_of))]
pub(crate) fn side_of(plains: &Plains, part: Part, id: &Id) -> Side
    ensures { result ≡ side_of (view plains.now) (alike part) id.now }
{
    taken(plains, part, id).unwrap_or(Side::Local)
}

/// Whether kind, content or parent of a side's item differ from the mirror's.
fn is_changed(plains: &Plains, side: Side, id: &Id) -> bool
    requires { is_in (tree_of (view plains.now) side) id.now ≡ true }
    ensures { result ≡ is_changed (view plains.now) side id.now }
{
    differs(plains, Part::Content, side, id) || differs(plains, Part::Parent, side, id)
}

/// Whether an item of one tree alone stays: it isn't deleted on the other side, or is no folder and was changed.
fn stays(plains: &Plains, side: Side, id: &Id) -> bool
    requires { is_in (tree_of (view plains.now) side) id.now ≡ true }
    ensures { result ≡ stays (view plains.now) side id.now }
{
    if !plains.is_deleted(side.other(), id) {
        return true;
    }
    let is_folder = seat_on(plains, side, id).item.kind().is_folder();
    !is_folder && is_changed(plains, side, id)
}

/// Whether an item survives.
#[tactic(auto, unfolding(crate::specs::Survivors::survives, ss_dupe::specs::Looks::is_root, ss_dupe::specs::Looks::is_places))]
pub(crate) fn survives(plains: &Plains, id: &Id) -> bool
    ensures { result ≡ survives (view plains.now) id.now }
{
    if is_root(id) {
        return true;
    }
    if is_places(id) {
        return false;
    }
    if plains.local.has(id) {
        if plains.remote.has(id) {
            true
        } else {
            stays(plains, Side::Local, id)
        }
    } else if plains.remote.has(id) {
        stays(plains, Side::Remote, id)
    } else {
        false
    }
}

/// The item with the taken kind and content.
#[tactic(auto, unfolding(crate::specs::Survivors::content_of))]
pub(crate) fn content_of<'p, 'a>(plains: &'p Plains<'a>, id: &Id) -> &'p Seat<'a>
    requires shaped { HaveShapes (view plains.now) }
    requires survives { survives (view plains.now) id.now ≡ true }
    ensures { placed_at result.now ≡ content_of (view plains.now) id.now }
{
    seat_on(plains, side_of(plains, Part::Content, id), id)
}

/// Whether an item survives as a folder.
#[tactic(auto, unfolding(crate::specs::Survivors::is_merged_folder))]
pub(crate) fn is_merged_folder(plains: &Plains, id: &Id) -> bool
    requires { HaveShapes (view plains.now) }
    ensures { result ≡ is_merged_folder (view plains.now) id.now }
{
    survives(plains, id) && content_of(plains, id).item.kind().is_folder()
}
