//! The order of the items: siblings stand in it as in their parent's children.

ghost use Rattle.std.specs.Prelude.{◌≡◌, ◌<◌, ◌++◌, ◌∷◌, ◌&&◌, ◌==◌, [], ℕ, true, false, IfOk, OnOk, List, length, map};
ghost use Rattle.std.specs.Prelude.{filter, not, get_or, slice_set, if◌then◌else◌};
ghost use Rattle.std.specs.List.{list_any};
ghost use Rattle.ss_record.specs.Ids.{Apart, by_id, firsts, has, roots};
ghost use Rattle.ss_build.specs.Built.{ids, is_child};
ghost use Rattle.ss_build.specs.Places.{AreItems, IsTakenSoFar, as_told, at, front, in_order, is_next, lists_as_told};
ghost use Rattle.ss_build.specs.Places.{names, parents_of, place, rest, untaken};

use crate::claims::Claim;
use crate::orders::by_id;
use crate::places::{Places, place, places_of, root_words, words_of};
use ss_text::{Id, Ids, Word};
use std::alloc::{AllocError, Global};

/// The places of all items in order, and which items have the children that their records name.
#[derive(Drop, Debug)]
pub(crate) struct Siblings {
    pub(crate) order: Vec<usize>,
    pub(crate) as_told: Vec<bool>,
}

/// Appends a place and takes it.
fn take(order: &mut Vec<usize>, taken: &mut [bool], at: usize) -> Result<(), AllocError>
    requires { at < length taken.old }
    ensures order { OnOk result (order.new.items ≡ order.old.items ++ at ∷ []) }
    ensures taken { OnOk result (taken.new ≡ slice_set taken.old at true) }
{
    order.push(at)?;
    taken[at] = true;
    Ok(())
}

/// Appends the places of some ids and takes them.
fn take_all(
    places: &Places,
    words: &[Word],
    order: &mut Vec<usize>,
    taken: &mut [bool],
) -> Result<(), AllocError>
    requires apart { Apart places.now.keys }
    requires inside { (x : List ℕ) → has x words.now ≡ true → has x places.now.keys ≡ true }
    requires taken { IsTakenSoFar places.now.keys order.old.items taken.old }
    ensures names { OnOk result (names places.now.keys order.new.items ≡ names places.now.keys order.old.items ++ words.now) }
    ensures taken { OnOk result (IsTakenSoFar places.now.keys order.new.items taken.new) }
{
    for word in words {
        take(order, taken, place(places, word))?;
    }
    Ok(())
}

/// Appends the place of an item that isn't taken yet and that stands under a folder, and takes it.
fn take_child(
    parents: &[usize],
    folder: usize,
    at: usize,
    order: &mut Vec<usize>,
    taken: &mut [bool],
) -> Result<(), AllocError>
    requires { length taken.old ≡ length parents.now }
    ensures order { OnOk result (order.new.items ≡ (if is_next parents.now folder taken.old at then order.old.items ++ at ∷ [] else order.old.items)) }
    ensures taken { OnOk result (taken.new ≡ (if is_next parents.now folder taken.old at then slice_set taken.old at true else taken.old)) }
{
    if at < parents.len() {
        if parents[at] == folder && !taken[at] {
            take(order, taken, at)?;
        }
    }
    Ok(())
}

/// Appends the places of the children of a folder that it lists and that aren't taken yet, and takes them.
fn take_listed(
    claims: &[Claim],
    places: &Places,
    parents: &[usize],
    folder: usize,
    order: &mut Vec<usize>,
    taken: &mut [bool],
) -> Result<(), AllocError>
    requires ids { places.now.keys ≡ ids claims.now }
    requires items { AreItems claims.now }
    requires parents { parents.now ≡ parents_of claims.now }
    requires folder { folder < length claims.now }
    requires taken { IsTakenSoFar (ids claims.now) order.old.items taken.old }
    ensures names { OnOk result (names (ids claims.now) order.new.items ≡ names (ids claims.now) order.old.items ++ firsts (filter (λ x. is_child claims.now (at claims.now folder).item.id x && not (has x (names (ids claims.now) order.old.items))) (at claims.now folder).children)) }
    ensures taken { OnOk result (IsTakenSoFar (ids claims.now) order.new.items taken.new) }
{
    let claim = &claims[folder];
    for word in claim.children.as_slice() {
        take_child(parents, folder, place(places, word), order, taken)?;
    }
    Ok(())
}

/// Appends an id unless a condition holds.
pub(crate) fn push_unless(
    alloc: Global,
    ids: &mut Vec<Id>,
    id: &Id,
    taken: bool,
) -> Result<(), AllocError>
    ensures { OnOk result (ids.new.items ≡ (if taken then ids.old.items else ids.old.items ++ id.now ∷ [])) }
{
    if taken {
        return Ok(());
    }
    ids.push(id.copy(alloc)?)?;
    Ok(())
}

/// The ids of the items that aren't taken, by id.
fn not_taken(alloc: Global, claims: &[Claim], taken: &[bool]) -> Result<Ids, AllocError>
    requires { length taken.now ≡ length claims.now }
    ensures { IfOk result (λ left. left ≡ by_id (untaken (ids claims.now) taken.now)) }
{
    let mut left = Vec::new(alloc);
    for i in 0..claims.len() {
        push_unless(alloc, &mut left, claims[i].item.id(), taken[i])?;
    }
    by_id(left)
}

/// Appends the places of the children that the folders list, and tells of each item whether it has as many as its record.
fn take_front(
    claims: &[Claim],
    places: &Places,
    parents: &[usize],
    order: &mut Vec<usize>,
    taken: &mut [bool],
    as_told: &mut Vec<bool>,
) -> Result<(), AllocError>
    requires ids { places.now.keys ≡ ids claims.now }
    requires items { AreItems claims.now }
    requires parents { parents.now ≡ parents_of claims.now }
    requires taken { IsTakenSoFar (ids claims.now) order.old.items taken.old }
    requires roots { names (ids claims.now) order.old.items ≡ roots }
    requires none { as_told.old.items ≡ [] }
    ensures names { OnOk result (names (ids claims.now) order.new.items ≡ front claims.now) }
    ensures taken { OnOk result (IsTakenSoFar (ids claims.now) order.new.items taken.new) }
    ensures as_told { OnOk result (as_told.new.items ≡ map (lists_as_told claims.now) claims.now) }
{
    for folder in 0..claims.len() {
        let before = order.len();
        take_listed(claims, places, parents, folder, order, taken)?;
        as_told.push(order.len() - before == claims[folder].children.as_slice().len())?;
    }
    Ok(())
}

/// Tells of the parents of some items that they have other children than their records name.
fn untell(as_told: &mut [bool], parents: &[usize], seats: &[usize])
    ensures { (i : ℕ) → i < length as_told.old → get_or as_told.new i false ≡ (get_or as_told.old i false && not (list_any (λ s. get_or parents.now s (length as_told.old) == i) seats.now)) }
{
    for seat in seats {
        untell_one(as_told, parents, *seat);
    }
}

/// Tells of an item's parent that it has other children than its record names.
fn untell_one(as_told: &mut [bool], parents: &[usize], seat: usize)
    ensures { as_told.new ≡ slice_set as_told.old (get_or parents.now seat (length as_told.old)) false }
{
    if seat < parents.len() {
        if parents[seat] < as_told.len() {
            as_told[parents[seat]] = false;
        }
    }
}

/// Appends the places of all items in order and takes them, and gives the places of those that no folder lists.
fn order_all(
    alloc: Global,
    claims: &[Claim],
    places: &Places,
    parents: &[usize],
    order: &mut Vec<usize>,
    taken: &mut [bool],
    as_told: &mut Vec<bool>,
) -> Result<Vec<usize>, AllocError>
    requires ids { places.now.keys ≡ ids claims.now }
    requires items { AreItems claims.now }
    requires parents { parents.now ≡ parents_of claims.now }
    requires taken { IsTakenSoFar (ids claims.now) order.old.items taken.old }
    requires empty { order.old.items ≡ [] }
    requires none { as_told.old.items ≡ [] }
    ensures names { OnOk result (names (ids claims.now) order.new.items ≡ in_order claims.now) }
    ensures taken { OnOk result (IsTakenSoFar (ids claims.now) order.new.items taken.new) }
    ensures as_told { OnOk result (as_told.new.items ≡ map (lists_as_told claims.now) claims.now) }
    ensures left { IfOk result (λ left. left.items ≡ map (λ x. place x (ids claims.now)) (rest claims.now)) }
{
    let roots = root_words(alloc)?;
    take_all(places, &roots, order, taken)?;
    take_front(claims, places, parents, order, taken, as_told)?;
    let left = not_taken(alloc, claims, taken)?;
    let words = words_of(alloc, left.as_slice())?;
    take_all(places, &words, order, taken)?;
    let seats = places_of(alloc, places, &words)?;
    Ok(seats)
}

/// The order of the items: the roots, then those that their parents list, then the rest by id.
pub(crate) fn siblings_of(
    alloc: Global,
    claims: &[Claim],
    places: &Places,
    parents: &[usize],
) -> Result<Siblings, AllocError>
    requires ids { places.now.keys ≡ ids claims.now }
    requires items { AreItems claims.now }
    requires parents { parents.now ≡ parents_of claims.now }
    ensures names { IfOk result (λ found. names (ids claims.now) found.order.items ≡ in_order claims.now) }
    ensures bounded { IfOk result (λ found. (k : ℕ) → k < length found.order.items → get_or found.order.items k 0 < length claims.now) }
    ensures as_told { IfOk result (λ found. found.as_told.items ≡ map (as_told claims.now) claims.now) }
{
    let mut order = Vec::with_capacity(alloc, claims.len())?;
    let mut taken = vec![in alloc; false; claims.len()]?;
    let mut as_told = Vec::with_capacity(alloc, claims.len())?;
    let left = order_all(
        alloc,
        claims,
        places,
        parents,
        &mut order,
        &mut taken,
        &mut as_told,
    )?;
    untell(&mut as_told, parents, &left);
    Ok(Siblings { order, as_told })
}
