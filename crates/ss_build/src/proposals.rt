//! Proposed parents, by their places.

ghost use Rattle.std.specs.Prelude.{◌≡◌, ◌≤◌, ◌<◌, nat_lt, ◌&&◌, ◌||◌, ◌==◌, ℕ, false, IfOk, OnOk, nat_eq, true, map};
ghost use Rattle.std.specs.Prelude.{length, filter, get_or, slice_set, if◌then◌else◌};
ghost use Rattle.std.specs.List.{list_any};
ghost use Rattle.ss_record.specs.Ids.{Apart, unfiled};
ghost use Rattle.ss_build.specs.Built.{beats, best, ids, lists, named};
ghost use Rattle.ss_build.specs.Places.{AreItems, at, better, chosen_place, kept_at, next_of, place, seat};

use crate::claims::Claim;
use crate::places::{Places, place, places_of};
use ss_record::is_root;
use std::alloc::{AllocError, Global};

/// Whether the first folder beats the second one: it has the greater time, or the smaller id at the same time.
#[tactic(auto, unfolding(crate::specs::Built::beats, ss_record::specs::Ids::before))]
fn beats(first: &Claim, second: &Claim) -> bool
    ensures { result ≡ beats first.now second.now }
{
    second.time.get() < first.time.get()
        || (first.time.get() == second.time.get() && first.item.id().cmp(second.item.id()).is_lt())
}

/// The place of the folder that an item names as its parent; the number of items where there is none.
fn named_place(claims: &[Claim], places: &Places, claim: &Claim) -> usize
    requires ids { places.now.keys ≡ ids claims.now }
    requires apart { Apart (ids claims.now) }
    ensures named { result ≡ seat claims.now (named claims.now claim.now) }
    ensures bound { result ≤ length claims.now }
{
    let at = match &claim.parentid {
        Some(parentid) => place(places, parentid),
        None => return claims.len(),
    };
    if at < claims.len() {
        if claims[at].item.kind().is_folder() {
            at
        } else {
            claims.len()
        }
    } else {
        claims.len()
    }
}

/// The places of the folders that the items name.
fn named_places(alloc: Global, claims: &[Claim], places: &Places) -> Result<Vec<usize>, AllocError>
    requires ids { places.now.keys ≡ ids claims.now }
    requires apart { Apart (ids claims.now) }
    ensures { IfOk result (λ found. found.items ≡ map (λ e. seat claims.now (named claims.now e)) claims.now) }
{
    let mut found = Vec::with_capacity(alloc, claims.len())?;
    for claim in claims {
        found.push(named_place(claims, places, claim))?;
    }
    Ok(found)
}

/// Marks a place where there is one at which this folder is the named one.
fn mark(kept: &mut [bool], claimed: &[usize], seat: usize, folder: usize)
    requires { length kept.old ≡ length claimed.now }
    ensures { kept.new ≡ (if nat_lt seat (length kept.old) && (get_or claimed.now seat 0 == folder) then slice_set kept.old seat true else kept.old) }
{
    if seat < kept.len() && claimed[seat] == folder {
        kept[seat] = true;
    }
}

/// Marks each of some places at which this folder is the named one.
fn mark_listed(kept: &mut [bool], claimed: &[usize], seats: &[usize], folder: usize)
    requires { length kept.old ≡ length claimed.now }
    ensures { (i : ℕ) → i < length kept.old → get_or kept.new i false ≡ (get_or kept.old i false || ((get_or claimed.now i 0 == folder) && list_any (nat_eq i) seats.now)) }
{
    for seat in seats {
        mark(kept, claimed, *seat, folder);
    }
}

/// Marks the items that a folder lists and that name it.
fn mark_by(
    alloc: Global,
    claims: &[Claim],
    places: &Places,
    kept: &mut [bool],
    claimed: &[usize],
    folder: usize,
) -> Result<(), AllocError>
    requires ids { places.now.keys ≡ ids claims.now }
    requires apart { Apart (ids claims.now) }
    requires folder { folder < length claims.now }
    requires same_length { length kept.old ≡ length claims.now }
    requires claimed { length claimed.now ≡ length claims.now }
    ensures { OnOk result ((i : ℕ) → i < length claims.now → get_or kept.new i false ≡ (get_or kept.old i false || ((get_or claimed.now i 0 == folder) && lists (at claims.now folder) (at claims.now i).item.id))) }
{
    let claim = &claims[folder];
    if !claim.item.kind().is_folder() {
        return Ok(());
    }
    let seats = places_of(alloc, places, claim.children.as_slice())?;
    mark_listed(kept, claimed, &seats, folder);
    Ok(())
}

/// Whether the folder that each item names lists it.
fn listed_by_named(
    alloc: Global,
    claims: &[Claim],
    places: &Places,
    claimed: &[usize],
) -> Result<Vec<bool>, AllocError>
    requires ids { places.now.keys ≡ ids claims.now }
    requires apart { Apart (ids claims.now) }
    requires claimed { claimed.now ≡ map (λ e. seat claims.now (named claims.now e)) claims.now }
    ensures { IfOk result (λ kept. kept.items ≡ map (kept_at claims.now) claims.now) }
{
    let mut kept = vec![in alloc; false; claims.len()]?;
    for folder in 0..claims.len() {
        mark_by(alloc, claims, places, &mut kept, claimed, folder)?;
    }
    Ok(kept)
}

/// The better of two folders, of which the first may be none.
fn better(claims: &[Claim], old: usize, folder: usize) -> usize
    requires { folder < length claims.now }
    ensures better { result ≡ better claims.now old folder }
    ensures bound { old ≤ length claims.now → result ≤ length claims.now }
{
    if old < claims.len() {
        if beats(&claims[folder], &claims[old]) {
            folder
        } else {
            old
        }
    } else {
        folder
    }
}

/// Lets a folder stand at a place where it beats what stands there.
fn raise(claims: &[Claim], listers: &mut [usize], seat: usize, folder: usize)
    requires { folder < length claims.now }
    ensures { listers.new ≡ (if nat_lt seat (length listers.old) then slice_set listers.old seat (better claims.now (get_or listers.old seat 0) folder) else listers.old) }
{
    if seat < listers.len() {
        listers[seat] = better(claims, listers[seat], folder);
    }
}

/// Lets a folder stand at each of some places where it beats what stands there.
fn raise_all(claims: &[Claim], listers: &mut [usize], seats: &[usize], folder: usize)
    requires { folder < length claims.now }
    ensures { (i : ℕ) → i < length listers.old → get_or listers.new i 0 ≡ (if list_any (nat_eq i) seats.now then better claims.now (get_or listers.old i 0) folder else get_or listers.old i 0) }
{
    for seat in seats {
        raise(claims, listers, *seat, folder);
    }
}

/// Lets a folder stand for each item that it lists, where it beats what stands there.
fn raise_by(
    alloc: Global,
    claims: &[Claim],
    places: &Places,
    listers: &mut [usize],
    folder: usize,
) -> Result<(), AllocError>
    requires ids { places.now.keys ≡ ids claims.now }
    requires apart { Apart (ids claims.now) }
    requires folder { folder < length claims.now }
    requires same_length { length listers.old ≡ length claims.now }
    ensures { OnOk result ((i : ℕ) → i < length claims.now → get_or listers.new i 0 ≡ (if lists (at claims.now folder) (at claims.now i).item.id then better claims.now (get_or listers.old i 0) folder else get_or listers.old i 0)) }
{
    let claim = &claims[folder];
    if !claim.item.kind().is_folder() {
        return Ok(());
    }
    let seats = places_of(alloc, places, claim.children.as_slice())?;
    raise_all(claims, listers, &seats, folder);
    Ok(())
}

/// The best of the folders that list each item, by their places.
fn best_listers(alloc: Global, claims: &[Claim], places: &Places) -> Result<Vec<usize>, AllocError>
    requires ids { places.now.keys ≡ ids claims.now }
    requires apart { Apart (ids claims.now) }
    ensures { IfOk result (λ found. found.items ≡ map (λ e. seat claims.now (best (filter (λ f. lists f e.item.id) claims.now))) claims.now) }
{
    let mut listers = vec![in alloc; claims.len(); claims.len()]?;
    for folder in 0..claims.len() {
        raise_by(alloc, claims, places, &mut listers, folder)?;
    }
    Ok(listers)
}

/// The place of a proposed parent: of a root the end; else the named folder that lists the item, else the best that
/// lists it, else the named one, else the fallback.
fn choose(
    root: bool,
    listed: bool,
    claimed: usize,
    lister: usize,
    fallback: usize,
    end: usize,
) -> usize
    ensures { result ≡ chosen_place root listed claimed lister fallback end }
{
    if root {
        end
    } else if listed {
        claimed
    } else if lister < end {
        lister
    } else if claimed < end {
        claimed
    } else {
        fallback
    }
}

/// The places of the proposed parents; the number of items for `places`.
pub(crate) fn next_of(
    alloc: Global,
    claims: &[Claim],
    places: &Places,
    fallback: usize,
) -> Result<Vec<usize>, AllocError>
    requires ids { places.now.keys ≡ ids claims.now }
    requires items { AreItems claims.now }
    requires fallback { fallback ≡ place unfiled (ids claims.now) }
    ensures { IfOk result (λ next. next.items ≡ next_of claims.now) }
{
    let claimed = named_places(alloc, claims, places)?;
    let listed = listed_by_named(alloc, claims, places, &claimed)?;
    let listers = best_listers(alloc, claims, places)?;
    let mut next = Vec::with_capacity(alloc, claims.len())?;
    for i in 0..claims.len() {
        let root = is_root(claims[i].item.id());
        let chosen = choose(
            root,
            listed[i],
            claimed[i],
            listers[i],
            fallback,
            claims.len(),
        );
        next.push(chosen)?;
    }
    Ok(next)
}
