//! Which items stand elsewhere than their records say.

ghost use Rattle.std.specs.Prelude.{◌≡◌, ◌≤◌, ◌<◌, ◌&&◌, nat_lt, not, bytes_eq, IfOk, filter, length, map, take};
ghost use Rattle.ss_record.specs.Ids.{by_id};
ghost use Rattle.ss_build.specs.Built.{is_kept, keeps_parent};
ghost use Rattle.ss_build.specs.Places.{AreItems, as_told, at, parents_of};

use crate::claims::Claim;
use crate::orders::by_id;
use crate::siblings::push_unless;
use ss_record::is_root;
use ss_text::{Ids, Word};
use std::alloc::{AllocError, Global};

/// Whether there is an item at a place, and it has this id.
fn has_id(claims: &[Claim], place: usize, id: &Word) -> bool
    ensures { result ≡ (nat_lt place (length claims.now) && bytes_eq (at claims.now place).item.id id.now) }
{
    if place < claims.len() {
        claims[place].item.id().as_str() == id.as_str()
    } else {
        false
    }
}

/// Whether an item's record names its parent, or it is a root.
fn keeps_parent(claims: &[Claim], parents: &[usize], i: usize) -> bool
    requires items { AreItems claims.now }
    requires parents { parents.now ≡ parents_of claims.now }
    requires inside { i < length claims.now }
    ensures { result ≡ keeps_parent claims.now (at claims.now i) }
{
    let claim = &claims[i];
    if is_root(claim.item.id()) {
        return true;
    }
    match &claim.parentid {
        Some(parentid) => has_id(claims, parents[i], parentid),
        None => false,
    }
}

/// Whether an item has the parent and the children that its record names.
#[tactic(auto, unfolding(crate::specs::Built::is_kept))]
fn is_kept(claims: &[Claim], parents: &[usize], told: &[bool], i: usize) -> bool
    requires items { AreItems claims.now }
    requires parents { parents.now ≡ parents_of claims.now }
    requires told { told.now ≡ map (as_told claims.now) claims.now }
    requires inside { i < length claims.now }
    ensures { result ≡ is_kept claims.now (at claims.now i) }
{
    if keeps_parent(claims, parents, i) {
        told[i]
    } else {
        false
    }
}

/// Those of the first items whose parent or children are other ones than those that their records name, by id.
pub(crate) fn repaired(
    alloc: Global,
    claims: &[Claim],
    parents: &[usize],
    told: &[bool],
    count: usize,
) -> Result<Ids, AllocError>
    requires items { AreItems claims.now }
    requires parents { parents.now ≡ parents_of claims.now }
    requires told { told.now ≡ map (as_told claims.now) claims.now }
    requires inside { count ≤ length claims.now }
    ensures { IfOk result (λ ids. ids ≡ by_id (map (λ e. e.item.id) (filter (λ e. not (is_kept claims.now e)) (take count claims.now)))) }
{
    let mut ids = Vec::new(alloc);
    for i in 0..count {
        let kept = is_kept(claims, parents, told, i);
        push_unless(alloc, &mut ids, claims[i].item.id(), kept)?;
    }
    by_id(ids)
}
