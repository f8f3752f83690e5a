//! Parents, by their places.

ghost use Rattle.std.specs.Prelude.{◌≡◌, IfOk, if◌then◌else◌};
ghost use Rattle.ss_record.specs.Ids.{unfiled};
ghost use Rattle.ss_build.specs.Built.{ids};
ghost use Rattle.ss_build.specs.Places.{AreItems, parents_of, place};

use crate::circles::find_circles;
use crate::claims::Claim;
use crate::places::Places;
use crate::proposals::next_of;
use std::alloc::{AllocError, Global};

/// The place of a parent: on a circle the fallback, else the proposed one.
fn parent_at(circle: bool, fallback: usize, proposed: usize) -> usize
    ensures { result ≡ (if circle then fallback else proposed) }
{
    if circle { fallback } else { proposed }
}

/// The places of the parents: of an item that comes back to itself along proposed parents that of `unfiled`, of each
/// other one that of its proposed parent; the number of items for `places`.
pub(crate) fn parents_of(
    alloc: Global,
    claims: &[Claim],
    places: &Places,
    fallback: usize,
) -> Result<Vec<usize>, AllocError>
    requires ids { places.now.keys ≡ ids claims.now }
    requires items { AreItems claims.now }
    requires fallback { fallback ≡ place unfiled (ids claims.now) }
    ensures { IfOk result (λ parents. parents.items ≡ parents_of claims.now) }
{
    let next = next_of(alloc, claims, places, fallback)?;
    let circles = find_circles(alloc, &next)?;
    let mut parents = Vec::with_capacity(alloc, next.len())?;
    for i in 0..next.len() {
        let parent = parent_at(circles[i], fallback, next[i]);
        parents.push(parent)?;
    }
    Ok(parents)
}
