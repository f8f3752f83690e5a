//! All ids of a merge.

ghost use Rattle.std.specs.Prelude.{◌≡◌, ◌||◌, ◌++◌, ◌∷◌, [], List, IfOk, OnOk, if◌then◌else◌, bytes_eq};
ghost use Rattle.std.specs.HashSet.{contains_by};
ghost use Rattle.ss_record.specs.Ids.{Apart, by_id, has};
ghost use Rattle.ss_dupe.specs.Looks.{Id as Text, is_in};
ghost use Rattle.ss_dupe.specs.Plains.{AreIds, view};
ghost use Rattle.ss_merge.specs.Links.{GathersIds};

use ss_dupe::Plains;
use ss_seed::Seed;
use ss_text::Id;
use std::alloc::{AllocError, Global};
use std::collections::HashSet;

/// Appends an id that hasn't been seen.
fn add_id(
    alloc: Global,
    id: &Id,
    seen: &mut HashSet<Id, Seed>,
    ids: &mut Vec<Id>,
) -> Result<(), AllocError>
    ensures ids { OnOk result (ids.new.items ≡ (if contains_by (bytes_eq id.now) seen.old then ids.old.items else
        ids.old.items ++ id.now ∷ [])) }
    ensures seen { OnOk result ((x : Text) → contains_by (bytes_eq x) seen.new
        ≡ (bytes_eq id.now x || contains_by (bytes_eq x) seen.old)) }
{
    if seen.contains(id) {
        return Ok(());
    }
    seen.insert(id.copy(alloc)?)?;
    ids.push(id.copy(alloc)?)?;
    Ok(())
}

/// Appends those ids that haven't been seen.
fn add_ids(
    alloc: Global,
    from: &[Id],
    seen: &mut HashSet<Id, Seed>,
    ids: &mut Vec<Id>,
) -> Result<(), AllocError>
    requires { GathersIds (λ x. contains_by (bytes_eq x) seen.old) ids.old.items }
    ensures gathered { OnOk result (GathersIds (λ x. contains_by (bytes_eq x) seen.new) ids.new.items) }
    ensures all { OnOk result ((x : Text) → has x ids.new.items ≡ (has x ids.old.items || has x from.now)) }
{
    for id in from {
        add_id(alloc, id, seen, ids)?;
    }
    Ok(())
}

/// All ids of the local and of the remote tree, by id.
pub(crate) fn all_ids(alloc: Global, plains: &Plains) -> Result<Vec<Id>, AllocError>
    requires local { AreIds plains.now.local }
    requires remote { AreIds plains.now.remote }
    ensures { IfOk result (λ ids. (all : List Text) → Apart all → ((x : Text)
        → has x all ≡ (is_in (view plains.now).local x || is_in (view plains.now).remote x)) → ids.items ≡ by_id all) }
{
    let mut seen = HashSet::with_hasher(alloc, plains.seed());
    let mut ids = Vec::new(alloc);
    add_ids(alloc, &plains.local.ids, &mut seen, &mut ids)?;
    add_ids(alloc, &plains.remote.ids, &mut seen, &mut ids)?;
    ids.sort()?;
    Ok(ids)
}
