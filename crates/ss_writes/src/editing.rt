//! The collections and batches of an account: what is dropped, put and copied.

ghost use Rattle.std.specs.Prelude.{◌≡◌, ◌<◌, ◌≤◌, ◌^◌, ◌+◌, IfOk, length, vec_len, vec_capacity};
ghost use Rattle.ss_bso.specs.Write.{times_with, times_without};

use crate::finding::is_named;
use ss_bso::{Part, Parts, Staged};
use ss_text::{Name, Stamp};
use std::alloc::{AllocError, Global};

/// Takes a collection's time out.
pub(crate) fn remove_time(collections: &mut Vec<(Name, Stamp)>, collection: &Name)
    ensures times { collections.new.items ≡ times_without collection.now collections.old.items }
    ensures len { vec_len collections.new ≤ vec_len collections.old }
    ensures capacity { vec_capacity collections.new ≡ vec_capacity collections.old }
{
    collections.retain(|entry| !is_named(entry, collection));
}

/// Gives a collection a time. There is room for it.
pub(crate) fn set_time(collections: &mut Vec<(Name, Stamp)>, collection: Name, time: Stamp)
    requires { vec_len collections.old + 1 ≤ vec_capacity collections.old }
    ensures { collections.new.items ≡ times_with collection time collections.old.items }
{
    remove_time(collections, &collection);
    collections.push_reserved((collection, time));
}

/// How many other collections there are.
pub fn count_others(times: &[(Name, Stamp)], collection: &Name) -> usize
    ensures count { result ≡ length (times_without collection.now times.now) }
    ensures small { result < 2 ^ 63 }
{
    times
        .iter()
        .filter(|entry| !is_named(entry, collection))
        .count()
}

/// A copy of parts.
pub fn copy_parts(alloc: Global, parts: &[Part]) -> Result<Vec<Part>, AllocError>
    ensures { IfOk result (λ copied. copied.items ≡ parts.now) }
{
    let mut copied = Vec::with_capacity(alloc, parts.len())?;
    for part in parts {
        copied.push(part.copy(alloc)?)?;
    }
    Ok(copied)
}

fn copy_batch(alloc: Global, staged: &Staged) -> Result<Staged, AllocError>
    ensures { IfOk result (λ copied. copied ≡ staged.now) }
{
    Ok(Staged {
        number: staged.number,
        collection: staged.collection.copy(alloc)?,
        begun: staged.begun,
        parts: Parts::new(copy_parts(alloc, staged.parts.as_slice())?),
    })
}

/// A copy of batches.
pub fn copy_batches(alloc: Global, batches: &[Staged]) -> Result<Vec<Staged>, AllocError>
    ensures { IfOk result (λ copied. copied.items ≡ batches.now) }
{
    let mut copied = Vec::with_capacity(alloc, batches.len())?;
    for staged in batches {
        copied.push(copy_batch(alloc, staged)?)?;
    }
    Ok(copied)
}
