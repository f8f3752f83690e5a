//! A keeper that is filled.

ghost use Rattle.std.specs.Prelude.{◌≡◌, true, false, map, Err, IfOk, IfSome, OnOk, OnErr};
ghost use Rattle.ss_outside.specs.Causes.{Rose};
ghost use Rattle.ss_bso.specs.declared.changes.RowChange.TheVariants.{Put};
ghost use Rattle.ss_bso.specs.declared.changes.CollectionChange.TheVariants.{Set};
ghost use Rattle.ss_bso.specs.declared.changes.BatchChange.TheVariants.{Begin};
ghost use Rattle.ss_account.specs.Opening.{IsGood};
ghost use Rattle.ss_dump.specs.Refilled.{filling, is_fresh};
ghost use Rattle.ss_dump.specs.declared.faults.RefillFault.TheVariants.{Keeper as KeeperFault, NotFresh};

use crate::faults::RefillFault;
use ss_bso::{
    BatchChange, BatchChanges, Changes, CollectionChange, CollectionChanges, Kept, Row, RowChange,
    RowChanges, Staged,
};
use ss_keeper::{KeepFault, Keeper};
use ss_text::{Name, Stamp};
use std::alloc::{AllocError, Global};

fn put_rows(alloc: Global, rows: &[Row]) -> Result<Vec<RowChange>, AllocError>
    ensures { IfOk result (λ changes. changes.items ≡ map (λ row. Put row) rows.now) }
{
    let mut changes = Vec::with_capacity(alloc, rows.len())?;
    for row in rows {
        changes.push(RowChange::Put(row.copy(alloc)?))?;
    }
    Ok(changes)
}

fn set_times(alloc: Global, times: &[(Name, Stamp)]) -> Result<Vec<CollectionChange>, AllocError>
    ensures { IfOk result (λ changes. changes.items ≡ map (λ entry. Set entry.0 entry.1) times.now) }
{
    let mut changes = Vec::with_capacity(alloc, times.len())?;
    for entry in times {
        changes.push(CollectionChange::Set {
            name: entry.0.copy(alloc)?,
            time: entry.1,
        })?;
    }
    Ok(changes)
}

fn begin_batches(alloc: Global, batches: &[Staged]) -> Result<Vec<BatchChange>, AllocError>
    ensures { IfOk result (λ changes. changes.items ≡ map (λ batch. Begin batch) batches.now) }
{
    let mut changes = Vec::with_capacity(alloc, batches.len())?;
    for batch in batches {
        changes.push(BatchChange::Begin(batch.copy(alloc)?))?;
    }
    Ok(changes)
}

/// The changes that make of nothing what is kept, at the moment 0.
fn filling(alloc: Global, kept: &Kept) -> Result<Changes, AllocError>
    ensures { IfOk result (λ changes. changes ≡ filling kept.now) }
{
    Ok(Changes {
        moment: Stamp::clamp(0),
        rows: RowChanges::new(put_rows(alloc, kept.rows.as_slice())?),
        collections: CollectionChanges::new(set_times(alloc, kept.collections.as_slice())?),
        store: kept.store,
        last_delete: kept.last_delete,
        counter: kept.counter,
        batches: BatchChanges::new(begin_batches(alloc, kept.batches.as_slice())?),
    })
}

/// Whether nothing is kept: no row, no collection, no batch, and no number but 0.
#[tactic(auto, unfolding(crate::specs::Refilled::is_fresh))]
fn is_fresh(kept: &Kept) -> bool
    ensures { result ≡ is_fresh kept.now }
{
    kept.rows.as_slice().is_empty()
        && kept.collections.as_slice().is_empty()
        && kept.batches.as_slice().is_empty()
        && kept.store.get() == 0
        && kept.last_delete.get() == 0
        && kept.counter == 0
}

/// Fills a keeper that holds nothing with what is kept of an account, all at once, so that it then holds exactly this. A
/// keeper that has a row, a collection, a batch or a number other than 0 is refused; a refusal leaves what it holds.
pub fn refill<K: Keeper>(alloc: Global, keeper: &mut K, kept: &Kept) -> Result<(), RefillFault>
    requires { IsGood kept.now }
    ensures filled { OnOk result (IfSome (K.told keeper.new) (λ held. held ≡ kept.now)) }
    ensures was_fresh { OnOk result (IfSome (K.told keeper.old) (λ held. is_fresh held ≡ true)) }
    ensures not_fresh { result ≡ Err NotFresh → IfSome (K.told keeper.old) (λ held. is_fresh held ≡ false) }
    ensures refused { OnErr result (K.told keeper.new ≡ K.told keeper.old) }
    ensures cause { result ≡ Err KeeperFault → Rose (K.keep_faults keeper.old) (K.keep_faults keeper.new) }
    ensures quiet { (result ≡ Err KeeperFault → ⊥) → K.keep_faults keeper.new ≡ K.keep_faults keeper.old }
{
    let held = match keeper.load(alloc) {
        Ok(held) => held,
        Err(KeepFault::Fault) => return Err(RefillFault::Keeper),
        Err(KeepFault::Memory) => return Err(RefillFault::Memory),
    };
    if !is_fresh(&held) {
        return Err(RefillFault::NotFresh);
    }
    let changes = filling(alloc, kept)?;
    match keeper.commit(alloc, &changes) {
        Ok(()) => Ok(()),
        Err(KeepFault::Fault) => Err(RefillFault::Keeper),
        Err(KeepFault::Memory) => Err(RefillFault::Memory),
    }
}
