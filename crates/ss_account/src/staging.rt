//! What changes of batches make of an account.

ghost use Rattle.std.specs.Prelude.{◌≡◌, ◌≤◌, ◌<◌, ◌+◌, ◌-◌, None, Some, IfOk, OnOk, OnErr, IsSome, IsSomeAnd};
ghost use Rattle.std.specs.Prelude.{false, [], length};
ghost use Rattle.ss_bso.specs.declared.changes.BatchChange.TheVariants.{End as EndChange};
ghost use Rattle.ss_bso.specs.Batches.{batches_without};
ghost use Rattle.ss_bso.specs.Validity.{IsValid};
ghost use Rattle.ss_bso.specs.Write.{ids_of};
ghost use Rattle.ss_batch.specs.Stage.{append_fault, stage_after_append, begin_fault, stage_after_begin, live_batch};
ghost use Rattle.ss_batch.specs.Stage.{stage_after_cut};
ghost use Rattle.ss_keeper.specs.Keeping.{HasCause};
ghost use Rattle.ss_query.specs.declared.replies.Body.TheVariants.{Posted};
ghost use Rattle.ss_query.specs.Fit.{IsFitRequest};
ghost use Rattle.ss_query.specs.Refused.{target_time};
ghost use Rattle.ss_query.specs.Effect.{is_write};
ghost use Rattle.ss_query.specs.Told.{first_failures};
ghost use Rattle.ss_query.specs.Api.{done_outcome};
ghost use Rattle.ss_account.specs.Keeping.{IsHeldBy, IsKeptBesideBy, IsSwept};
ghost use Rattle.ss_writes.specs.Pending.{append_changes, batch_changes, begin_changes};
ghost use Rattle.ss_account.specs.Steps.{HasAsked, batch_cause, plain_reply, stage_of, staged_reply, with_stage};
ghost use Rattle.ss_account.specs.Kinds.{request_staged};

use crate::kinds::StageRequest;
use crate::ledger::Ledger;
use crate::state::State;
use crate::telling::{posted, staged, told_of};
use ss_batch::StageFault;
use ss_bso::{
    BatchChange, BatchChanges, Changes, CollectionChanges, Part, Parts, Records, RowChanges, Staged,
};
use ss_keeper::{KeepFault, Keeper};
use ss_query::Reply;
use ss_text::{Name, Stamp};
use ss_writes::{Ended, copy_parts};
use std::alloc::{AllocError, Global};

impl State {
    /// A begin, an append, or a commit that puts nothing.
    pub(crate) fn stage_parts<K: Keeper>(
        &mut self,
        alloc: Global,
        ledger: &mut Ledger<K>,
        request: StageRequest<'_>,
        time: Stamp,
    ) -> Result<Reply, KeepFault>
        requires time { time ≡ target_time self.old (request_staged request) }
        requires quiet { is_write self.old (request_staged request) ≡ false }
        requires batch { batch_cause self.old (request_staged request) ≡ None }
        requires valid { IsValid self.old }
        requires swept { IsSwept self.old }
        requires told { IsKeptBesideBy ledger.old.ended (K.told ledger.old.keeper) self.old }
        requires fits { IsFitRequest (request_staged request) }
        ensures reply { IfOk result (λ reply. reply ≡ (done_outcome self.old (request_staged request.entry)).reply) }
        ensures account { OnOk result (self.new ≡ (done_outcome self.old (request_staged request.entry)).account) }
        ensures err { OnErr result (self.new ≡ self.old) }
        ensures cleared { OnOk result (ledger.new.ended ≡ []) }
        ensures refused { OnErr result (K.told ledger.new.keeper ≡ K.told ledger.old.keeper) }
        ensures left { OnErr result (ledger.new.ended ≡ ledger.old.ended) }
        ensures cause { HasCause (K.keep_faults ledger.old.keeper) (K.keep_faults ledger.new.keeper) result }
        ensures called { HasAsked (K.calls ledger.old.keeper) (K.calls ledger.new.keeper) result }
        ensures held { OnOk result (IsHeldBy (K.told ledger.new.keeper) self.new) }
    {
        match request {
            StageRequest::Begin {
                collection,
                records,
            } => self.begin(alloc, ledger, collection, records, time),
            StageRequest::Append {
                collection,
                records,
                batch,
            } => self.append(alloc, ledger, collection, records, batch, time),
            StageRequest::End { records, batch, .. } => {
                self.end(alloc, ledger, records, batch, time)
            }
        }
    }

    /// What a keeper is told of a begin, an append or the end of a batch.
    fn batch_changes(
        &self,
        alloc: Global,
        ended: &Ended,
        counter: u64,
        change: BatchChange,
    ) -> Result<Changes, AllocError>
        ensures { IfOk result (λ changes. changes ≡ batch_changes self.now ended.now counter change) }
    {
        let mut batches = ended.ends(alloc)?;
        batches.push(change)?;
        Ok(Changes {
            moment: self.moment,
            rows: RowChanges::new(Vec::new(alloc)),
            collections: CollectionChanges::new(Vec::new(alloc)),
            store: self.store,
            last_delete: self.last_delete,
            counter,
            batches: BatchChanges::new(batches),
        })
    }

    /// What a keeper is told of a begin.
    fn begin_changes(
        &self,
        alloc: Global,
        ended: &Ended,
        collection: &Name,
        parts: &[Part],
    ) -> Result<Changes, AllocError>
        requires { self.now.counter < 999999999999 }
        ensures { IfOk result (λ changes. changes ≡ begin_changes self.now ended.now collection.now parts.now) }
    {
        let number = self.stage.counter() + 1;
        let new = Staged {
            number,
            collection: collection.copy(alloc)?,
            begun: self.moment,
            parts: Parts::new(copy_parts(alloc, parts)?),
        };
        self.batch_changes(alloc, ended, number, BatchChange::Begin(new))
    }

    /// What a keeper is told of an append.
    fn append_changes(
        &self,
        alloc: Global,
        ended: &Ended,
        number: u64,
        parts: &[Part],
    ) -> Result<Changes, AllocError>
        ensures { IfOk result (λ changes. changes ≡ append_changes self.now ended.now number parts.now) }
    {
        let parts = Parts::new(copy_parts(alloc, parts)?);
        let counter = self.stage.counter();
        self.batch_changes(alloc, ended, counter, BatchChange::Append { number, parts })
    }

    /// What a keeper is told of the end of a batch.
    fn end_changes(&self, alloc: Global, ended: &Ended, number: u64) -> Result<Changes, AllocError>
        ensures { IfOk result (λ changes. changes ≡ batch_changes self.now ended.now self.now.counter
            (EndChange number)) }
    {
        let counter = self.stage.counter();
        self.batch_changes(alloc, ended, counter, BatchChange::End { number })
    }

    /// Begins a batch, for which there is room, and takes it back where the keeper fails.
    fn begin<K: Keeper>(
        &mut self,
        alloc: Global,
        ledger: &mut Ledger<K>,
        collection: &Name,
        records: &Records,
        time: Stamp,
    ) -> Result<Reply, KeepFault>
        requires room { begin_fault (stage_of self.old) records.now.parts ≡ None }
        requires valid { IsValid self.old }
        requires swept { IsSwept self.old }
        requires told { IsKeptBesideBy ledger.old.ended (K.told ledger.old.keeper) self.old }
        ensures reply { IfOk result (λ reply. reply ≡ staged_reply self.old.moment time (self.old.counter + 1)
            records.now) }
        ensures account { OnOk result (self.new ≡ with_stage self.old (stage_after_begin (stage_of self.old) self.old.moment
            collection.now records.now.parts)) }
        ensures err { OnErr result (self.new ≡ self.old) }
        ensures held { OnOk result (IsHeldBy (K.told ledger.new.keeper) self.new) }
        ensures cleared { OnOk result (ledger.new.ended ≡ []) }
        ensures refused { OnErr result (K.told ledger.new.keeper ≡ K.told ledger.old.keeper) }
        ensures left { OnErr result (ledger.new.ended ≡ ledger.old.ended) }
        ensures cause { HasCause (K.keep_faults ledger.old.keeper) (K.keep_faults ledger.new.keeper) result }
        ensures called { HasAsked (K.calls ledger.old.keeper) (K.calls ledger.new.keeper) result }
    {
        let told = told_of(alloc, records)?;
        let parts = copy_parts(alloc, records.parts.as_slice())?;
        let changes = self.begin_changes(alloc, &ledger.ended, collection, parts.as_slice())?;
        let batch = self.open_batch(alloc, collection, parts)?;
        match ledger.commit(alloc, &changes) {
            Ok(()) => Ok(self.told_reply(202, time, staged(batch, told))),
            Err(fault) => {
                self.unbegin();
                Err(fault)
            }
        }
    }

    /// Begins a batch, for which there is room, and gives its number.
    fn open_batch(
        &mut self,
        alloc: Global,
        collection: &Name,
        parts: Vec<Part>,
    ) -> Result<u64, AllocError>
        requires { begin_fault (stage_of self.old) parts.items ≡ None }
        ensures number { IfOk result (λ number. number ≡ self.old.counter + 1) }
        ensures ok { OnOk result (self.new ≡ with_stage self.old (stage_after_begin (stage_of self.old) self.old.moment
            collection.now parts.items)) }
        ensures err { OnErr result (self.new ≡ self.old) }
    {
        match self.stage.begin(alloc, self.moment, collection, parts) {
            Ok(batch) => Ok(batch),
            Err(StageFault::Memory) => Err(AllocError),
            Err(_) => unreachable!(),
        }
    }

    /// Takes back the last begin.
    fn unbegin(&mut self)
        requires { IsSome (live_batch self.old.counter self.old.batches) }
        ensures { self.new ≡ with_stage self.old (record {
          counter = self.old.counter - 1;
          batches = batches_without
              self.old.counter self.old.batches;
        }) }
    {
        self.stage.unbegin();
    }

    /// Moves a copy of the parts to the end of a live batch, into which they fit, and takes them back where the keeper
    /// fails.
    fn append<K: Keeper>(
        &mut self,
        alloc: Global,
        ledger: &mut Ledger<K>,
        collection: &Name,
        records: &Records,
        batch: u64,
        time: Stamp,
    ) -> Result<Reply, KeepFault>
        requires room { append_fault (stage_of self.old) batch collection.now records.now.parts ≡ None }
        requires valid { IsValid self.old }
        requires swept { IsSwept self.old }
        requires told { IsKeptBesideBy ledger.old.ended (K.told ledger.old.keeper) self.old }
        ensures reply { IfOk result (λ reply. reply ≡ staged_reply self.old.moment time batch records.now) }
        ensures account { OnOk result (self.new ≡ with_stage self.old (stage_after_append (stage_of self.old) batch
            records.now.parts)) }
        ensures err { OnErr result (self.new ≡ self.old) }
        ensures held { OnOk result (IsHeldBy (K.told ledger.new.keeper) self.new) }
        ensures cleared { OnOk result (ledger.new.ended ≡ []) }
        ensures refused { OnErr result (K.told ledger.new.keeper ≡ K.told ledger.old.keeper) }
        ensures left { OnErr result (ledger.new.ended ≡ ledger.old.ended) }
        ensures cause { HasCause (K.keep_faults ledger.old.keeper) (K.keep_faults ledger.new.keeper) result }
        ensures called { HasAsked (K.calls ledger.old.keeper) (K.calls ledger.new.keeper) result }
    {
        let told = told_of(alloc, records)?;
        let parts = records.parts.as_slice();
        let changes = self.append_changes(alloc, &ledger.ended, batch, parts)?;
        let copied = copy_parts(alloc, parts)?;
        self.add_parts(batch, collection, copied)?;
        match ledger.commit(alloc, &changes) {
            Ok(()) => Ok(self.told_reply(202, time, staged(batch, told))),
            Err(fault) => {
                self.shorten(batch, parts);
                Err(fault)
            }
        }
    }

    /// Moves parts to the end of a live batch, into which they fit.
    fn add_parts(
        &mut self,
        batch: u64,
        collection: &Name,
        parts: Vec<Part>,
    ) -> Result<(), AllocError>
        requires { append_fault (stage_of self.old) batch collection.now parts.items ≡ None }
        ensures ok { OnOk result (self.new ≡ with_stage self.old (stage_after_append (stage_of self.old) batch parts.items)) }
        ensures err { OnErr result (self.new ≡ self.old) }
    {
        match self.stage.append(batch, collection, parts) {
            Ok(()) => Ok(()),
            Err(StageFault::Memory) => Err(AllocError),
            Err(_) => unreachable!(),
        }
    }

    /// Takes back the last append, of so many parts.
    fn shorten(&mut self, batch: u64, parts: &[Part])
        requires { IsSomeAnd (live_batch batch self.old.batches) (λ staged. length parts.now ≤ length staged.parts) }
        ensures { self.new ≡ with_stage self.old (stage_after_cut (stage_of self.old) batch (length parts.now)) }
    {
        self.stage.shorten(batch, parts.len());
    }

    /// Ends a live batch without parts, once the keeper has it.
    fn end<K: Keeper>(
        &mut self,
        alloc: Global,
        ledger: &mut Ledger<K>,
        records: &Records,
        batch: u64,
        time: Stamp,
    ) -> Result<Reply, KeepFault>
        requires live { IsSome (live_batch batch self.old.batches) }
        requires valid { IsValid self.old }
        requires swept { IsSwept self.old }
        requires told { IsKeptBesideBy ledger.old.ended (K.told ledger.old.keeper) self.old }
        ensures reply { IfOk result (λ reply. reply ≡ plain_reply self.old.moment 200 (Some time)
            (Posted time (ids_of records.now.parts) (first_failures records.now.failed))) }
        ensures account { OnOk result (self.new ≡ record self.old {
          batches = batches_without batch
              self.old.batches;
        }) }
        ensures err { OnErr result (self.new ≡ self.old) }
        ensures held { OnOk result (IsHeldBy (K.told ledger.new.keeper) self.new) }
        ensures cleared { OnOk result (ledger.new.ended ≡ []) }
        ensures refused { OnErr result (K.told ledger.new.keeper ≡ K.told ledger.old.keeper) }
        ensures left { OnErr result (ledger.new.ended ≡ ledger.old.ended) }
        ensures cause { HasCause (K.keep_faults ledger.old.keeper) (K.keep_faults ledger.new.keeper) result }
        ensures called { HasAsked (K.calls ledger.old.keeper) (K.calls ledger.new.keeper) result }
    {
        let told = told_of(alloc, records)?;
        let ending = self.end_changes(alloc, &ledger.ended, batch)?;
        ledger.commit(alloc, &ending)?;
        self.finish(batch);
        Ok(self.told_reply(200, time, posted(time, told)))
    }

    /// Takes a live batch out.
    fn finish(&mut self, batch: u64)
        requires { IsSome (live_batch batch self.old.batches) }
        ensures { self.new ≡ record self.old { batches = batches_without batch self.old.batches } }
    {
        drop(self.stage.take(batch));
    }
}
