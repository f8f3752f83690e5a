//! What writes make of an account.

ghost use Rattle.std.specs.Prelude.{◌≡◌, ◌≢◌, ◌≤◌, ◌<◌, ◌+◌, ℕ, None, Err, IfOk, OnOk, OnErr, IfSome};
ghost use Rattle.std.specs.Prelude.{IsSome, true, false, [], ◌++◌, is_none, length};
ghost use Rattle.ss_bso.specs.Limits.{most_rows_and_collections};
ghost use Rattle.ss_bso.specs.Lists.{Pairs};
ghost use Rattle.ss_bso.specs.Validity.{IsValid, SameAccount};
ghost use Rattle.ss_bso.specs.Write.{ids_of, rows_without, account_after_write, write};
ghost use Rattle.ss_batch.specs.Stage.{live_batch};
ghost use Rattle.ss_keeper.specs.Keeping.{HasCause};
ghost use Rattle.ss_query.specs.declared.replies.Body.TheVariants.{Posted};
ghost use Rattle.ss_query.specs.Fit.{IsFitRequest};
ghost use Rattle.ss_query.specs.Refused.{IsLive};
ghost use Rattle.ss_query.specs.Effect.{effect, is_over, is_write, stamp_in};
ghost use Rattle.ss_query.specs.Told.{body_of, first_failures};
ghost use Rattle.ss_query.specs.Api.{outcome};
ghost use Rattle.ss_account.specs.Keeping.{IsHeldBy, IsKeptBesideBy, IsSwept};
ghost use Rattle.ss_writes.specs.Pending.{IsReady, Settles, Tells, account_after_pending, changes_to};
ghost use Rattle.ss_writes.specs.Pending.{without_batch};
ghost use Rattle.ss_account.specs.Steps.{HasAsked, batch_cause, account_after_commit, late_refusal, one_part};
ghost use Rattle.ss_writes.specs.Parts.{OtherText};
ghost use Rattle.ss_account.specs.Kinds.{request_written};

use crate::kinds::WriteRequest;
use crate::ledger::Ledger;
use crate::state::State;
use crate::telling::{posted, told_of};
use ss_bso::{BatchChanges, Changes, CollectionChanges, Fields, Part, Records, Row, RowChanges};
use ss_keeper::{KeepFault, Keeper};
use ss_query::{Body, Reply, Said};
use ss_text::{Id, LAST, Name, Stamp};
use ss_writes::{Ended, Pending, Targets, count_others, made_rows, with_body, would_be_full};
use std::alloc::{AllocError, Global};

impl State {
    /// A write: it is refused at the clock's end and past the limits, or done with a stamp once the keeper has it.
    pub(crate) fn write<K: Keeper>(
        &mut self,
        alloc: Global,
        ledger: &mut Ledger<K>,
        request: WriteRequest<'_>,
    ) -> Result<Reply, KeepFault>
        requires write { is_write self.old (request_written request) ≡ true }
        requires batch { batch_cause self.old (request_written request) ≡ None }
        requires valid { IsValid self.old }
        requires swept { IsSwept self.old }
        requires told { IsKeptBesideBy ledger.old.ended (K.told ledger.old.keeper) self.old }
        requires fits { IsFitRequest (request_written request) }
        ensures reply { IfOk result (λ reply. reply ≡ (outcome self.old (request_written request.entry)
            (late_refusal self.old (request_written request.entry))).reply) }
        ensures account { OnOk result (SameAccount (outcome self.old (request_written request.entry)
            (late_refusal self.old (request_written request.entry))).account self.new) }
        ensures err { OnErr result (self.new ≡ self.old) }
        ensures cleared { is_none (late_refusal self.old (request_written request.entry)) ≡ true → OnOk result (ledger.new.ended ≡ []) }
        ensures refused { OnErr result (K.told ledger.new.keeper ≡ K.told ledger.old.keeper) }
        ensures left { OnErr result (ledger.new.ended ≡ ledger.old.ended) }
        ensures cause { HasCause (K.keep_faults ledger.old.keeper) (K.keep_faults ledger.new.keeper) result }
        ensures called { is_none (late_refusal self.old (request_written request.entry)) ≡ true
            → HasAsked (K.calls ledger.old.keeper) (K.calls ledger.new.keeper) result }
        ensures own { is_none (late_refusal self.old (request_written request.entry)) ≡ false → result ≢ Err KeepFault.Fault }
        ensures unasked { is_none (late_refusal self.old (request_written request.entry)) ≡ false → ledger.new ≡ ledger.old }
        ensures quiet { is_none (late_refusal self.old (request_written request.entry)) ≡ false → self.new ≡ self.old }
        ensures held { is_none (late_refusal self.old (request_written request.entry)) ≡ true
            → OnOk result (IsHeldBy (K.told ledger.new.keeper) self.new) }
    {
        if self.store.get() == LAST {
            return Ok(self.refuse(503, None, Body::Said(Said::Clock)));
        }
        let stamp = self.next_stamp();
        let Some((pending, body)) = self.prepare(alloc, request, stamp)? else {
            return Ok(self.refuse(403, None, Body::Code(14)));
        };
        self.keep(alloc, ledger, pending, stamp)?;
        Ok(Reply {
            status: 200,
            moment: stamp,
            modified: Some(stamp),
            count: None,
            next: None,
            body,
        })
    }

    /// The stamp of a write: the moment, or just after the time of the last write. The clock hasn't ended.
    fn next_stamp(&self) -> Stamp
        requires { self.now.store < 999999999999 }
        ensures { result ≡ stamp_in self.now }
    {
        self.moment.max(Stamp::clamp(self.store.get() + 1))
    }

    /// What a write comes to at a stamp, and what is told of it; None where the account would pass its limits.
    fn prepare(
        &self,
        alloc: Global,
        request: WriteRequest<'_>,
        stamp: Stamp,
    ) -> Result<Option<(Pending, Body)>, AllocError>
        requires stamp { stamp ≡ stamp_in self.now }
        requires write { is_write self.now (request_written request) ≡ true }
        requires batch { batch_cause self.now (request_written request) ≡ None }
        requires valid { IsValid self.now }
        requires fits { IsFitRequest (request_written request) }
        ensures { IfOk result (λ found. Tells self.now stamp (effect self.now (request_written request.entry))
            (body_of self.now (request_written request.entry) (stamp_in self.now)) found) }
    {
        match request {
            WriteRequest::DeleteAll => Ok(Some((Pending::DropAll, Body::Gone(stamp)))),
            WriteRequest::DeleteCollection { collection } => {
                let collection = collection.copy(alloc)?;
                Ok(Some((Pending::DropCollection { collection }, Body::Gone(stamp))))
            }
            WriteRequest::DeleteIds { collection, ids } => {
                let found = self.delete(alloc, collection, ids.as_slice(), stamp)?;
                Ok(with_body(found, Body::Gone(stamp)))
            }
            WriteRequest::Delete { collection, id } => {
                let ids = vec![in alloc; id.copy(alloc)?]?;
                let found = self.delete(alloc, collection, ids.as_slice(), stamp)?;
                Ok(with_body(found, Body::Gone(stamp)))
            }
            WriteRequest::Put {
                collection,
                id,
                fields,
            } => {
                let found = self.put(alloc, collection, id, fields, stamp)?;
                Ok(with_body(found, Body::At(stamp)))
            }
            WriteRequest::Post {
                collection,
                records,
            } => self.post(alloc, collection, records, stamp),
            WriteRequest::Commit {
                collection,
                records,
                batch,
            } => self.commit(alloc, collection, records, batch, stamp),
        }
    }

    fn delete(
        &self,
        alloc: Global,
        collection: &Name,
        ids: &[Id],
        stamp: Stamp,
    ) -> Result<Option<Pending>, AllocError>
        requires valid { IsValid self.now }
        requires few { length ids.now ≤ most_rows_and_collections }
        ensures { IfOk result (λ found. Settles self.now stamp (account_after_write self.now collection.now stamp
            (rows_without collection.now ids.now self.now.rows)) found) }
    {
        let targets = Targets::of_ids(alloc, ids)?;
        if self.would_be_over(collection, &targets, &[]) {
            return Ok(None);
        }
        let collection = collection.copy(alloc)?;
        Ok(Some(Pending::Cut {
            collection,
            targets,
        }))
    }

    fn put(
        &self,
        alloc: Global,
        collection: &Name,
        id: &Id,
        fields: &Fields,
        stamp: Stamp,
    ) -> Result<Option<Pending>, AllocError>
        requires { IsValid self.now }
        ensures { IfOk result (λ found. Settles self.now stamp (write self.now collection.now
            (one_part id.now fields.now) stamp) found) }
    {
        let part = Part {
            id: id.copy(alloc)?,
            fields: fields.copy(alloc)?,
        };
        let parts = vec![in alloc; part]?;
        self.put_parts(alloc, collection, &[], parts.as_slice(), None, stamp)
    }

    fn post(
        &self,
        alloc: Global,
        collection: &Name,
        records: &Records,
        stamp: Stamp,
    ) -> Result<Option<(Pending, Body)>, AllocError>
        requires { IsValid self.now }
        ensures { IfOk result (λ found. Tells self.now stamp (write self.now collection.now records.now.parts stamp)
            (Posted stamp (ids_of records.now.parts) (first_failures records.now.failed)) found) }
    {
        let told = told_of(alloc, records)?;
        let parts = records.parts.as_slice();
        let found = self.put_parts(alloc, collection, &[], parts, None, stamp)?;
        Ok(with_body(found, posted(stamp, told)))
    }

    /// Puts the parts of a live batch and then those of the request, and ends the batch.
    fn commit(
        &self,
        alloc: Global,
        collection: &Name,
        records: &Records,
        batch: u64,
        stamp: Stamp,
    ) -> Result<Option<(Pending, Body)>, AllocError>
        requires live { IsLive self.now collection.now batch }
        requires valid { IsValid self.now }
        ensures { IfOk result (λ found. Tells self.now stamp (account_after_commit self.now collection.now records.now.parts batch
            stamp) (Posted stamp (ids_of records.now.parts) (first_failures records.now.failed)) found) }
    {
        let told = told_of(alloc, records)?;
        let staged = self.staged_parts(batch, collection);
        let parts = records.parts.as_slice();
        let found = self.put_parts(alloc, collection, staged, parts, Some(batch), stamp)?;
        Ok(with_body(found, posted(stamp, told)))
    }

    /// The write of parts and then further parts, which ends a batch if one is named.
    fn put_parts(
        &self,
        alloc: Global,
        collection: &Name,
        first: &[Part],
        more: &[Part],
        batch: Option<u64>,
        stamp: Stamp,
    ) -> Result<Option<Pending>, AllocError>
        requires live { IfSome batch (λ number. IsSome (live_batch number self.now.batches)) }
        requires valid { IsValid self.now }
        ensures { IfOk result (λ found. Settles self.now stamp (without_batch batch
            (write self.now collection.now (first.now ++ more.now) stamp)) found) }
    {
        let targets = Targets::of_parts(alloc, first, more)?;
        let rows = made_rows(alloc, &self.shelf, collection, first, more, stamp)?;
        if self.would_be_over(collection, &targets, rows.as_slice()) {
            return Ok(None);
        }
        let collection = collection.copy(alloc)?;
        Ok(Some(Pending::Put {
            collection,
            targets,
            rows,
            batch,
        }))
    }

    /// Whether the account passes its limits once rows take the place of those that are named.
    fn would_be_over(&self, collection: &Name, targets: &Targets, made: &[Row]) -> bool
        requires valid { IsValid self.now }
        requires apart { Pairs OtherText targets.now }
        ensures { (time : ℕ) → result ≡ is_over (account_after_write self.now collection.now time
            (rows_without collection.now targets.now self.now.rows ++ made.now)) }
    {
        let collections = count_others(self.collections.as_slice(), collection) + 1;
        would_be_full(&self.shelf, collection, targets, made, collections)
    }

    /// What a keeper is told of a write.
    fn changes(
        &self,
        alloc: Global,
        ended: &Ended,
        pending: &Pending,
        stamp: Stamp,
    ) -> Result<Changes, AllocError>
        ensures { IfOk result (λ changes. changes ≡ changes_to self.now ended.now stamp pending.now) }
    {
        let rows = pending.row_changes(alloc)?;
        let times = self.collections.as_slice();
        let collections = pending.collection_changes(alloc, times, stamp)?;
        let batches = pending.batch_changes(alloc, ended, self.stage.batches())?;
        let moment = self.moment;
        Ok(Changes {
            moment,
            rows: RowChanges::new(rows),
            collections: CollectionChanges::new(collections),
            store: stamp,
            last_delete: pending.last_delete(self.last_delete, stamp),
            counter: self.stage.counter(),
            batches: BatchChanges::new(batches),
        })
    }

    /// Does a write once the keeper has it. All memory is taken before the keeper is asked.
    fn keep<K: Keeper>(
        &mut self,
        alloc: Global,
        ledger: &mut Ledger<K>,
        pending: Pending,
        stamp: Stamp,
    ) -> Result<(), KeepFault>
        requires valid { IsValid self.old }
        requires swept { IsSwept self.old }
        requires told { IsKeptBesideBy ledger.old.ended (K.told ledger.old.keeper) self.old }
        requires ready { IsReady self.old stamp pending }
        requires stamp { self.old.store < stamp }
        ensures ok { OnOk result (SameAccount (account_after_pending self.old stamp pending) self.new) }
        ensures err { OnErr result (self.new ≡ self.old) }
        ensures held { OnOk result (IsHeldBy (K.told ledger.new.keeper) self.new) }
        ensures cleared { OnOk result (ledger.new.ended ≡ []) }
        ensures refused { OnErr result (K.told ledger.new.keeper ≡ K.told ledger.old.keeper) }
        ensures left { OnErr result (ledger.new.ended ≡ ledger.old.ended) }
        ensures cause { HasCause (K.keep_faults ledger.old.keeper) (K.keep_faults ledger.new.keeper) result }
        ensures called { HasAsked (K.calls ledger.old.keeper) (K.calls ledger.new.keeper) result }
    {
        let changes = self.changes(alloc, &ledger.ended, &pending, stamp)?;
        self.collections.reserve(1)?;
        let ready = self.shelf.prepare(alloc, &changes)?;
        match ledger.commit(alloc, &changes) {
            Ok(()) => {
                self.shelf.apply(ready);
                pending.apply(&mut self.collections, &mut self.stage, stamp);
                self.store = stamp;
                self.last_delete = changes.last_delete;
                self.moment = stamp;
                Ok(())
            }
            Err(fault) => {
                self.shelf.cancel(ready);
                Err(fault)
            }
        }
    }
}
