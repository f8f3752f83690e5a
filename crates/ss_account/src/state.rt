//! An account over a shelf and a stage, and how it answers a request.

ghost use Rattle.std.specs.Prelude.{◌≡◌, ◌≢◌, ◌≤◌, ◌+◌, None, Some, Err, IfOk, OnOk, OnErr, IfErr, IfSome};
ghost use Rattle.std.specs.Prelude.{true, false, [], ◌++◌, is_none, not, option_map, filter, length, if◌then◌else◌};
ghost use Rattle.ss_bso.specs.Account.{is_open, tick, row_at};
ghost use Rattle.ss_bso.specs.Changes.{kept_of, plain_of};
ghost use Rattle.ss_bso.specs.Limits.{most_live_batches};
ghost use Rattle.ss_bso.specs.Validity.{IsValid, SameAccount};
ghost use Rattle.ss_batch.specs.Stage.{append_fault};
ghost use Rattle.ss_keeper.specs.Calls.{with_load};
ghost use Rattle.ss_keeper.specs.Keeping.{HasCause};
ghost use Rattle.ss_query.specs.declared.replies.Body.TheVariants.{Said as Word};
ghost use Rattle.ss_query.specs.declared.replies.Said.TheVariants.{Keeper as KeeperWord, Memory};
ghost use Rattle.ss_query.specs.Fit.{IsFitRequest};
ghost use Rattle.ss_query.specs.Refused.{condition_of, is_there, is_listed, target_time, collection_time, said_by};
ghost use Rattle.ss_query.specs.Refused.{staged_parts};
ghost use Rattle.ss_text.specs.Time.{stops};
ghost use Rattle.ss_query.specs.Api.{refusal, outcome, misses_item};
ghost use Rattle.ss_account.specs.Keeping.{IsHeldBy, IsKeptBesideBy, IsOpenedAccount, IsSwept, is_for_keeper};
ghost use Rattle.ss_account.specs.Opening.{IsFaultOf, IsGood};
ghost use Rattle.ss_account.specs.declared.faults.OpenFault.TheVariants.{Keeper as OpenKeeper};
ghost use Rattle.ss_outside.specs.Causes.{Rose};
ghost use Rattle.ss_writes.specs.Pending.{numbers_of};
ghost use Rattle.ss_account.specs.Steps.{HasAsked, batch_cause, fault_body, late_refusal, plain_reply, stage_of};

use crate::faults::OpenFault;
use crate::infos::copies;
use crate::kinds::Kind;
use crate::ledger::Ledger;
use crate::opening::{latest, load};
use crate::telling::{condition_of, fault_body, stop_body};
use ss_batch::Stage;
use ss_bso::{Batches, Kept, Part, Plain, Rows, Times};
use ss_index::Shelf;
use ss_keeper::{KeepFault, Keeper};
use ss_query::{Body, Mode, Reply, Request, Said};
use ss_text::{Cond, Id, Name, Stamp};
use ss_writes::{Ended, copy_batches, find_time};
use std::alloc::{AllocError, Global};
use std::marker::Model;

/// One account's rows, collections, times and batches.
#[derive(Drop)]
pub(crate) struct State {
    pub(crate) shelf: Shelf,
    pub(crate) collections: Vec<(Name, Stamp)>,
    pub(crate) store: Stamp,
    pub(crate) last_delete: Stamp,
    pub(crate) moment: Stamp,
    pub(crate) stage: Stage,
}

impl Model for State {
    ghost use Rattle.ss_bso.specs.declared.account.Plain.{Plain};

    ghost Value = { Plain };

    ghost use Rattle.ss_index.specs.Shelved.{rows_in};

    ghost view = { λ a. record {
      rows = rows_in a.shelf;
      collections = a.collections.items;
      store = a.store;
      last_delete = a.last_delete;
      moment = a.moment;
      counter = a.stage.counter;
      batches = a.stage.batches;
    } };
}

/// The account that a keeper holds, and those of its batches that have ended.
pub(crate) fn prepare<K: Keeper>(alloc: Global, keeper: &mut K) -> Result<(State, Ended), OpenFault>
    ensures opened { IfOk result (λ made. IsOpenedAccount (K.told keeper.old) made.0 made.1) }
    ensures bad { IfErr result (λ fault. IfSome (K.told keeper.old) (λ kept. IsFaultOf kept fault)) }
    ensures left { K.told keeper.new ≡ K.told keeper.old }
    ensures cause { result ≡ Err OpenKeeper → Rose (K.keep_faults keeper.old) (K.keep_faults keeper.new) }
    ensures quiet { (result ≡ Err OpenKeeper → ⊥) → K.keep_faults keeper.new ≡ K.keep_faults keeper.old }
    ensures faults { K.keep_faults keeper.old ≤ K.keep_faults keeper.new }
    ensures called { K.calls keeper.new ≡ with_load (K.calls keeper.old) }
{
    let kept = load(alloc, keeper)?;
    let mut ended = Ended::new(alloc)?;
    let mut state = State::of(alloc, kept)?;
    state.tick(0, &mut ended);
    Ok((state, ended))
}

impl State {
    /// The account that what is kept stands for: its moment is the latest of the store's time and the begins of the
    /// batches.
    pub(crate) fn of(alloc: Global, kept: Kept) -> Result<State, AllocError>
        requires { IsGood kept }
        ensures account { IfOk result (λ state. SameAccount (plain_of kept) state) }
        ensures stands { IfOk result (λ state. state ≡ plain_of (kept_of state)) }
        ensures moment { IfOk result (λ state. state.moment ≤ 999999999999) }
    {
        let moment = latest(kept.store, kept.batches.as_slice());
        let shelf = Shelf::from_rows(alloc, kept.rows.into_vec())?;
        Ok(State {
            shelf,
            collections: kept.collections.into_vec(),
            store: kept.store,
            last_delete: kept.last_delete,
            moment,
            stage: Stage::from_staged(kept.counter, kept.batches.into_vec()),
        })
    }

    /// Reads the clock: the moment doesn't fall, and what has ended by then goes. The numbers of the batches among that
    /// are noted.
    pub(crate) fn tick(&mut self, now: u64, ended: &mut Ended)
        requires { length ended.old + length self.old.batches ≤ most_live_batches }
        ensures account { self.new ≡ tick self.old now }
        ensures ended { ended.new ≡ ended.old ++ numbers_of (filter (λ batch. not (is_open self.new.moment batch))
            self.old.batches) }
    {
        self.moment = self.moment.max(Stamp::clamp(now));
        self.shelf.sweep(self.moment);
        ended.note(self.stage.batches(), self.moment);
        self.stage.expire(self.moment);
    }

    pub(crate) fn moment(&self) -> Stamp
        ensures { result ≡ self.now.moment }
    {
        self.moment
    }

    fn collection_time(&self, collection: &Name) -> Stamp
        ensures { result ≡ collection_time self.now collection.now }
    {
        match find_time(self.collections.as_slice(), collection) {
            Some(time) => time,
            None => self.last_delete,
        }
    }

    /// The time of a request's target; None where a GET or DELETE names no row.
    fn target_time(&self, request: &Request) -> Option<Stamp>
        ensures { result ≡ (if misses_item self.now request.now then None else Some
            (target_time self.now request.now)) }
    {
        match request {
            Request::Info { .. } | Request::DeleteAll { .. } => Some(self.store),
            Request::List { collection, .. } => Some(self.collection_time(collection)),
            Request::Post { collection, .. } => Some(self.collection_time(collection)),
            Request::DeleteCollection { collection, .. } => Some(self.collection_time(collection)),
            Request::DeleteIds { collection, .. } => Some(self.collection_time(collection)),
            Request::Get { collection, id, .. } => self.item_time(collection, id),
            Request::Delete { collection, id, .. } => self.item_time(collection, id),
            Request::Put { collection, id, .. } => match self.item_time(collection, id) {
                Some(time) => Some(time),
                None => Some(Stamp::clamp(0)),
            },
        }
    }

    pub(crate) fn is_listed(&self, collection: &Name) -> bool
        ensures { result ≡ is_listed self.now collection.now }
    {
        find_time(self.collections.as_slice(), collection).is_some()
    }

    /// Whether a request's target is there.
    fn is_there(&self, request: &Request) -> bool
        ensures { result ≡ is_there self.now request.now }
    {
        match request {
            Request::Info { .. } | Request::DeleteAll { .. } => 0 < self.store.get(),
            Request::List { collection, .. } => self.is_listed(collection),
            Request::Post { collection, .. } => self.is_listed(collection),
            Request::DeleteCollection { collection, .. } => self.is_listed(collection),
            Request::DeleteIds { collection, .. } => self.is_listed(collection),
            Request::Get { collection, id, .. } => self.shelf.get(collection, id).is_some(),
            Request::Put { collection, id, .. } => self.shelf.get(collection, id).is_some(),
            Request::Delete { collection, id, .. } => self.shelf.get(collection, id).is_some(),
        }
    }

    /// The status with which a request's condition stops it, whose target has this time.
    fn stopped(&self, request: &Request, time: Stamp) -> Option<u16>
        ensures { result ≡ stops (condition_of request.now) (is_there self.now request.now) time }
    {
        match condition_of(request) {
            Cond::IfAbsent => Cond::IfAbsent.stops(self.is_there(request), time),
            cond => cond.stops(true, time),
        }
    }

    fn item_time(&self, collection: &Name, id: &Id) -> Option<Stamp>
        ensures { result ≡ option_map (λ row. row.modified) (row_at collection.now id.now self.now.rows) }
    {
        let row = self.shelf.get(collection, id)?;
        Some(row.modified)
    }

    /// The parts of a live batch of the collection, or none.
    pub(crate) fn staged_parts(&self, batch: u64, collection: &Name) -> &[Part]
        requires { IsValid self.now }
        ensures { result.now ≡ staged_parts self.now collection.now batch }
    {
        match self.stage.peek(batch, collection) {
            Ok(parts) => parts,
            Err(_) => &[],
        }
    }

    /// The body against a request that continues no batch, or overfills it.
    fn continue_refusal(&self, batch: u64, collection: &Name, parts: &[Part]) -> Option<Body>
        ensures { result ≡ option_map fault_body (append_fault (stage_of self.now) batch collection.now parts.now) }
    {
        match self.stage.fits(batch, collection, parts) {
            Ok(()) => None,
            Err(fault) => Some(fault_body(fault)),
        }
    }

    /// The body against a request that can't begin or continue a batch.
    fn batch_refusal(&self, request: &Request) -> Option<Body>
        requires { IsValid self.now }
        ensures { result ≡ option_map said_by (batch_cause self.now request.now) }
    {
        let Request::Post {
            collection,
            records,
            mode,
            ..
        } = request
        else {
            return None;
        };
        let parts = records.parts.as_slice();
        match mode {
            Mode::Plain => None,
            Mode::Begin => {
                if self.stage.has_room() {
                    None
                } else {
                    Some(Body::Said(Said::Batches))
                }
            }
            Mode::Append { batch } => self.continue_refusal(*batch, collection, parts),
            Mode::Commit { batch } => self.continue_refusal(*batch, collection, parts),
        }
    }

    pub(crate) fn refuse(&self, status: u16, modified: Option<Stamp>, body: Body) -> Reply
        ensures { result ≡ plain_reply self.now.moment status modified body }
    {
        Reply {
            status,
            moment: self.moment,
            modified,
            count: None,
            next: None,
            body,
        }
    }

    /// The time of the target, or the refusal by item, condition or batch.
    fn admit(&self, request: &Request) -> Result<Stamp, Reply>
        requires { IsValid self.now }
        ensures time { IfOk result (λ time. time ≡ target_time self.now request.now) }
        ensures passes { OnOk result (refusal self.now request.now ≡ late_refusal self.now request.now) }
        ensures batch { OnOk result (batch_cause self.now request.now ≡ None) }
        ensures reply { IfErr result (λ reply. reply ≡ (outcome self.now request.now
            (refusal self.now request.now)).reply) }
        ensures account { OnErr result ((outcome self.now request.now (refusal self.now request.now)).account
            ≡ self.now) }
        ensures refused { OnErr result (is_none (refusal self.now request.now) ≡ false) }
    {
        let Some(time) = self.target_time(request) else {
            return Err(self.refuse(404, None, Body::Said(Said::Item)));
        };
        if let Some(status) = self.stopped(request, time) {
            return Err(self.refuse(status, Some(time), stop_body(status)));
        }
        if let Some(body) = self.batch_refusal(request) {
            return Err(self.refuse(400, None, body));
        }
        Ok(time)
    }

    /// Answers a request once the clock was read. Without memory for it, and where the keeper fails, nothing changes.
    pub(crate) fn answer<K: Keeper>(
        &mut self,
        alloc: Global,
        ledger: &mut Ledger<K>,
        request: &Request,
    ) -> Result<Reply, KeepFault>
        requires valid { IsValid self.old }
        requires swept { IsSwept self.old }
        requires told { IsKeptBesideBy ledger.old.ended (K.told ledger.old.keeper) self.old }
        requires fits { IsFitRequest request.now }
        ensures reply { IfOk result (λ reply. reply ≡ (outcome self.old request.now
            (refusal self.old request.now)).reply) }
        ensures account { OnOk result (SameAccount (outcome self.old request.now (refusal self.old request.now)).account
            self.new) }
        ensures err { OnErr result (self.new ≡ self.old) }
        ensures cleared { is_for_keeper self.old request.now ≡ true → OnOk result (ledger.new.ended ≡ []) }
        ensures refused { OnErr result (K.told ledger.new.keeper ≡ K.told ledger.old.keeper) }
        ensures left { OnErr result (ledger.new.ended ≡ ledger.old.ended) }
        ensures cause { HasCause (K.keep_faults ledger.old.keeper) (K.keep_faults ledger.new.keeper) result }
        ensures called { is_for_keeper self.old request.now ≡ true
            → HasAsked (K.calls ledger.old.keeper) (K.calls ledger.new.keeper) result }
        ensures own { is_for_keeper self.old request.now ≡ false → result ≢ Err KeepFault.Fault }
        ensures unasked { is_for_keeper self.old request.now ≡ false → ledger.new ≡ ledger.old }
        ensures quiet { is_for_keeper self.old request.now ≡ false → self.new ≡ self.old }
        ensures held { is_for_keeper self.old request.now ≡ true → OnOk result
            (IsHeldBy (K.told ledger.new.keeper) self.new) }
    {
        match self.admit(request) {
            Err(reply) => Ok(reply),
            Ok(time) => match self.kind_of(request) {
                Kind::Read(read) => Ok(self.read(alloc, read, time)?),
                Kind::Write(write) => self.write(alloc, ledger, write),
                Kind::Stage(stage) => self.stage_parts(alloc, ledger, stage, time),
            },
        }
    }

    /// A reply that tells no list.
    pub(crate) fn told_reply(&self, status: u16, time: Stamp, body: Body) -> Reply
        ensures { result ≡ plain_reply self.now.moment status (Some time) body }
    {
        self.refuse(status, Some(time), body)
    }

    /// What is told where memory ran out.
    pub(crate) fn out_of_memory(&self) -> Reply
        ensures { result ≡ plain_reply self.now.moment 507 None (Word Memory) }
    {
        self.refuse(507, None, Body::Said(Said::Memory))
    }

    /// What is told where the keeper failed.
    pub(crate) fn keeper_failed(&self) -> Reply
        ensures { result ≡ plain_reply self.now.moment 503 None (Word KeeperWord) }
    {
        self.refuse(503, None, Body::Said(Said::Keeper))
    }

    pub(crate) fn plain(&self, alloc: Global) -> Result<Plain, AllocError>
        ensures { IfOk result (λ plain. SameAccount self.now plain) }
    {
        let rows = self.shelf.copy_rows(alloc)?;
        self.with_rows(alloc, rows)
    }

    /// The account as plain data, with these rows.
    fn with_rows(&self, alloc: Global, rows: Rows) -> Result<Plain, AllocError>
        ensures { IfOk result (λ plain. plain ≡ record self.now { rows = rows }) }
    {
        Ok(Plain {
            rows,
            collections: Times::new(copies(alloc, self.collections.as_slice())?),
            store: self.store,
            last_delete: self.last_delete,
            moment: self.moment,
            counter: self.stage.counter(),
            batches: Batches::new(copy_batches(alloc, self.stage.batches())?),
        })
    }
}
