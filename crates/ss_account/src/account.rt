//! One account: it answers each request by the one-account API, and what a request changes is kept before it is
//! answered.

ghost use Rattle.std.specs.Prelude.{◌≡◌, ◌≤◌, false, true, IfOk, IfErr, IfSome};
ghost use Rattle.ss_outside.specs.Causes.{Rose};
ghost use Rattle.ss_bso.specs.Account.{tick};
ghost use Rattle.ss_bso.specs.Changes.{kept_of, account_at_opening};
ghost use Rattle.ss_bso.specs.Validity.{IsValid, SameAccount};
ghost use Rattle.ss_query.specs.declared.replies.Mark.TheVariants.{Done, Keeper as KeeperMark};
ghost use Rattle.ss_query.specs.Marks.{mark_of};
ghost use Rattle.ss_query.specs.Fit.{IsFitRequest};
ghost use Rattle.ss_account.specs.declared.faults.OpenFault.TheVariants.{Keeper as OpenKeeper};
ghost use Rattle.ss_laws.specs.Journals.{marked_outcome};
ghost use Rattle.ss_account.specs.Keeping.{AsksOnce, IsHeldBy, IsKeptBy, is_for_keeper};
ghost use Rattle.ss_account.specs.Opening.{IsFaultOf, IsGood};
ghost use Rattle.ss_keeper.specs.Calls.{with_load};
ghost use Rattle.ss_keeper.specs.Keeping.{HasCause, TellsKept};

use crate::faults::OpenFault;
use crate::ledger::Ledger;
use crate::state::{State, prepare};
use ss_bso::{Kept, Plain};
use ss_keeper::{KeepFault, Keeper};
use ss_query::{Reply, Request};
use std::alloc::{AllocError, Global};
use std::marker::Model;

/// One account: its rows, its collections, its batches and its clock, valid at every moment, and a keeper that holds it
/// beyond the process. What was answered as done is kept; contracts see it as the plain account and the keeper.
#[derive(Drop)]
pub struct Account<K: Keeper> {
    state: State,
    ledger: Ledger<K>,
}

impl<K: Keeper> Model for Account<K> {
    ghost use Rattle.ss_account.specs.Held.{AccountWithKeeper};

    ghost Value = { AccountWithKeeper K };

    ghost use Rattle.ss_account.specs.Keeping.{IsSound};

    ghost view = { λ a. record { plain = a.state; keeper = a.ledger.keeper } };

    ghost invariant = { λ a. IsSound (K.told a.ledger.keeper) a.state a.ledger.ended };
}

impl<K: Keeper> Account<K> {
    /// The account that a keeper holds, at the latest of the store's time and the begins of its batches; what has ended
    /// by then is left out. The keeper comes back with why there is none: a collection, a row or a batch that is bad,
    /// by its number counted from 1, collections first and batches last; that the keeper failed; or that memory is
    /// wanting. What the keeper holds is left.
    pub fn open(alloc: Global, keeper: K) -> Result<Account<K>, (K, OpenFault)>
        ensures opened { IfOk result (λ account. IfSome (K.told keeper)
            (λ kept. SameAccount (account_at_opening kept) account.plain)) }
        ensures good { IfOk result (λ account. IfSome (K.told keeper) IsGood) }
        ensures begins { IfOk result (λ account. account.plain ≡ account_at_opening (kept_of account.plain)) }
        ensures valid { IfOk result (λ account. IsValid account.plain) }
        ensures kept { IfOk result (λ account. IsKeptBy (K.told account.keeper) account.plain) }
        ensures bad { IfErr result (λ refusal. IfSome (K.told keeper) (λ kept. IsFaultOf kept refusal.1)) }
        ensures cause { IfErr result (λ refusal. refusal.1 ≡ OpenKeeper
            → Rose (K.keep_faults keeper) (K.keep_faults refusal.0)) }
        ensures quiet { IfErr result (λ refusal. (refusal.1 ≡ OpenKeeper → ⊥)
            → K.keep_faults refusal.0 ≡ K.keep_faults keeper) }
        ensures left { IfOk result (λ account. K.told account.keeper ≡ K.told keeper) }
        ensures left_refused { IfErr result (λ refusal. K.told refusal.0 ≡ K.told keeper) }
        ensures faults { IfOk result (λ account. K.keep_faults account.keeper ≡ K.keep_faults keeper) }
        ensures faults_refused { IfErr result (λ refusal. K.keep_faults keeper ≤ K.keep_faults refusal.0) }
        ensures called { IfOk result (λ account. K.calls account.keeper ≡ with_load (K.calls keeper)) }
        ensures called_refused { IfErr result (λ refusal. K.calls refusal.0 ≡ with_load (K.calls keeper)) }
    {
        let mut keeper = keeper;
        match prepare(alloc, &mut keeper) {
            Ok((state, ended)) => Ok(Account {
                state,
                ledger: Ledger { keeper, ended },
            }),
            Err(fault) => Err((keeper, fault)),
        }
    }

    /// Reads the clock (hundredths of a second): the moment doesn't fall, and the rows and batches that have ended by
    /// then go. It takes no memory, and the keeper isn't asked.
    pub fn tick(&mut self, now: u64)
        ensures account { self.new.plain ≡ tick self.old.plain now }
        ensures keeper { self.new.keeper ≡ self.old.keeper }
        ensures valid { IsValid self.new.plain }
        ensures kept { IsKeptBy (K.told self.new.keeper) self.new.plain }
        ensures again { IfSome (K.told self.new.keeper) IsGood }
    {
        self.state.tick(now, &mut self.ledger.ended);
    }

    /// Answers a request at a reading of the clock (hundredths of a second), by the one-account API. What it changes is
    /// kept before it is answered: a write, a begin, an append and a commit that no rule refuses ask the keeper once,
    /// and what it then tells is the account. Without memory (507), and where the keeper fails (503 "keeper"), the
    /// clock alone has moved.
    pub fn step(&mut self, alloc: Global, now: u64, request: &Request) -> Reply
        requires { IsFitRequest request.now }
        ensures account { SameAccount (marked_outcome self.old.plain now request.now (mark_of result)).account self.new.plain }
        ensures reply { result ≡ (marked_outcome self.old.plain now request.now (mark_of result)).reply }
        ensures valid { IsValid self.new.plain }
        ensures kept { IsKeptBy (K.told self.new.keeper) self.new.plain }
        ensures held { mark_of result ≡ Done → is_for_keeper (tick self.old.plain now) request.now ≡ true
            → IsHeldBy (K.told self.new.keeper) self.new.plain }
        ensures again { IfSome (K.told self.new.keeper) IsGood }
        ensures refused { (mark_of result ≡ Done → ⊥) → K.told self.new.keeper ≡ K.told self.old.keeper }
        ensures unasked { is_for_keeper (tick self.old.plain now) request.now ≡ false
            → self.new.keeper ≡ self.old.keeper }
        ensures cause { mark_of result ≡ KeeperMark → Rose (K.keep_faults self.old.keeper)
            (K.keep_faults self.new.keeper) }
        ensures quiet { (mark_of result ≡ KeeperMark → ⊥) → K.keep_faults self.new.keeper
            ≡ K.keep_faults self.old.keeper }
        ensures faults { K.keep_faults self.old.keeper ≤ K.keep_faults self.new.keeper }
        ensures called { AsksOnce (tick self.old.plain now) request.now (mark_of result) (K.calls self.old.keeper)
            (K.calls self.new.keeper) }
    {
        self.state.tick(now, &mut self.ledger.ended);
        match self.state.answer(alloc, &mut self.ledger, request) {
            Ok(reply) => reply,
            Err(KeepFault::Memory) => self.state.out_of_memory(),
            Err(KeepFault::Fault) => self.state.keeper_failed(),
        }
    }

    /// What the keeper holds. The account is left as it was.
    pub fn told(&mut self, alloc: Global) -> Result<Kept, KeepFault>
        ensures told { IfOk result (λ kept. TellsKept kept (K.told self.old.keeper)) }
        ensures account { self.new.plain ≡ self.old.plain }
        ensures left { K.told self.new.keeper ≡ K.told self.old.keeper }
        ensures cause { HasCause (K.keep_faults self.old.keeper) (K.keep_faults self.new.keeper) result }
        ensures called { K.calls self.new.keeper ≡ with_load (K.calls self.old.keeper) }
    {
        self.ledger.keeper.load(alloc)
    }

    /// The account as plain data. As every account it is valid, and kept so that it can be opened again.
    pub fn plain(&self, alloc: Global) -> Result<Plain, AllocError>
        ensures plain { IfOk result (λ plain. SameAccount self.now.plain plain) }
        ensures valid { IsValid self.now.plain }
        ensures kept { IsKeptBy (K.told self.now.keeper) self.now.plain }
        ensures again { IfSome (K.told self.now.keeper) IsGood }
    {
        self.state.plain(alloc)
    }

    /// The keeper, lent.
    pub fn keeper(&self) -> &K
        ensures { result.now ≡ self.now.keeper }
    {
        &self.ledger.keeper
    }

    /// The keeper, which still holds the account. It takes no memory.
    pub fn into_keeper(self) -> K
        ensures { result ≡ self.keeper }
    {
        let Account { state, ledger } = self;
        drop(state);
        let Ledger { keeper, ended } = ledger;
        drop(ended);
        keeper
    }
}
