//! The accounts of a server: how they are opened from its site.

ghost use Rattle.std.specs.Prelude.{◌≡◌, ◌≤◌, ◌⊎◌, ◌++◌, ◌∷◌, ℕ, [], map, length, vec_len, vec_capacity, All, Contains};
ghost use Rattle.std.specs.Prelude.{Some, IfOk, IfErr, IfSome, OnOk, OnErr};
ghost use Rattle.ss_outside.specs.Causes.{Rose};
ghost use Rattle.ss_bso.specs.Changes.{account_at_opening};
ghost use Rattle.ss_bso.specs.Validity.{SameAccount};
ghost use Rattle.ss_booked.specs.Booked.{uid_of, account_of, journal_of};
ghost use Rattle.ss_booked.specs.Sizes.{most_entries};
ghost use Rattle.ss_site.specs.Sites.{Counts, Entries, IsBack, IsEntry, TellsStill};
ghost use Rattle.ss_run_serve.specs.Hosted.{hosted_account, hosted_at, HasEmptyJournal};
ghost use Rattle.ss_run_serve.specs.Lending.{keepers_at, AllAreBack, AreOut, OpensAt};
ghost use Rattle.ss_run_serve.specs.Opening.{OpensAccount, IsWhyUnopened, RefusesOne, CountsFaults, AreAsBefore};
ghost use Rattle.ss_run_serve.specs.Opening.{stop_at};
ghost use Rattle.ss_run_serve.specs.Refusals.{IsRefusedAs};

use crate::retiring::retire_all;
use crate::stop::Stop;
use ss_account::{Account, OpenFault};
use ss_booked::{Booked, MOST_ENTRIES};
use ss_site::{NoKeeper, Site};
use std::alloc::Global;

/// Why a server stops that found this fault in an account.
fn stop_at(uid: u32, fault: OpenFault) -> Stop
    ensures { result ≡ stop_at uid fault }
{
    match fault {
        OpenFault::Keeper => Stop::Keeper { uid },
        OpenFault::Memory => Stop::Memory,
        _ => Stop::Account { uid, fault },
    }
}

/// Opens the account that a keeper holds. Where it can't be opened the keeper is retired.
fn open_kept<X: Site>(
    alloc: Global,
    site: &mut X,
    folder: &str,
    uid: u32,
    keeper: X::Keeper,
) -> Result<Account<X::Keeper>, Stop>
    requires entry { IsEntry folder.now uid (X.Keeper.told keeper) (X.kept site.old) }
    requires fresh { X.Keeper.keep_faults keeper ≡ 0 }
    requires given { Contains (X.lent site.old).keepers (folder.now, uid) }
    ensures opened { IfOk result (λ account. (entries : Entries) → X.kept site.old ≡ Some entries
        → SameAccount (account_at_opening (entries folder.now uid)) account.plain) }
    ensures entry { IfOk result (λ account. IsEntry folder.now uid (X.Keeper.told account.keeper) (X.kept site.old)) }
    ensures fresh { IfOk result (λ account. X.Keeper.keep_faults account.keeper ≡ 0) }
    ensures unchanged { OnOk result ((X.counts site.new ≡ X.counts site.old) × (X.kept site.new ≡ X.kept site.old)) }
    ensures refused { IfErr result (IsWhyUnopened folder.now (X.kept site.old) (X.counts site.old) (X.counts site.new)
        uid) }
    ensures refused_as { IfErr result (λ stop. IsRefusedAs stop (X.counts site.old).refused
        (X.counts site.new).refused) }
    ensures as_before { OnErr result (AreAsBefore (X.kept site.old) (X.kept site.new)) }
    ensures stays { TellsStill (X.kept site.old) (X.kept site.new) }
    ensures counted { CountsFaults (X.counts site.old) (X.counts site.new) }
    ensures terms { X.terms site.new ≡ X.terms site.old }
    ensures logs { X.logs site.new ≡ X.logs site.old }
    ensures lent { OnOk result (X.lent site.new ≡ X.lent site.old) }
    ensures returned { OnErr result (IsBack (X.lent site.old) (X.lent site.new)) }
{
    match Account::open(alloc, keeper) {
        Ok(account) => Ok(account),
        Err((keeper, fault)) => {
            site.retire(folder, uid, keeper);
            Err(stop_at(uid, fault))
        }
    }
}

/// Begins the journal of an account. Where memory is wanting its keeper is retired.
fn begin<X: Site>(
    alloc: Global,
    site: &mut X,
    folder: &str,
    uid: u32,
    account: Account<X::Keeper>,
) -> Result<Booked<X::Keeper>, Stop>
    requires entry { IsEntry folder.now uid (X.Keeper.told account.keeper) (X.kept site.old) }
    requires fresh { X.Keeper.keep_faults account.keeper ≡ 0 }
    requires given { Contains (X.lent site.old).keepers (folder.now, uid) }
    ensures uid { IfOk result (λ b. uid_of b ≡ uid) }
    ensures account { IfOk result (λ b. account_of b ≡ account) }
    ensures opening { IfOk result (λ b. SameAccount account.plain (journal_of b).opening) }
    ensures begun { IfOk result (λ b. HasEmptyJournal (hosted_account X.Keeper.told X.Keeper.keep_faults b)) }
    ensures most { IfOk result (λ b. (journal_of b).most ≡ most_entries) }
    ensures unchanged { OnOk result ((X.counts site.new ≡ X.counts site.old) × (X.kept site.new ≡ X.kept site.old)) }
    ensures refused { IfErr result (λ stop. stop ≡ Stop.Memory) }
    ensures refused_as { IfErr result (λ stop. IsRefusedAs stop (X.counts site.old).refused
        (X.counts site.new).refused) }
    ensures as_before { OnErr result (AreAsBefore (X.kept site.old) (X.kept site.new)) }
    ensures stays { TellsStill (X.kept site.old) (X.kept site.new) }
    ensures counted { CountsFaults (X.counts site.old) (X.counts site.new) }
    ensures terms { X.terms site.new ≡ X.terms site.old }
    ensures logs { X.logs site.new ≡ X.logs site.old }
    ensures lent { OnOk result (X.lent site.new ≡ X.lent site.old) }
    ensures returned { OnErr result (IsBack (X.lent site.old) (X.lent site.new)) }
{
    match Booked::open(alloc, uid, account, MOST_ENTRIES) {
        Ok(booked) => Ok(booked),
        Err((account, _)) => {
            site.retire(folder, uid, account.into_keeper());
            Err(Stop::Memory)
        }
    }
}

/// Opens an account of a site: its keeper, the account that it holds, and a journal. Where that fails its keeper is
/// retired.
fn open_account<X: Site>(
    alloc: Global,
    site: &mut X,
    folder: &str,
    uid: u32,
) -> Result<Booked<X::Keeper>, Stop>
    ensures opened { IfOk result (λ b. OpensAccount folder.now (X.kept site.old)
        (uid, hosted_account X.Keeper.told X.Keeper.keep_faults b)) }
    ensures unchanged { OnOk result ((X.counts site.new ≡ X.counts site.old) × (X.kept site.new ≡ X.kept site.old)) }
    ensures refused { IfErr result (IsWhyUnopened folder.now (X.kept site.old) (X.counts site.old) (X.counts site.new)
        uid) }
    ensures refused_as { IfErr result (λ stop. IsRefusedAs stop (X.counts site.old).refused
        (X.counts site.new).refused) }
    ensures as_before { OnErr result (AreAsBefore (X.kept site.old) (X.kept site.new)) }
    ensures stays { TellsStill (X.kept site.old) (X.kept site.new) }
    ensures counted { CountsFaults (X.counts site.old) (X.counts site.new) }
    ensures terms { X.terms site.new ≡ X.terms site.old }
    ensures logs { X.logs site.new ≡ X.logs site.old }
    ensures lent { OnOk result (AreOut 1 (X.lent site.old) (X.lent site.new)) }
    ensures returned { OnErr result (AllAreBack (X.lent site.old) (X.lent site.new)) }
    ensures addresses { (X.lent site.new).addresses ≡ (X.lent site.old).addresses }
    ensures keeper { OnOk result ((X.lent site.new).keepers ≡ (X.lent site.old).keepers ++ (folder.now, uid) ∷ []) }
    ensures keepers { ((X.lent site.new).keepers ≡ (X.lent site.old).keepers)
        ⊎ ((X.lent site.new).keepers ≡ (X.lent site.old).keepers ++ (folder.now, uid) ∷ []) }
    ensures readings { OnOk result ((X.lent site.new).readings ≡ (X.lent site.old).readings) }
{
    let keeper = match site.keeper(alloc, folder, uid) {
        Ok(keeper) => keeper,
        Err(NoKeeper::Fault) => return Err(Stop::Site),
        Err(NoKeeper::Damaged) => return Err(Stop::Damaged { uid }),
        Err(NoKeeper::Memory) => return Err(Stop::Memory),
    };
    match open_kept(alloc, site, folder, uid, keeper) {
        Ok(account) => begin(alloc, site, folder, uid, account),
        Err(stop) => Err(stop),
    }
}

/// Opens these accounts of a site, in order. Where one can't be opened the keepers of all are retired.
pub(crate) fn open_accounts<X: Site>(
    alloc: Global,
    site: &mut X,
    folder: &str,
    uids: &[u32],
) -> Result<Vec<(u32, Booked<X::Keeper>)>, Stop>
    ensures uids { IfOk result (λ accounts. map (λ account. account.0) accounts.items ≡ uids.now) }
    ensures opened { IfOk result (λ accounts. All (OpensAccount folder.now (X.kept site.old))
        (map (hosted_at X.Keeper.told X.Keeper.keep_faults) accounts.items)) }
    ensures unchanged { OnOk result ((X.counts site.new ≡ X.counts site.old) × (X.kept site.new ≡ X.kept site.old)) }
    ensures refused { IfErr result (λ stop. RefusesOne folder.now (X.kept site.old) (X.counts site.old)
        (X.counts site.new) uids.now stop) }
    ensures refused_as { IfErr result (λ stop. IsRefusedAs stop (X.counts site.old).refused
        (X.counts site.new).refused) }
    ensures as_before { OnErr result (AreAsBefore (X.kept site.old) (X.kept site.new)) }
    ensures stays { TellsStill (X.kept site.old) (X.kept site.new) }
    ensures counted { CountsFaults (X.counts site.old) (X.counts site.new) }
    ensures terms { X.terms site.new ≡ X.terms site.old }
    ensures logs { X.logs site.new ≡ X.logs site.old }
    ensures lent { IfOk result (λ accounts. AreOut (length accounts.items) (X.lent site.old) (X.lent site.new)) }
    ensures returned { OnErr result (AllAreBack (X.lent site.old) (X.lent site.new)) }
    ensures addresses { (X.lent site.new).addresses ≡ (X.lent site.old).addresses }
    ensures given { OnOk result ((X.lent site.new).keepers ≡ (X.lent site.old).keepers
        ++ keepers_at folder.now uids.now) }
    ensures opens { OpensAt folder.now uids.now (X.lent site.old) (X.lent site.new) }
    ensures readings { OnOk result ((X.lent site.new).readings ≡ (X.lent site.old).readings) }
{
    let Ok(mut accounts) = Vec::with_capacity(alloc, uids.len()) else {
        return Err(Stop::Memory);
    };
    for uid in uids {
        match open_account(alloc, site, folder, *uid) {
            Ok(booked) => accounts.push_reserved((*uid, booked)),
            Err(stop) => {
                retire_all(site, folder, accounts);
                return Err(stop);
            }
        }
    }
    Ok(accounts)
}
