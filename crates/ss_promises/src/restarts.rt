//! An account over a restart: it is given up to its keeper, and opened again from what this tells.

ghost use Rattle.std.specs.Prelude.{◌≡◌, ◌⊎◌, IfErr, IfOk, IfSome};
ghost use Rattle.ss_outside.specs.Causes.{Rose};
ghost use Rattle.ss_bso.specs.declared.account.Plain.{Plain};
ghost use Rattle.ss_bso.specs.declared.changes.Kept.{Kept};
ghost use Rattle.ss_bso.specs.Changes.{account_at_opening};
ghost use Rattle.ss_bso.specs.Validity.{IsValid, SameAccount};
ghost use Rattle.ss_account.specs.declared.faults.OpenFault.TheVariants.{Keeper as KeeperFailed, Memory as NoMemory};
ghost use Rattle.ss_account.specs.Keeping.{IsKeptAccount};
ghost use Rattle.ss_promises.specs.Restarts.{GoesOn};

use ss_account::{Account, OpenFault};
use ss_keeper::Keeper;
use std::alloc::Global;

/// An account goes on over a restart: where what is kept is a valid account's, as it is after each step, the account
/// that is opened from it has the same collections, times and counter, and from the old moment on the same rows and
/// batches; so each upload goes on.
pub fn accounts_go_on()
    ensures { (kept : Kept) (account again : Plain) → IsValid account → IsKeptAccount kept account
        → SameAccount (account_at_opening kept) again → GoesOn account again }
{}

/// The account of a keeper, given up and opened again: it goes on as it was. Where the keeper tells what it holds,
/// there is no account only where the keeper failed, or where memory is wanting.
pub fn reopened<K: Keeper>(alloc: Global, account: Account<K>) -> Result<Account<K>, (K, OpenFault)>
    ensures goes_on { IfOk result (λ again. IfSome (K.told account.keeper) (λ kept. GoesOn account.plain again.plain)) }
    ensures refused { IfErr result (λ refusal. IfSome (K.told account.keeper) (λ kept. (refusal.1 ≡ KeeperFailed)
        ⊎ (refusal.1 ≡ NoMemory))) }
    ensures cause { IfErr result (λ refusal. refusal.1 ≡ KeeperFailed → Rose (K.keep_faults account.keeper)
        (K.keep_faults refusal.0)) }
    ensures left { IfOk result (λ again. K.told again.keeper ≡ K.told account.keeper) }
    ensures left_refused { IfErr result (λ refusal. K.told refusal.0 ≡ K.told account.keeper) }
{
    let mut account = account;
    account.tick(0);
    Account::open(alloc, account.into_keeper())
}
