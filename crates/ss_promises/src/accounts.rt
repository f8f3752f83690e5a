//! A running account is the server of a world.

ghost use Rattle.std.specs.Prelude.{◌≡◌};
ghost use Rattle.ss_query.specs.Fit.{IsFitRequest};
ghost use Rattle.ss_query.specs.Marks.{mark_of};
ghost use Rattle.ss_laws.specs.Journals.{marked_outcome};
ghost use Rattle.ss_promises.specs.Steps.{IsStepBy};

use ss_account::Account;
use ss_keeper::Keeper;
use ss_query::{Reply, Request};
use std::alloc::Global;

/// Has an account answer a request at a reading of the clock (hundredths of a second). Over a keeper that tells what it
/// holds this is a step of the account with what is told: it is answered, or, where no memory was found or the keeper
/// failed, the clock is read. So what is said of worlds is said of running accounts.
pub fn answered<K: Keeper>(
    alloc: Global,
    account: &mut Account<K>,
    now: u64,
    request: &Request,
) -> Reply
    requires { IsFitRequest request.now }
    ensures reply { result ≡ (marked_outcome account.old.plain now request.now (mark_of result)).reply }
    ensures step { IsStepBy (mark_of result) (K.told account.old.keeper) account.old.plain now request.now
        (K.told account.new.keeper) account.new.plain }
{
    account.step(alloc, now, request)
}
