//! The account of a world.

ghost use Rattle.std.specs.Prelude.{◌≡◌, bytes_eq, IfOk, OnOk, OnErr};
ghost use Rattle.ss_account.specs.Opening.{IsFaultOf, IsGood};
ghost use Rattle.ss_account.specs.declared.faults.OpenFault.TheVariants.{Keeper as OpenKeeper};
ghost use Rattle.ss_query.specs.Api.{api};
ghost use Rattle.ss_query.specs.Fit.{IsFitRequest};
ghost use Rattle.ss_serving.specs.Bookmarks.{bookmarks};
ghost use Rattle.ss_serving.specs.Asking.{touches};
ghost use Rattle.ss_serving.specs.Steps.{Answers, Reopens, Ticks};
ghost use Rattle.ss_world.specs.Worlds.{server_of};

use ss_account::{Account, OpenFault};
use ss_bso::Kept;
use ss_keeper::{KeepFault, SureKeeper};
use ss_query::{Mark, Reply, Request};
use ss_text::Name;
use std::alloc::{AllocError, Global};

fn names_bookmarks(collection: &Name) -> bool
    ensures { result ≡ bytes_eq bookmarks collection.now }
{
    "bookmarks" == collection.as_str()
}

/// The account answers a request at a reading of the clock. Without memory for that it has read the clock alone.
pub(crate) fn ask(
    alloc: Global,
    account: &mut Account<SureKeeper>,
    now: u64,
    request: &Request,
) -> Result<Reply, AllocError>
    requires { IsFitRequest request.now }
    ensures reply { IfOk result (λ reply. reply ≡ (api account.old.plain now request.now).reply) }
    ensures answers { OnOk result (Answers (server_of account.old) now request.now (server_of account.new)) }
    ensures ticks { OnErr result (Ticks (server_of account.old) now (server_of account.new)) }
    ensures again { IsGood (server_of account.new).kept }
{
    let reply = account.step(alloc, now, request);
    account.keeper().never_fails();
    match reply.mark() {
        Mark::Done => Ok(reply),
        Mark::Memory => Err(AllocError),
        Mark::Keeper => unreachable!(),
    }
}

/// Whether a request may change the bookmarks: it deletes all, or is no GET and names them.
pub(crate) fn touches(request: &Request) -> bool
    ensures { result ≡ touches request.now }
{
    match request {
        Request::Info { .. } | Request::List { .. } | Request::Get { .. } => false,
        Request::DeleteAll { .. } => true,
        Request::Post { collection, .. } => names_bookmarks(collection),
        Request::DeleteCollection { collection, .. } => names_bookmarks(collection),
        Request::DeleteIds { collection, .. } => names_bookmarks(collection),
        Request::Put { collection, .. } => names_bookmarks(collection),
        Request::Delete { collection, .. } => names_bookmarks(collection),
    }
}

/// The account reads its clock.
pub(crate) fn tick(account: &mut Account<SureKeeper>, now: u64)
    ensures ticks { Ticks (server_of account.old) now (server_of account.new) }
    ensures again { IsGood (server_of account.new).kept }
{
    account.tick(now);
}

/// Why an account isn't opened from what the keeper of one tells: for want of memory alone.
fn refusal(keeper: &SureKeeper, fault: OpenFault) -> AllocError
    requires good { IsGood keeper.now.kept }
    requires bad { IsFaultOf keeper.now.kept fault }
    requires quiet { fault ≡ OpenKeeper → ⊥ }
{
    match fault {
        OpenFault::Memory => AllocError,
        OpenFault::Keeper => unreachable!(),
        OpenFault::BadCollection { .. } => unreachable!(),
        OpenFault::BadRow { .. } => unreachable!(),
        OpenFault::BadBatch { .. } => unreachable!(),
    }
}

/// What the keeper of an account holds. It is refused for want of memory alone.
fn kept_by(alloc: Global, account: &mut Account<SureKeeper>) -> Result<Kept, AllocError>
    ensures told { IfOk result (λ kept. kept ≡ (server_of account.old).kept) }
    ensures left { server_of account.new ≡ server_of account.old }
{
    let told = account.told(alloc);
    account.keeper().never_fails();
    match told {
        Ok(kept) => Ok(kept),
        Err(KeepFault::Memory) => Err(AllocError),
        Err(KeepFault::Fault) => unreachable!(),
    }
}

/// The account is opened anew with what its keeper tells, and the old one is given up. It is refused for want of memory
/// alone, since what the keeper of an account tells can be opened; then the account is as before.
pub(crate) fn reopen(alloc: Global, account: &mut Account<SureKeeper>) -> Result<(), AllocError>
    requires { IsGood (server_of account.old).kept }
    ensures reopens { OnOk result (Reopens (server_of account.old) (server_of account.new)) }
    ensures left { OnErr result (server_of account.new ≡ server_of account.old) }
    ensures again { IsGood (server_of account.new).kept }
{
    let keeper = SureKeeper::new(kept_by(alloc, account)?);
    keeper.never_fails();
    match Account::open(alloc, keeper) {
        Ok(opened) => {
            *account = opened;
            Ok(())
        }
        Err((keeper, fault)) => {
            keeper.never_fails();
            Err(refusal(&keeper, fault))
        }
    }
}
