//! The accounts of a server: how their keepers come back to its site.

ghost use Rattle.std.specs.Prelude.{◌≡◌, length, map, All, Contains};
ghost use Rattle.ss_booked.specs.Booked.{account_of};
ghost use Rattle.ss_site.specs.Sites.{HasRetired, CountsKeeper, IsBack, StaysTold, TellsStill};
ghost use Rattle.ss_run_serve.specs.Hosted.{hosted_account, hosted_at, Stands};
ghost use Rattle.ss_run_serve.specs.Lending.{HaveComeBack};
ghost use Rattle.ss_run_serve.specs.Retiring.{uids_in, CountsKeepers, HaveRetired};

use ss_booked::Booked;
use ss_site::Site;

/// Gives the keeper of an account back to its site. It takes no memory.
fn retire<X: Site>(site: &mut X, folder: &str, uid: u32, booked: Booked<X::Keeper>)
    ensures entry { HasRetired folder.now uid (X.Keeper.told (account_of booked).keeper) (X.kept site.old)
        (X.kept site.new) }
    ensures stays { StaysTold folder.now uid (X.lent site.old).keepers (X.kept site.old) (X.kept site.new) }
    ensures counted { CountsKeeper (X.Keeper.keep_faults (account_of booked).keeper) (X.counts site.old)
        (X.counts site.new) }
    ensures stands { Stands (hosted_account X.Keeper.told X.Keeper.keep_faults booked) }
    ensures terms { X.terms site.new ≡ X.terms site.old }
    ensures logs { X.logs site.new ≡ X.logs site.old }
    ensures returned { IsBack (X.lent site.old) (X.lent site.new) }
{
    let keeper = booked.unbook().into_keeper();
    site.retire(folder, uid, keeper);
}

/// Gives the keepers of accounts back to their site. It takes no memory.
pub(crate) fn retire_all<X: Site>(
    site: &mut X,
    folder: &str,
    accounts: Vec<(u32, Booked<X::Keeper>)>,
)
    requires given { All (λ account. Contains (X.lent site.old).keepers (folder.now, account.0))
        (map (hosted_at X.Keeper.told X.Keeper.keep_faults) accounts.items) }
    ensures entries { HaveRetired folder.now (map (hosted_at X.Keeper.told X.Keeper.keep_faults) accounts.items)
        (X.kept site.old) (X.kept site.new) }
    ensures stays { TellsStill (X.kept site.old) (X.kept site.new) }
    ensures counted { CountsKeepers (map (hosted_at X.Keeper.told X.Keeper.keep_faults) accounts.items)
        (X.counts site.old) (X.counts site.new) }
    ensures stand { All (λ account. Stands account.1) (map (hosted_at X.Keeper.told X.Keeper.keep_faults)
        accounts.items) }
    ensures terms { X.terms site.new ≡ X.terms site.old }
    ensures logs { X.logs site.new ≡ X.logs site.old }
    ensures returned { HaveComeBack (length accounts.items) (X.lent site.old) (X.lent site.new) }
{
    for (uid, booked) in accounts {
        retire(site, folder, uid, booked);
    }
}
