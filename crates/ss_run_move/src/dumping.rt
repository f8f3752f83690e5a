//! The dump of an account of a site.

ghost use Rattle.std.specs.Prelude.{◌≡◌, IfOk, IfErr, IfSome};
ghost use Rattle.ss_bso.specs.Changes.{kept_of};
ghost use Rattle.ss_dump.specs.Dumps.{dump_text};
ghost use Rattle.ss_site.specs.Sites.{TellsStill};
ghost use Rattle.ss_run_move.specs.declared.endings.Ending.TheVariants.{Memory};
ghost use Rattle.ss_run_move.specs.Endings.{Wrote};
ghost use Rattle.ss_run_move.specs.Moves.{CameBack, Dumps, IsDumpAt, IsDumpFrom, IsEndWithoutDump, Leaves};
ghost use Rattle.ss_run_move.specs.Steps.{CountsResult, HoldsNone, KeeperCounts};

use crate::endings::Ending;
use ss_account::Account;
use ss_bso::{Kept, Plain};
use ss_keeper::Keeper;
use ss_outside::{Sink, write_all};
use ss_site::Site;
use std::alloc::Global;

/// What is kept of an account.
fn kept_of(account: Plain) -> Kept
    ensures { result ≡ kept_of account }
{
    let Plain {
        rows,
        collections,
        store,
        last_delete,
        moment: _,
        counter,
        batches,
    } = account;
    Kept {
        rows,
        collections,
        store,
        last_delete,
        counter,
        batches,
    }
}

/// The dump of the account that a keeper holds; the keeper comes back.
fn dump_of<K: Keeper>(alloc: Global, keeper: K) -> (K, Result<Vec<u8>, Ending>)
    ensures told { K.told result.0 ≡ K.told keeper }
    ensures text { IfOk result.1 (λ text. IfSome (K.told keeper) (λ kept. IsDumpFrom kept text.items)) }
    ensures none { IfErr result.1 (λ ending. HoldsNone (K.told keeper) ending) }
    ensures counts { KeeperCounts result.1 (K.keep_faults keeper) (K.keep_faults result.0) }
{
    let account = match Account::open(alloc, keeper) {
        Ok(account) => account,
        Err((keeper, fault)) => return (keeper, Err(Ending::from(fault))),
    };
    let plain = account.plain(alloc);
    let keeper = account.into_keeper();
    match plain {
        Ok(plain) => (keeper, text_of(alloc, plain)),
        Err(_) => (keeper, Err(Ending::Memory)),
    }
}

/// The dump of an account.
fn text_of(alloc: Global, account: Plain) -> Result<Vec<u8>, Ending>
    ensures text { IfOk result (λ text. text.items ≡ dump_text (kept_of account)) }
    ensures memory { IfErr result (λ ending. ending ≡ Memory) }
{
    let kept = kept_of(account);
    Ok(ss_dump::dump(alloc, &kept)?)
}

/// The dump of an account of a site, whose keeper comes back to it.
fn dump_at<X: Site>(alloc: Global, site: &mut X, folder: &str, uid: u32) -> Result<Vec<u8>, Ending>
    ensures text { IfOk result (λ text. IsDumpAt folder.now uid (X.kept site.old) text.items) }
    ensures none { IfErr result (λ ending. IsEndWithoutDump folder.now uid (X.kept site.old) ending) }
    ensures counted { CountsResult result (X.counts site.old) (X.counts site.new) }
    ensures back { CameBack folder.now uid (X.lent site.old) (X.lent site.new) }
    ensures leaves { Leaves folder.now uid (X.kept site.old) (X.kept site.new) }
    ensures stays { TellsStill (X.kept site.old) (X.kept site.new) }
    ensures terms { X.terms site.new ≡ X.terms site.old }
{
    let keeper = match site.keeper(alloc, folder, uid) {
        Ok(keeper) => keeper,
        Err(missing) => return Err(Ending::from(missing)),
    };
    let (keeper, text) = dump_of(alloc, keeper);
    site.retire(folder, uid, keeper);
    text
}

/// Writes a text.
fn write_out<T: Sink>(text: &[u8], output: &mut T) -> Ending
    ensures { Wrote text.now result (T.Told.told output.old) (T.Told.told output.new) }
{
    match write_all(output, text) {
        Ok(()) => Ending::Done,
        Err(_) => Ending::Output,
    }
}

/// Writes the dump of the account that this folder keeps under this number. Nothing is written where it can't be made;
/// what is kept is left, and the keeper comes back before the first byte is written.
pub fn dump<X: Site, T: Sink>(
    alloc: Global,
    folder: &str,
    uid: u32,
    site: &mut X,
    output: &mut T,
) -> Ending
    ensures dumps { Dumps folder.now uid result
        (record { counts = X.counts site.old; lent = X.lent site.old; kept = X.kept site.old })
        (record { counts = X.counts site.new; lent = X.lent site.new; kept = X.kept site.new })
        (T.Told.told output.old) (T.Told.told output.new) }
    ensures terms { X.terms site.new ≡ X.terms site.old }
{
    match dump_at(alloc, site, folder, uid) {
        Ok(text) => write_out(text.as_slice(), output),
        Err(ending) => ending,
    }
}
