//! A dump that is restored to a site.

ghost use Rattle.std.specs.Prelude.{◌≡◌, IfOk, IfErr};
ghost use Rattle.ss_account.specs.Opening.{IsGood};
ghost use Rattle.ss_dump.specs.Undumped.{IsDumpOf};
ghost use Rattle.ss_run_move.specs.Moves.{FillsFrom, Restores};
ghost use Rattle.ss_run_move.specs.Steps.{IsReadAs, IsUntold};

use crate::endings::Ending;
use crate::inputs::read_whole;
use ss_bso::Kept;
use ss_dump::{refill, undump};
use ss_outside::Source;
use ss_site::Site;
use std::alloc::Global;

/// What the dump that is the input tells.
fn told_by<S: Source>(alloc: Global, input: &mut S) -> Result<Kept, Ending>
    ensures told { IfOk result (λ told. IsReadAs told (S.Told.told input.old) (S.Told.told input.new)) }
    ensures untold { IfErr result (λ ending. IsUntold ending (S.Told.told input.old) (S.Told.told input.new)) }
{
    let text = match read_whole(alloc, input) {
        Ok(text) => text,
        Err(ending) => return Err(ending),
    };
    match undump(alloc, text.as_slice()) {
        Ok(told) => Ok(told),
        Err(fault) => Err(Ending::from(fault)),
    }
}

/// Fills the account that this folder keeps under this number; its keeper comes back.
fn fill<X: Site>(alloc: Global, site: &mut X, folder: &str, uid: u32, told: &Kept) -> Ending
    requires { IsGood told.now }
    ensures fills { FillsFrom folder.now uid told.now result
        (record { counts = X.counts site.old; lent = X.lent site.old; kept = X.kept site.old })
        (record { counts = X.counts site.new; lent = X.lent site.new; kept = X.kept site.new }) }
    ensures terms { X.terms site.new ≡ X.terms site.old }
{
    let mut keeper = match site.keeper(alloc, folder, uid) {
        Ok(keeper) => keeper,
        Err(missing) => return Ending::from(missing),
    };
    let refilled = refill(alloc, &mut keeper, told);
    site.retire(folder, uid, keeper);
    match refilled {
        Ok(()) => Ending::Done,
        Err(fault) => Ending::from(fault),
    }
}

/// Reads a dump, and fills with what it tells the account that this folder keeps under this number. Where the input is
/// none the site isn't asked; where something is kept already, or anything fails, what is kept is left.
pub fn restore<X: Site, S: Source>(
    alloc: Global,
    folder: &str,
    uid: u32,
    site: &mut X,
    input: &mut S,
) -> Ending
    ensures restores { Restores folder.now uid result
        (record { counts = X.counts site.old; lent = X.lent site.old; kept = X.kept site.old })
        (record { counts = X.counts site.new; lent = X.lent site.new; kept = X.kept site.new })
        (S.Told.told input.old) (S.Told.told input.new) }
    ensures terms { X.terms site.new ≡ X.terms site.old }
{
    match told_by(alloc, input) {
        Ok(told) => fill(alloc, site, folder, uid, &told),
        Err(ending) => ending,
    }
}
