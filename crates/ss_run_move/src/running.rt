//! A run of `dump` or `restore`.

ghost use Rattle.std.specs.Prelude.{◌≡◌, map, string_bytes};
ghost use Rattle.ss_run_move.specs.Runs.{Does, Runs};

use crate::dumping::dump;
use crate::endings::Ending;
use crate::restoring::restore;
use crate::words::{MoveCommand, Verb, read_move};
use ss_outside::{Sink, Source};
use ss_site::Site;
use std::alloc::Global;

/// Does what a command asks.
fn carry_out<X: Site, S: Source, T: Sink>(
    alloc: Global,
    command: &MoveCommand<'_>,
    site: &mut X,
    input: &mut S,
    output: &mut T,
) -> Ending
    ensures does { Does command.now.verb command.now.folder.now command.now.uid result
        (record { counts = X.counts site.old; lent = X.lent site.old; kept = X.kept site.old })
        (record { counts = X.counts site.new; lent = X.lent site.new; kept = X.kept site.new })
        (S.Told.told input.old) (S.Told.told input.new) (T.Told.told output.old) (T.Told.told output.new) }
    ensures terms { X.terms site.new ≡ X.terms site.old }
{
    match command.verb {
        Verb::Dump => dump(alloc, command.folder, command.uid, site, output),
        Verb::Restore => restore(alloc, command.folder, command.uid, site, input),
    }
}

/// Runs the words `dump FOLDER UID` and `restore FOLDER UID` at a site, and answers how that ended: `Done` where the
/// dump was written, or the account is filled with what the dump tells; `OtherWords` where the words are others, and
/// nothing is asked, read or written; `Site` and `Keeper` where a call of the site or the keeper of the account failed;
/// `Output` and `Input` where the output and the input did; `Damaged` and `NoAccount` where what is kept is no account,
/// and `NotFresh` where the one to be filled has something already; `NoDump` where the input is no dump, and `TooLong`
/// where it has more than 1,073,741,824 bytes; `Memory` without memory. A dump writes nothing unless it ends with `Done`
/// or `Output`, and a restore writes nothing at all. The keeper that the site gave is given back to it.
pub fn run_move<X: Site, S: Source, T: Sink>(
    alloc: Global,
    words: &[String],
    site: &mut X,
    input: &mut S,
    output: &mut T,
) -> Ending
    ensures runs { Runs (map (λ word. string_bytes word) words.now) result
        (record { counts = X.counts site.old; lent = X.lent site.old; kept = X.kept site.old })
        (record { counts = X.counts site.new; lent = X.lent site.new; kept = X.kept site.new })
        (S.Told.told input.old) (S.Told.told input.new) (T.Told.told output.old) (T.Told.told output.new) }
    ensures terms { X.terms site.new ≡ X.terms site.old }
{
    match read_move(words) {
        Some(command) => carry_out(alloc, &command, site, input, output),
        None => Ending::OtherWords,
    }
}
