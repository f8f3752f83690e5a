//! The command `serve`.

ghost use Rattle.std.specs.Prelude.{map, string_bytes};
ghost use Rattle.ss_run_serve.specs.Lending.{AllAreBack, ListensAsAsked, OpensAsAsked};
ghost use Rattle.ss_run_serve.specs.Serving.{Runs};

use crate::endings::Ending;
use crate::serving::serve;
use ss_links::{Gate, Port};
use ss_outside::Sink;
use ss_serve::LinkReport;
use ss_site::Site;
use ss_words::{Command, WordsFault, read_command};
use std::alloc::Global;
use std::sync::Wait;
use std::thread::Threads;

/// Serves the accounts that the words ask for, from what a site keeps, and answers how that ended: `Stopped`, with why
/// the server stopped, where they ask for one; `OtherWords` where they ask for none, and `Memory` where no memory was
/// found to read them, and then nothing is done. Every keeper that the site gave is given back to it, the port is shut,
/// and the store of logs is shelved. What `err` is told while it serves is for people, and nothing is said of it.
pub fn run_serve<X, G, T, R>(
    rt: &R,
    alloc: Global,
    words: &[String],
    site: &mut X,
    gate: &G,
    err: &mut T,
) -> Ending
where
    X: Site<Report = LinkReport<<<X as Site>::Port as Port>::Link>>,
    X::Keeper: Send,
    X::Clock: Drop + Send,
    <<X as Site>::Port as Port>::Link: Drop + Send,
    G: Gate + Sync,
    T: Sink,
    R: Threads + Wait + Sync,
    ensures runs { Runs X.Port.Link.Told.told X.Port.Link.closed (G.says gate.now) (map (λ word. string_bytes word) words.now) result
        (record {
          counts = X.counts site.old;
          terms = X.terms site.old;
          kept = X.kept site.old;
          logs = X.logs site.old;
          readings = (X.lent site.old).readings;
        })
        (record {
          counts = X.counts site.new;
          terms = X.terms site.new;
          kept = X.kept site.new;
          logs = X.logs site.new;
          readings = (X.lent site.new).readings;
        }) }
    // Every keeper, port and store that the site gave came back to it, however it ends.
    ensures returned { AllAreBack (X.lent site.old) (X.lent site.new) }
    // It listens at the address of the words, and nowhere else.
    ensures listens { ListensAsAsked (map (λ word. string_bytes word) words.now) (X.lent site.old) (X.lent site.new) }
    // It asks for keepers of the accounts and in the folder of the words, and for no other.
    ensures opens { OpensAsAsked (map (λ word. string_bytes word) words.now) (X.lent site.old) (X.lent site.new) }
{
    let command = match read_command(alloc, words) {
        Ok(command) => command,
        Err(WordsFault::Refused(_)) => return Ending::OtherWords,
        Err(WordsFault::Memory) => return Ending::Memory,
    };
    let Command::Serve(command) = command else {
        return Ending::OtherWords;
    };
    let stop = serve(rt, alloc, site, gate, err, &command);
    Ending::Stopped(stop)
}
