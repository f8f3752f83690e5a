//! A law of servers.

ghost use Rattle.std.specs.Prelude.{◌≡◌, ℕ, List};
ghost use Rattle.ss_laws.specs.Journal.{Journal};
ghost use Rattle.ss_site.specs.Sites.{Term};
ghost use Rattle.ss_words.specs.declared.commands.ServeCommand.{ServeCommand};
ghost use Rattle.ss_serve.specs.declared.report.LinkReport.{LinkReport};
ghost use Rattle.ss_audit.specs.Sound.{AreSound};
ghost use Rattle.ss_run_serve.specs.Logged.{AreJournalsOf};
ghost use Rattle.ss_run_serve.specs.Serving.{AreServedBy, ServedSite};

use ss_links::{Closable, Gate};

/// The logs of a server are sound: where terms served accounts as the clause of `run_serve` says, the journals of one
/// account, term by term, are a history of which `audit` says yes.
pub fn logs_of_a_server_are_sound<L: Closable, G: Gate>()
    ensures { (gate : G) (command : ServeCommand) (terms : List (Term (LinkReport L)))
        (old new : ServedSite (LinkReport L))
        → AreServedBy L.Told.told L.closed (G.says gate) command terms old new
        → (uid : ℕ) (journals : List Journal) → AreJournalsOf uid terms journals → AreSound journals }
{}
