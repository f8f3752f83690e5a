//! Sites.

ghost use Rattle.std.specs.Prelude.{◌≡◌, ℕ, Option, List, IfOk, OnOk, OnErr};
ghost use Rattle.ss_links.specs.Ports.{idle_port};
ghost use Rattle.ss_links.specs.Stores.{Files};
ghost use Rattle.ss_site.specs.Missing.{without_keeper};
ghost use Rattle.ss_site.specs.Sites.{Counts, LentParts, Term, Entries, HasCause, HasKeeperCause, HasLent};
ghost use Rattle.ss_site.specs.Sites.{HasLentKeeper};
ghost use Rattle.ss_site.specs.Sites.{Listens, IsBack, IsEntry, HasRetired, StaysTold, CountsKeeper, CountsPort};
ghost use Rattle.ss_site.specs.Sites.{CountsStore, AddsTerm};

use ss_keeper::Keeper;
use ss_laws::Journal;
use ss_links::{Port, Store};
use ss_outside::Clock;
use std::alloc::Global;

/// Why a site refused a call.
#[derive(Clone, Copy, Debug, PartialEq, Eq)]
pub enum SiteFault {
    /// The site failed; it counts this.
    Fault,

    /// Memory ran out.
    Memory,
}

/// Why a site gave no keeper.
#[derive(Clone, Copy, Debug, PartialEq, Eq)]
pub enum NoKeeper {
    /// The site failed; it counts this.
    Fault,

    /// What is kept there is no account that can be read; the site counts this.
    Damaged,

    /// Memory ran out.
    Memory,
}

impl From<SiteFault> for NoKeeper {
    ghost from_gives = { λ fault missing. missing ≡ without_keeper fault };

    fn from(fault: SiteFault) -> NoKeeper {
        match fault {
            SiteFault::Fault => NoKeeper::Fault,
            SiteFault::Memory => NoKeeper::Memory,
        }
    }
}

/// Where a server's links, keepers, clocks and stores of logs come from and go back to, and where it tells its terms.
pub trait Site {
    type Port: Port;

    type Keeper: Keeper + Drop;

    type Clock: Clock;

    /// A store of logs.
    type Log: Store;

    /// What is told of a link.
    type Report;

    /// Its counts.
    ghost counts: { Self → Counts };

    /// The keepers, ports and stores that it gave, those that came back, the addresses of the ports, the folders and
    /// uids of the keepers, and what its clocks read, where that is told.
    ghost lent: { Self → LentParts };

    /// The terms that it was told, where it tells them.
    ghost terms: { Self → Option (List (Term Self.Report)) };

    /// What is kept under each folder and uid, where that is told.
    ghost kept: { Self → Option Entries };

    /// The logs by their names, where they are told.
    ghost logs: { Self → Option Files };

    /// A port that listens at an address.
    fn listen(&mut self, alloc: Global, address: &str) -> Result<Self::Port, SiteFault>
        ensures idle { IfOk result (λ port. Self.Port.counts port ≡ idle_port) }
        ensures cause { HasCause result (counts self.old) (counts self.new) }
        ensures lent { Listens address.now result (lent self.old) (lent self.new) }
        ensures terms { terms self.new ≡ terms self.old }
        ensures kept { kept self.new ≡ kept self.old }
        ensures logs { logs self.new ≡ logs self.old };

    /// The keeper of an account, which tells its entry and has not failed.
    fn keeper(&mut self, alloc: Global, folder: &str, uid: u32) -> Result<Self::Keeper, NoKeeper>
        ensures fresh { IfOk result (λ keeper. Self.Keeper.keep_faults keeper ≡ 0) }
        ensures entry { IfOk result (λ keeper. IsEntry folder.now uid (Self.Keeper.told keeper) (kept self.old)) }
        ensures cause { HasKeeperCause result (counts self.old) (counts self.new) }
        ensures lent { HasLentKeeper folder.now uid result (lent self.old) (lent self.new) }
        ensures terms { terms self.new ≡ terms self.old }
        ensures kept { kept self.new ≡ kept self.old }
        ensures logs { logs self.new ≡ logs self.old };

    /// Takes the keeper of an account back: what it tells is the entry from now on. Where the entries are told, they
    /// are told still, unless the site never gave a keeper of this folder and uid. That it came back is counted, and
    /// that it had failed.
    fn retire(&mut self, folder: &str, uid: u32, keeper: Self::Keeper)
        ensures entry { HasRetired folder.now uid (Self.Keeper.told keeper) (kept self.old) (kept self.new) }
        ensures stays { StaysTold folder.now uid (lent self.old).keepers (kept self.old) (kept self.new) }
        ensures counted { CountsKeeper (Self.Keeper.keep_faults keeper) (counts self.old) (counts self.new) }
        ensures back { IsBack (lent self.old) (lent self.new) }
        ensures terms { terms self.new ≡ terms self.old }
        ensures logs { logs self.new ≡ logs self.old };

    /// Takes a port back. That it came back is counted, that it had failed or ended, its links, and how often it rested.
    fn shut(&mut self, port: Self::Port)
        ensures counted { CountsPort (Self.Port.counts port) (counts self.old) (counts self.new) }
        ensures back { IsBack (lent self.old) (lent self.new) }
        ensures terms { terms self.new ≡ terms self.old }
        ensures kept { kept self.new ≡ kept self.old }
        ensures logs { logs self.new ≡ logs self.old };

    /// A clock for a worker, which has not been read yet.
    fn clock(&mut self) -> Self::Clock
        ensures unread { Self.Clock.coming result ≡ (lent self.old).readings }
        ensures counts { counts self.new ≡ counts self.old }
        ensures lent { lent self.new ≡ lent self.old }
        ensures terms { terms self.new ≡ terms self.old }
        ensures kept { kept self.new ≡ kept self.old }
        ensures logs { logs self.new ≡ logs self.old };

    /// A store of logs in a folder, which holds the logs and has not failed. Until it comes back the site need not tell
    /// them.
    fn log(&mut self, alloc: Global, folder: &str) -> Result<Self::Log, SiteFault>
        ensures fresh { IfOk result (λ log. Self.Log.store_faults log ≡ 0) }
        ensures holds { IfOk result (λ log. Self.Log.held log ≡ logs self.old) }
        ensures refused { OnErr result (logs self.new ≡ logs self.old) }
        ensures cause { HasCause result (counts self.old) (counts self.new) }
        ensures lent { HasLent result (lent self.old) (lent self.new) }
        ensures terms { terms self.new ≡ terms self.old }
        ensures kept { kept self.new ≡ kept self.old };

    /// Takes a store of logs back: what it holds are the logs from now on. That it came back is counted, and that it had
    /// failed.
    fn shelve(&mut self, log: Self::Log)
        ensures logs { logs self.new ≡ Self.Log.held log }
        ensures counted { CountsStore (Self.Log.store_faults log) (counts self.old) (counts self.new) }
        ensures back { IsBack (lent self.old) (lent self.new) }
        ensures terms { terms self.new ≡ terms self.old }
        ensures kept { kept self.new ≡ kept self.old };

    /// Is told the reports of a term and the journals of its accounts, before these are folded.
    fn ended(
        &mut self,
        alloc: Global,
        reports: Vec<Self::Report>,
        journals: &[(u32, &Journal)],
    ) -> Result<(), SiteFault>
        ensures added { OnOk result (AddsTerm reports.items journals.now (terms self.old) (terms self.new)) }
        ensures refused { OnErr result (terms self.new ≡ terms self.old) }
        ensures cause { HasCause result (counts self.old) (counts self.new) }
        ensures lent { lent self.new ≡ lent self.old }
        ensures kept { kept self.new ≡ kept self.old }
        ensures logs { logs self.new ≡ logs self.old };
}
