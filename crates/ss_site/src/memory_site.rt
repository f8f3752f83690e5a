//! A site in memory.

ghost use Rattle.std.specs.Prelude.{◌≡◌, ◌⊎◌, ℕ, [], All, true, Some, None, IfOk, IfErr, OnOk, OnErr, map};
ghost use Rattle.std.specs.Prelude.{option_and_then};
ghost use Rattle.std.specs.Option.{option_copied};
ghost use Rattle.ss_links.specs.Counts.{RoseBy};
ghost use Rattle.ss_links.specs.Stores.{Files, files_of};
ghost use Rattle.ss_site.specs.Sites.{Counts, LentParts, Term, HasCause, HasKeeperCause, HasLent, HasLentKeeper};
ghost use Rattle.ss_site.specs.Sites.{IsBack};
ghost use Rattle.ss_site.specs.Sites.{IsEntry, GivesOneMore, HasRetired, StaysTold, CountsKeeper, CountsPort};
ghost use Rattle.ss_site.specs.Sites.{CountsStore};
ghost use Rattle.ss_site.specs.Sites.{AddsTerm};
ghost use Rattle.ss_site.specs.Tables.{entries_of, held_of, knows, place_given};

use crate::counted_keeper::CountedKeeper;
use crate::counted_port::CountedPort;
use crate::counted_store::CountedStore;
use crate::site::{NoKeeper, Site, SiteFault};
use crate::table::Table;
use ss_bso::Kept;
use ss_keeper::{KeepFault, MemKeeper};
use ss_laws::Journal;
use ss_links::{MemPort, MemStore};
use ss_outside::{CountClock, Faults, Numbered};
use std::alloc::{AllocError, Global};

/// A term as a site in memory keeps it.
#[derive(Drop)]
pub struct KeptTerm<T> {
    pub reports: Vec<T>,
    pub journals: Vec<(u32, Journal)>,
}

/// A site in memory. It gives its ports in order; past the last one a call of `listen` is a fault. It tells what is
/// kept as long as each keeper comes back to a folder and uid of which it gave one, and all terms. It has one store of
/// logs, whatever the folder, and tells the logs while that isn't out; while it is, a call of `log` is a fault.
#[derive(Drop)]
pub struct MemSite<T> {
    // From the last one to the next one.
    ports: Vec<MemPort>,
    first: u64,
    table: Table,
    is_told: bool,
    terms: Vec<KeptTerm<T>>,
    // None as long as the store that holds them is out.
    logs: Option<MemStore>,
    faults: u64,
    failed: u64,
    damaged: u64,
    links: u64,
    ends: u64,
    rests: u64,
    given: u64,
    back: u64,
    // Of the ports that it gave.
    addresses: Vec<String>,
    // Of the keepers that it gave. Each has an entry.
    keepers: Vec<(String, u32)>,
    failing: Numbered,
    wanting: Numbered,
    damaging: Numbered,
    ghost known: { All (λ place. knows table place ≡ true) (map place_given keepers.items) },
}

impl<T> MemSite<T> {
    ghost use Rattle.ss_site.specs.Memories.{site_counts, site_lent, site_terms, site_kept, site_logs};

    /// A site that gives these ports and clocks that count from `first`, and keeps these entries: of several under one
    /// folder and uid the first counts, and where there is none a fresh one is kept. The calls of `listen`, `keeper`,
    /// `log` and `ended` with the numbers `failing` fail, counted together from 1.
    pub fn new(
        alloc: Global,
        mut ports: Vec<MemPort>,
        first: u64,
        kept: Vec<(String, u32, Kept)>,
        failing: Vec<u64>,
    ) -> Result<MemSite<T>, AllocError>
        ensures counts { IfOk result (λ site. site_counts site ≡ record {
          faults = 0;
          refused = record { failed = 0; damaged = 0 };
          links = 0;
          ends = 0;
          rests = 0;
        }) }
        ensures lent { IfOk result (λ site. site_lent site ≡ record {
          given = 0;
          back = 0;
          addresses = [];
          keepers = [];
          readings = None;
        }) }
        ensures terms { IfOk result (λ site. site_terms site ≡ Some []) }
        ensures kept { IfOk result (λ site. site_kept site ≡ Some (entries_of (map held_of kept.items))) }
        ensures logs { IfOk result (λ site. site_logs site ≡ Some (files_of [])) }
    {
        let mut table = Table::new(alloc);
        for (folder, uid, kept) in kept {
            table.push(alloc, folder, uid, kept)?;
        }
        ports.reverse();
        Ok(MemSite {
            ports,
            first,
            table,
            is_told: true,
            terms: Vec::new(alloc),
            logs: Some(MemStore::new(Vec::new(alloc), Vec::new(alloc))),
            faults: 0,
            failed: 0,
            damaged: 0,
            links: 0,
            ends: 0,
            rests: 0,
            given: 0,
            back: 0,
            addresses: Vec::new(alloc),
            keepers: Vec::new(alloc),
            failing: Numbered::new(failing),
            wanting: Numbered::new(Vec::new(alloc)),
            damaging: Numbered::new(Vec::new(alloc)),
        })
    }

    /// The same site, whose calls of `listen`, `keeper`, `log` and `ended` with the numbers `wanting` find no memory,
    /// unless they fail.
    pub fn without_memory(mut self, wanting: Vec<u64>) -> MemSite<T>
        ensures counts { site_counts result ≡ site_counts self }
        ensures lent { site_lent result ≡ site_lent self }
        ensures terms { site_terms result ≡ site_terms self }
        ensures kept { site_kept result ≡ site_kept self }
        ensures logs { site_logs result ≡ site_logs self }
    {
        self.wanting = Numbered::new(wanting);
        self
    }

    /// The same site, whose calls of `keeper` with the numbers `damaging`, counted from 1, find no account in what is
    /// kept, unless they fail or find no memory.
    pub fn with_damage(mut self, damaging: Vec<u64>) -> MemSite<T>
        ensures counts { site_counts result ≡ site_counts self }
        ensures lent { site_lent result ≡ site_lent self }
        ensures terms { site_terms result ≡ site_terms self }
        ensures kept { site_kept result ≡ site_kept self }
        ensures logs { site_logs result ≡ site_logs self }
    {
        self.damaging = Numbered::new(damaging);
        self
    }

    /// The same site without logs, in whose store of logs the calls with the numbers `failing` fail, counted from 1.
    pub fn with_failing_logs(mut self, alloc: Global, failing: Vec<u64>) -> MemSite<T>
        ensures counts { site_counts result ≡ site_counts self }
        ensures lent { site_lent result ≡ site_lent self }
        ensures terms { site_terms result ≡ site_terms self }
        ensures kept { site_kept result ≡ site_kept self }
        ensures logs { site_logs result ≡ Some (files_of []) }
    {
        self.logs = Some(MemStore::new(Vec::new(alloc), failing));
        self
    }

    /// The log with this name; None where there is none, or the logs are out.
    pub fn log_of(&self, name: &str) -> Option<&[u8]>
        ensures { option_copied result ≡ option_and_then (λ files. files name.now) (site_logs self.now) }
    {
        match &self.logs {
            Some(logs) => logs.file(name),
            None => None,
        }
    }

    /// The terms that it was told, in order.
    pub fn terms(&self) -> &[KeptTerm<T>] {
        self.terms.as_slice()
    }

    // Fails, and counts it.
    fn fail(&mut self) -> SiteFault
        ensures cause { HasCause {T = Unit {0}} (Err result) (site_counts self.old) (site_counts self.new) }
        ensures lent { site_lent self.new ≡ site_lent self.old }
        ensures terms { site_terms self.new ≡ site_terms self.old }
        ensures kept { site_kept self.new ≡ site_kept self.old }
        ensures logs { site_logs self.new ≡ site_logs self.old }
    {
        self.faults = self.faults.saturating_add(1);
        self.failed = self.failed.saturating_add(1);
        SiteFault::Fault
    }

    // Finds damage, and counts it.
    fn find_damage(&mut self) -> NoKeeper
        ensures cause { HasKeeperCause {T = Unit {0}} (Err result) (site_counts self.old) (site_counts self.new) }
        ensures lent { site_lent self.new ≡ site_lent self.old }
        ensures terms { site_terms self.new ≡ site_terms self.old }
        ensures kept { site_kept self.new ≡ site_kept self.old }
        ensures logs { site_logs self.new ≡ site_logs self.old }
    {
        self.faults = self.faults.saturating_add(1);
        self.damaged = self.damaged.saturating_add(1);
        NoKeeper::Damaged
    }

    // Begins a call that can fail, by the plans.
    fn begin_call(&mut self) -> Result<(), SiteFault>
        ensures cause { HasCause result (site_counts self.old) (site_counts self.new) }
        ensures lent { site_lent self.new ≡ site_lent self.old }
        ensures terms { site_terms self.new ≡ site_terms self.old }
        ensures kept { site_kept self.new ≡ site_kept self.old }
        ensures logs { site_logs self.new ≡ site_logs self.old }
    {
        let wants = self.wanting.fails();
        if self.failing.fails() {
            return Err(self.fail());
        }
        if wants {
            return Err(SiteFault::Memory);
        }
        Ok(())
    }

    // Counts a keeper, a port or a store that is given.
    fn lend(&mut self)
        ensures given { GivesOneMore (site_lent self.old) (site_lent self.new) }
        ensures counts { site_counts self.new ≡ site_counts self.old }
        ensures terms { site_terms self.new ≡ site_terms self.old }
        ensures kept { site_kept self.new ≡ site_kept self.old }
        ensures logs { site_logs self.new ≡ site_logs self.old }
    {
        self.given = self.given.saturating_add(1);
    }
}

/// Copies of journals.
fn copies_of(alloc: Global, journals: &[(u32, &Journal)]) -> Result<Vec<(u32, Journal)>, AllocError>
    ensures { IfOk result (λ copies. copies.items ≡ map (λ journal. (journal.0, journal.1.now)) journals.now) }
{
    let mut copies = Vec::new(alloc);
    for (uid, journal) in journals {
        copies.push((*uid, journal.copy(alloc)?))?;
    }
    Ok(copies)
}

impl<T: Drop> Site for MemSite<T> {
    ghost use Rattle.ss_site.specs.Memories.{site_counts, site_lent, site_terms, site_kept, site_logs};

    type Port = CountedPort<MemPort>;

    type Keeper = CountedKeeper<MemKeeper>;

    type Clock = CountClock;

    type Log = CountedStore<MemStore>;

    type Report = T;

    ghost counts = { λ site. site_counts site };

    ghost lent = { λ site. site_lent site };

    ghost terms = { λ site. site_terms site };

    ghost kept = { λ site. site_kept site };

    ghost logs = { λ site. site_logs site };

    fn listen(&mut self, alloc: Global, address: &str) -> Result<CountedPort<MemPort>, SiteFault> {
        self.begin_call()?;
        if self.ports.is_empty() {
            return Err(self.fail());
        }
        let Ok(address) = String::from_str(alloc, address) else {
            return Err(SiteFault::Memory);
        };
        if self.addresses.reserve(1).is_err() {
            return Err(SiteFault::Memory);
        }
        match self.ports.pop() {
            Some(port) => {
                self.addresses.push_reserved(address);
                self.lend();
                Ok(CountedPort::new(port))
            }
            None => Err(self.fail()),
        }
    }

    fn keeper(
        &mut self,
        alloc: Global,
        folder: &str,
        uid: u32,
    ) -> Result<CountedKeeper<MemKeeper>, NoKeeper> {
        let is_damaged = self.damaging.fails();
        self.begin_call()?;
        if is_damaged {
            return Err(self.find_damage());
        }
        let Ok(name) = String::from_str(alloc, folder) else {
            return Err(NoKeeper::Memory);
        };
        if self.keepers.reserve(1).is_err() {
            return Err(NoKeeper::Memory);
        }
        match self.table.copy_of(alloc, folder, uid) {
            Ok(kept) => {
                self.keepers.push_reserved((name, uid));
                self.lend();
                Ok(CountedKeeper::new(MemKeeper::new(kept, Vec::new(alloc))))
            }
            Err(KeepFault::Fault) => Err(NoKeeper::from(self.fail())),
            Err(KeepFault::Memory) => Err(NoKeeper::Memory),
        }
    }

    fn retire(&mut self, folder: &str, uid: u32, keeper: CountedKeeper<MemKeeper>) {
        self.back = self.back.saturating_add(1);
        if keeper.has_failed() {
            self.faults = self.faults.saturating_add(1);
        }
        if !self.table.put(folder, uid, keeper) {
            self.is_told = false;
        }
    }

    fn shut(&mut self, port: CountedPort<MemPort>) {
        self.back = self.back.saturating_add(1);
        if port.faults() != 0 {
            self.faults = self.faults.saturating_add(1);
        }
        if port.ends() != 0 {
            self.ends = self.ends.saturating_add(1);
        }
        self.links = self.links.saturating_add(port.links());
        self.rests = self.rests.saturating_add(port.rests());
        drop(port);
    }

    fn clock(&mut self) -> CountClock {
        CountClock::new(self.first)
    }

    fn log(&mut self, _alloc: Global, _folder: &str) -> Result<CountedStore<MemStore>, SiteFault> {
        self.begin_call()?;
        match self.logs.take() {
            Some(logs) => {
                self.lend();
                Ok(CountedStore::new(logs))
            }
            None => Err(self.fail()),
        }
    }

    fn shelve(&mut self, log: CountedStore<MemStore>) {
        self.back = self.back.saturating_add(1);
        if log.has_failed() {
            self.faults = self.faults.saturating_add(1);
        }
        self.logs = Some(log.into_store());
    }

    fn ended(
        &mut self,
        alloc: Global,
        reports: Vec<T>,
        journals: &[(u32, &Journal)],
    ) -> Result<(), SiteFault>
        ensures added { OnOk result (AddsTerm {R = T} reports.items journals.now (site_terms self.old)
            (site_terms self.new)) }
        ensures refused { OnErr result (site_terms self.new ≡ site_terms self.old) }
        ensures cause { HasCause result (site_counts self.old) (site_counts self.new) }
        ensures lent { site_lent self.new ≡ site_lent self.old }
        ensures kept { site_kept self.new ≡ site_kept self.old }
        ensures logs { site_logs self.new ≡ site_logs self.old }
    {
        self.begin_call()?;
        let Ok(journals) = copies_of(alloc, journals) else {
            return Err(SiteFault::Memory);
        };
        match self.terms.push(KeptTerm { reports, journals }) {
            Ok(()) => Ok(()),
            Err(_) => Err(SiteFault::Memory),
        }
    }
}
