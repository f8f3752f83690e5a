//! The site of the system.

ghost use Rattle.std.specs.Prelude.{◌≡◌, [], Err, IfOk, None, OnOk, OnErr};
ghost use Rattle.ss_site.specs.Counted.{faults_of};
ghost use Rattle.ss_site.specs.Sites.{HasCause, HasKeeperCause, GivesOneMore, AddsTerm, RoseUnless};
ghost use Rattle.ss_real_site.specs.Files.{counted_in};
ghost use Rattle.ss_real_site.specs.Real.{no_entries, no_logs, no_terms};

use crate::account_file::AccountFile;
use crate::log_files::LogFiles;
use crate::trouble::Trouble;
use sqlite::{Error, ErrorCode};
use ss_keep_sql::{FileFault, SqlFault, SqlKeeper};
use ss_laws::Journal;
use ss_links::{ServedLink, TcpPort, Traffic};
use ss_outside::SystemClock;
use ss_serve::LinkReport;
use ss_site::{CountedPort, NoKeeper, Site, SiteFault};
use std::alloc::{AllocError, Global};
use std::fs;
use std::io::{self, ErrorKind};
use std::marker::Model;
use std::net::Net;
use std::time::Clock;

/// What becomes of a folder that isn't there.
#[derive(Clone, Copy, Debug, PartialEq, Eq)]
pub enum Folders {
    /// It is made.
    Made,

    /// It is missed: no keeper is given.
    Missed,
}

/// Ports over TCP, a database of SQLite for each account, `<folder>/<uid>.db`, and the clock of the system. A folder that
/// isn't there is made or missed; a file that isn't there is made. Logs are files of a folder, which is made. What it is
/// told of a term it drops.
#[derive(Drop)]
pub struct RealSite<'a, N: Net + Clock> {
    // The ports and the clocks of the system.
    network: &'a N,
    // What a port and its links share with the gate.
    traffic: &'a Traffic,
    files: &'a HostRuntime,
    folders: Folders,
    // The account whose database was opened last, where its file was made for that.
    made: Option<u32>,
    trouble: Option<Trouble>,
    faults: u64,
    failed: u64,
    damaged: u64,
    links: u64,
    ends: u64,
    rests: u64,
    given: u64,
    back: u64,
    // Of the ports that it gave.
    addresses: Vec<String>,
    // The folders and uids of the keepers that it gave.
    keepers: Vec<(String, u32)>,
}

impl<'a, N: Net + Clock> Model for RealSite<'a, N> {
    ghost use Rattle.std.specs.Prelude.{map, string_bytes, None};
    ghost use Rattle.ss_site.specs.Tables.{place_given};
    ghost use Rattle.ss_real_site.specs.Real.{Tally};

    ghost Value = { Tally };

    ghost view = { λ site. record {
      counts = record {
        faults = site.faults;
        refused = record { failed = site.failed; damaged = site.damaged };
        links = site.links;
        ends = site.ends;
        rests = site.rests;
      };
      lent = record {
        given = site.given;
        back = site.back;
        addresses = map string_bytes site.addresses.items;
        keepers = map place_given site.keepers.items;
        readings = None;
      };
    } };
}

impl<'a, N: Net + Clock> RealSite<'a, N> {
    /// A site whose ports and clocks are of this network, and whose databases are files of the system. The traffic is
    /// that of its port; who serves passes the gate over the same.
    pub fn new(
        network: &'a N,
        files: &'a HostRuntime,
        traffic: &'a Traffic,
        folders: Folders,
    ) -> RealSite<'a, N>
        ensures counts { result.counts ≡ record {
          faults = 0;
          refused = record { failed = 0; damaged = 0 };
          links = 0;
          ends = 0;
          rests = 0;
        } }
        ensures lent { result.lent ≡ record { given = 0; back = 0; addresses = []; keepers = []; readings = None } }
    {
        RealSite {
            network,
            traffic,
            files,
            folders,
            made: None,
            trouble: None,
            faults: 0,
            failed: 0,
            damaged: 0,
            links: 0,
            ends: 0,
            rests: 0,
            given: 0,
            back: 0,
            addresses: Vec::new(files.alloc()),
            keepers: Vec::new(files.alloc()),
        }
    }

    /// What failed last, for people.
    pub fn trouble(&self) -> Option<Trouble> {
        self.trouble
    }

    /// The account whose database was opened last, where its file wasn't there before.
    pub fn made(&self) -> Option<u32> {
        self.made
    }

    // Sees to it that the folder is there.
    fn find_folder(&mut self, folder: &str) -> Result<(), SiteFault>
        ensures cause { HasCause result self.old.counts self.new.counts }
        ensures lent { self.new.lent ≡ self.old.lent }
    {
        if let Folders::Missed = self.folders {
            return match fs::exists(self.files, folder) {
                Ok(true) => Ok(()),
                Ok(false) => Err(self.fail(Trouble::NoFolder)),
                Err(error) => {
                    let kind = error.kind();
                    Err(self.fault_of(error, Trouble::NoAccess(kind)))
                }
            };
        }
        match fs::create_dir_all(self.files, folder) {
            Ok(()) => Ok(()),
            Err(error) => {
                let kind = error.kind();
                Err(self.fault_of(error, Trouble::Folder(kind)))
            }
        }
    }

    // The account in a file, which is made where it isn't there.
    fn open(&mut self, uid: u32, path: &str) -> Result<AccountFile, NoKeeper>
        ensures fresh { IfOk result (λ file. faults_of (counted_in file) ≡ 0) }
        ensures cause { HasKeeperCause result self.old.counts self.new.counts }
        ensures lent { self.new.lent ≡ self.old.lent }
    {
        let is_new = matches!(fs::exists(self.files, path), Ok(false));
        let opened = SqlKeeper::open_file(self.files, path);
        match opened {
            Ok(keeper) => {
                self.made = if is_new { Some(uid) } else { None };
                Ok(AccountFile::new(keeper))
            }
            Err(FileFault::Unopened { error }) => Err(NoKeeper::from(self.refusal_of(uid, error))),
            Err(FileFault::Refused { fault }) => Err(self.rejection_of(uid, fault)),
        }
    }

    // Counts a fault, and keeps what it was.
    fn fail(&mut self, trouble: Trouble) -> SiteFault
        ensures cause { HasCause {T = Unit {0}} (Err result) self.old.counts self.new.counts }
        ensures lent { self.new.lent ≡ self.old.lent }
    {
        self.trouble = Some(trouble);
        self.faults = self.faults.saturating_add(1);
        self.failed = self.failed.saturating_add(1);
        SiteFault::Fault
    }

    // Counts what is kept and is no account, and keeps what it was.
    fn find_damage(&mut self, trouble: Trouble) -> NoKeeper
        ensures cause { HasKeeperCause {T = Unit {0}} (Err result) self.old.counts self.new.counts }
        ensures lent { self.new.lent ≡ self.old.lent }
    {
        self.trouble = Some(trouble);
        self.faults = self.faults.saturating_add(1);
        self.damaged = self.damaged.saturating_add(1);
        NoKeeper::Damaged
    }

    // Counts a keeper, a port or a store that is given.
    fn lend(&mut self)
        ensures given { GivesOneMore self.old.lent self.new.lent }
        ensures counts { self.new.counts ≡ self.old.counts }
    {
        self.given = self.given.saturating_add(1);
    }

    // Counts a port that failed so often.
    fn count_failed_port(&mut self, faults: u64)
        ensures faults { RoseUnless faults self.old.counts.faults self.new.counts.faults }
        ensures rest { self.new ≡ record self.old { counts = record self.old.counts { faults = self.new.counts.faults } } }
    {
        if faults != 0 {
            self.trouble = Some(Trouble::Port);
            self.faults = self.faults.saturating_add(1);
        }
    }

    // Counts a port that found its end so often.
    fn count_ended_port(&mut self, ends: u64)
        ensures ends { RoseUnless ends self.old.counts.ends self.new.counts.ends }
        ensures rest { self.new ≡ record self.old { counts = record self.old.counts { ends = self.new.counts.ends } } }
    {
        if ends != 0 {
            self.ends = self.ends.saturating_add(1);
        }
    }

    // What an error of the system is to the site, which counts it where memory isn't all that is wanting.
    fn fault_of(&mut self, error: io::Error, trouble: Trouble) -> SiteFault
        ensures cause { HasCause {T = Unit {0}} (Err result) self.old.counts self.new.counts }
        ensures lent { self.new.lent ≡ self.old.lent }
    {
        if error.kind() == ErrorKind::OutOfMemory {
            return SiteFault::Memory;
        }
        self.fail(trouble)
    }

    // What an error of a database is to the site, in the same way.
    fn refusal_of(&mut self, uid: u32, error: Error) -> SiteFault
        ensures cause { HasCause {T = Unit {0}} (Err result) self.old.counts self.new.counts }
        ensures lent { self.new.lent ≡ self.old.lent }
    {
        if error == Error::SqliteFailure(ErrorCode::OutOfMemory) {
            return SiteFault::Memory;
        }
        self.fail(Trouble::Database { uid, error })
    }

    // Why a database that was opened gives no keeper.
    fn rejection_of(&mut self, uid: u32, fault: SqlFault) -> NoKeeper
        ensures cause { HasKeeperCause {T = Unit {0}} (Err result) self.old.counts self.new.counts }
        ensures lent { self.new.lent ≡ self.old.lent }
    {
        match fault {
            SqlFault::Fault => NoKeeper::from(self.fail(Trouble::Tables { uid })),
            SqlFault::Version { found } => {
                NoKeeper::from(self.fail(Trouble::Version { uid, found }))
            }
            SqlFault::Damaged { place } => self.find_damage(Trouble::Damaged { uid, place }),
            SqlFault::Memory => NoKeeper::Memory,
        }
    }
}

/// The path of an account's database.
fn path_of(alloc: Global, folder: &str, uid: u32) -> Result<String, AllocError> {
    format!(in alloc; "{folder}/{uid}.db")
}

impl<'a, N: Net + Clock> Site for RealSite<'a, N> {
    type Port = CountedPort<TcpPort<'a, N>>;

    type Keeper = AccountFile;

    type Clock = SystemClock<'a, N>;

    type Log = LogFiles<'a>;

    type Report = LinkReport<ServedLink<'a, N>>;

    ghost counts = { λ site. site.counts };

    ghost lent = { λ site. site.lent };

    ghost terms = { λ site. None };

    ghost kept = { λ site. no_entries };

    ghost logs = { λ site. no_logs };

    fn listen(
        &mut self,
        alloc: Global,
        address: &str,
    ) -> Result<CountedPort<TcpPort<'a, N>>, SiteFault> {
        let Ok(copy) = String::from_str(alloc, address) else {
            return Err(SiteFault::Memory);
        };
        if self.addresses.reserve(1).is_err() {
            return Err(SiteFault::Memory);
        }
        match TcpPort::listen(self.network, alloc, self.traffic, address) {
            Ok(port) => {
                self.addresses.push_reserved(copy);
                self.lend();
                Ok(CountedPort::new(port))
            }
            Err(error) => {
                let kind = error.kind();
                Err(self.fault_of(error, Trouble::Address(kind)))
            }
        }
    }

    fn keeper(&mut self, alloc: Global, folder: &str, uid: u32) -> Result<AccountFile, NoKeeper> {
        let Ok(name) = String::from_str(alloc, folder) else {
            return Err(NoKeeper::Memory);
        };
        let Ok(path) = path_of(alloc, folder, uid) else {
            return Err(NoKeeper::Memory);
        };
        if let Err(fault) = self.find_folder(folder) {
            return Err(NoKeeper::from(fault));
        }
        match self.open(uid, path.as_str()) {
            Ok(file) => {
                if self.keepers.reserve(1).is_err() {
                    return Err(NoKeeper::Memory);
                }
                self.keepers.push_reserved((name, uid));
                self.lend();
                Ok(file)
            }
            Err(missing) => Err(missing),
        }
    }

    fn retire(&mut self, _folder: &str, uid: u32, keeper: AccountFile) {
        self.back = self.back.saturating_add(1);
        if keeper.has_failed() {
            self.trouble = Some(Trouble::Keeper { uid });
            self.faults = self.faults.saturating_add(1);
        }
        keeper.settle(self.files.alloc());
    }

    fn shut(&mut self, port: CountedPort<TcpPort<'a, N>>) {
        self.back = self.back.saturating_add(1);
        self.count_failed_port(port.faults());
        self.count_ended_port(port.ends());
        self.links = self.links.saturating_add(port.links());
        self.rests = self.rests.saturating_add(port.rests());
        drop(port);
    }

    fn clock(&mut self) -> SystemClock<'a, N> {
        SystemClock::new(self.network)
    }

    fn log(&mut self, alloc: Global, folder: &str) -> Result<LogFiles<'a>, SiteFault> {
        match LogFiles::open(self.files, alloc, folder) {
            Ok(log) => {
                self.lend();
                Ok(log)
            }
            Err(error) => {
                let kind = error.kind();
                Err(self.fault_of(error, Trouble::LogFolder(kind)))
            }
        }
    }

    fn shelve(&mut self, log: LogFiles<'a>) {
        self.back = self.back.saturating_add(1);
        if log.has_failed() {
            self.trouble = log.trouble();
            self.faults = self.faults.saturating_add(1);
        }
        drop(log);
    }

    fn ended(
        &mut self,
        _alloc: Global,
        reports: Vec<LinkReport<ServedLink<'a, N>>>,
        journals: &[(u32, &Journal)],
    ) -> Result<(), SiteFault>
        ensures added { OnOk result (AddsTerm reports.entry.items journals.now (no_terms reports.entry.items)
            (no_terms reports.entry.items)) }
        ensures refused { OnErr result (no_terms reports.entry.items ≡ no_terms reports.entry.items) }
        ensures cause { HasCause result self.old.counts self.new.counts }
        ensures lent { self.new.lent ≡ self.old.lent }
        ensures kept { no_entries ≡ no_entries }
        ensures logs { no_logs ≡ no_logs }
    {
        let _ = journals;
        drop(reports);
        Ok(())
    }
}
