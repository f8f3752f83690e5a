//! The book of a server's logs: what is saved of each term.

ghost use Rattle.std.specs.Prelude.{◌≡◌, ◌∷◌, [], ℕ, map, is_some, string_bytes, IfOk, IfErr, OnOk, OnErr};
ghost use Rattle.ss_outside.specs.Plans.{raised_count};
ghost use Rattle.ss_laws.specs.Journal.{Journal as JournalView};
ghost use Rattle.ss_booked.specs.Booked.{journal_of};
ghost use Rattle.ss_site.specs.Sites.{Counts};
ghost use Rattle.ss_run_serve.specs.Logs.{log_name, saved_of, logs_of_term, AreSavedLogs, ArePartlySaved, IsWhyUnsaved};
ghost use Rattle.ss_run_serve.specs.Once.{IsUntold};
ghost use Rattle.ss_run_serve.specs.Logbooks.{number_in, is_kept, files_in, failures_in, IsBookOf, IsLentFor};
ghost use Rattle.ss_run_serve.specs.Logbooks.{LeavesLogs};
ghost use Rattle.ss_run_serve.specs.Logbooks.{ClosesBook};

use crate::lines;
use crate::stop::Stop;
use ss_booked::Booked;
use ss_keeper::Keeper;
use ss_laws::Journal;
use ss_links::{Store, StoreFault};
use ss_logs::write_log;
use ss_outside::Sink;
use ss_site::{Site, SiteFault};
use ss_words::ServeCommand;
use std::alloc::{AllocError, Global};

/// The greatest log that is saved, in bytes.
const MOST_LOG_BYTES: usize = 268_435_456;

/// Where the logs of a server's terms are saved, if they are, and the number of the next term.
pub(crate) struct Logbook<S> {
    store: Option<S>,
    number: u64,
}

/// The name of an account's log in the term of a number.
fn log_name(alloc: Global, uid: u32, number: u64) -> Result<String, AllocError>
    ensures { IfOk result (λ name. string_bytes name ≡ log_name uid number) }
{
    format!(in alloc; "{uid}-{number}")
}

impl<S: Store> Logbook<S> {
    // Saves a text under a name, where logs are kept.
    fn save_text(&mut self, alloc: Global, name: &str, text: &[u8]) -> Result<(), Stop>
        ensures saved { OnOk result (AreSavedLogs ((name.now, text.now) ∷ []) (files_in S.held self.old)
            (files_in S.held self.new)) }
        ensures refused { OnErr result (files_in S.held self.new ≡ files_in S.held self.old) }
        ensures cause { IfErr result (λ stop. IsWhyUnsaved (failures_in S.store_faults self.new) stop) }
        ensures number { number_in self.new ≡ number_in self.old }
        ensures same { is_kept self.new ≡ is_kept self.old }
    {
        match &mut self.store {
            Some(store) => match store.save(alloc, name, text) {
                Ok(()) => Ok(()),
                Err(StoreFault::Fault) => Err(Stop::Logs),
                Err(StoreFault::Memory) => Err(Stop::Memory),
            },
            None => Ok(()),
        }
    }

    // Saves the log of an account's journal, unless it is too large, which is told.
    fn save<T: Sink>(
        &mut self,
        alloc: Global,
        err: &mut T,
        uid: u32,
        journal: &Journal,
    ) -> Result<(), Stop>
        ensures saved { OnOk result (AreSavedLogs (saved_of (number_in self.old) (uid, journal.now))
            (files_in S.held self.old) (files_in S.held self.new)) }
        ensures refused { OnErr result (files_in S.held self.new ≡ files_in S.held self.old) }
        ensures cause { IfErr result (λ stop. IsWhyUnsaved (failures_in S.store_faults self.new) stop) }
        ensures number { number_in self.new ≡ number_in self.old }
        ensures same { is_kept self.new ≡ is_kept self.old }
    {
        let Ok(text) = write_log(alloc, journal) else {
            return Err(Stop::Memory);
        };
        if text.len() > MOST_LOG_BYTES {
            lines::tell_too_large(alloc, err, uid, text.len());
            return Ok(());
        }
        let Ok(name) = log_name(alloc, uid, self.number) else {
            return Err(Stop::Memory);
        };
        let saved = self.save_text(alloc, name.as_str(), text.as_slice());
        lines::tell_log(alloc, err, name.as_str(), saved.is_ok());
        saved
    }

    // Saves the log of each of these accounts, in order.
    fn save_each<K: Keeper, T: Sink>(
        &mut self,
        alloc: Global,
        err: &mut T,
        accounts: &[(u32, Booked<K>)],
    ) -> Result<(), Stop>
        ensures saved { OnOk result (AreSavedLogs (logs_of_term (number_in self.old) (map {B = ℕ
            × JournalView} (λ account. (account.0, journal_of account.1)) accounts.now)) (files_in S.held self.old)
            (files_in S.held self.new)) }
        ensures partly { OnErr result (ArePartlySaved (logs_of_term (number_in self.old) (map {B = ℕ
            × JournalView} (λ account. (account.0, journal_of account.1)) accounts.now)) (files_in S.held self.old)
            (files_in S.held self.new)) }
        ensures cause { IfErr result (λ stop. IsWhyUnsaved (failures_in S.store_faults self.new) stop) }
        ensures number { number_in self.new ≡ number_in self.old }
        ensures same { is_kept self.new ≡ is_kept self.old }
    {
        for (uid, booked) in accounts {
            if let Err(stop) = self.save(alloc, err, *uid, booked.journal()) {
                return Err(stop);
            }
        }
        Ok(())
    }

    /// Saves the log of each of these accounts, in order, where logs are kept, and goes on to the next term's number. After
    /// an Err those that come first are saved.
    pub(crate) fn save_term<K: Keeper, T: Sink>(
        &mut self,
        alloc: Global,
        err: &mut T,
        accounts: &[(u32, Booked<K>)],
    ) -> Result<(), Stop>
        ensures saved { OnOk result (AreSavedLogs (logs_of_term (number_in self.old) (map {B = ℕ
            × JournalView} (λ account. (account.0, journal_of account.1)) accounts.now)) (files_in S.held self.old)
            (files_in S.held self.new)) }
        ensures partly { OnErr result (ArePartlySaved (logs_of_term (number_in self.old) (map {B = ℕ
            × JournalView} (λ account. (account.0, journal_of account.1)) accounts.now)) (files_in S.held self.old)
            (files_in S.held self.new)) }
        ensures cause { IfErr result (λ stop. IsWhyUnsaved (failures_in S.store_faults self.new) stop) }
        ensures number { OnOk result (number_in self.new ≡ raised_count (number_in self.old)) }
        ensures same { is_kept self.new ≡ is_kept self.old }
    {
        if self.store.is_some() {
            if let Err(stop) = self.save_each(alloc, err, accounts) {
                return Err(stop);
            }
        }
        self.number = self.number.saturating_add(1);
        Ok(())
    }
}

/// The book of a command's logs, of which none are kept where it names no folder.
pub(crate) fn open_book<X: Site>(
    alloc: Global,
    site: &mut X,
    command: &ServeCommand,
) -> Result<Logbook<X::Log>, Stop>
    ensures book { IfOk result (λ book. IsBookOf command.now.logs (is_kept book) (number_in book)
        (files_in X.Log.held book) (X.logs site.old)) }
    ensures fresh { IfOk result (λ book. failures_in X.Log.store_faults book ≡ 0) }
    ensures lent { IfOk result (λ book. IsLentFor (is_kept book) (X.lent site.old) (X.lent site.new)) }
    ensures left { IfOk result (λ book. LeavesLogs (is_kept book) (X.logs site.old) (X.logs site.new)) }
    ensures counts { OnOk result (X.counts site.new ≡ X.counts site.old) }
    ensures refused { IfErr result (λ stop. IsUntold (X.counts site.old) (X.counts site.new) stop) }
    ensures unlent { OnErr result (X.lent site.new ≡ X.lent site.old) }
    ensures unlogged { OnErr result (X.logs site.new ≡ X.logs site.old) }
    ensures terms { X.terms site.new ≡ X.terms site.old }
    ensures kept { X.kept site.new ≡ X.kept site.old }
{
    match &command.logs {
        None => Ok(Logbook {
            store: None,
            number: 1,
        }),
        Some(logs) => match site.log(alloc, logs.folder.as_str()) {
            Ok(log) => Ok(Logbook {
                store: Some(log),
                number: logs.from,
            }),
            Err(SiteFault::Fault) => Err(Stop::Site),
            Err(SiteFault::Memory) => Err(Stop::Memory),
        },
    }
}

/// Gives the store of a book back to its site.
pub(crate) fn close_book<X: Site>(site: &mut X, book: Logbook<X::Log>)
    ensures closed { ClosesBook (is_kept book) (files_in X.Log.held book) (failures_in X.Log.store_faults book)
        (X.counts site.old) (X.counts site.new) (X.logs site.old) (X.logs site.new) (X.lent site.old) (X.lent site.new) }
    ensures terms { X.terms site.new ≡ X.terms site.old }
    ensures kept { X.kept site.new ≡ X.kept site.old }
{
    let Logbook { store, number: _ } = book;
    match store {
        Some(log) => site.shelve(log),
        None => {}
    }
}
