//! What holds of logs.

ghost use Rattle.std.specs.Prelude.{◌≡◌, ◌∷◌, [], ℕ, List, All, IfOk, IfErr};
ghost use Rattle.std.specs.List.{AllByRecursion};
ghost use Rattle.ss_bso.specs.Validity.{SameAccount};
ghost use Rattle.ss_laws.specs.Journal.{Journal as JournalView};
ghost use Rattle.ss_log_lines.specs.LogLines.{IsEntry};
ghost use Rattle.ss_logs.specs.declared.faults.LogFault.{LogFault as FaultView};
ghost use Rattle.ss_logs.specs.declared.faults.LogFault.TheVariants.{Memory};
ghost use Rattle.ss_logs.specs.Logs.{AreLogs, HasJournalForm, IsWhyNoLogs, log_of, log_text};
ghost use Rattle.ss_query.specs.Fit.{IsFitRequest};

use crate::faults::LogFault;
use crate::logs::Log;
use crate::reading::read_logs;
use crate::writing::write_log;
use ss_dump::account_form;
use ss_laws::{Entry, Journal};
use ss_log_lines::entry_form;
use std::alloc::Global;

/// A text is that of one list of logs at most.
pub fn one_list_of_logs()
    ensures { (text : List ℕ) (logs others : List JournalView) → AreLogs text logs → AreLogs text others → logs ≡ others }
{}

/// A text of logs is refused for no cause but want of memory: so exactly the texts of logs are read.
pub fn logs_are_not_refused()
    ensures { (text : List ℕ) (logs : List JournalView) (fault : FaultView) → AreLogs text logs → IsWhyNoLogs text fault
        → fault ≡ Memory }
{}

/// The log of a journal tells this journal, the lists of its opening in order, and no other; its opening is the same account,
/// whatever the order of its lists. Each value of the journal has the form of its type, and each request is within the
/// limits of one.
pub fn a_log_tells_its_journal()
    ensures log { (journal : JournalView) → HasJournalForm journal → AreLogs (log_text journal) (log_of journal ∷ []) }
    ensures no_other { (journal : JournalView) (logs : List JournalView) → HasJournalForm journal → AreLogs (log_text journal) logs
        → logs ≡ log_of journal ∷ [] }
    ensures same { (journal : JournalView) → SameAccount journal.opening (log_of journal).opening }
{}

/// The values of entries have their forms.
fn entries_form(entries: &[Entry])
    ensures { AllByRecursion IsEntry entries.now }
{
    for entry in entries {
        entry_form(entry);
    }
}

/// Each value of a journal has the form of its type, where each request is within the limits of one.
pub fn journal_form(journal: &Journal)
    requires fit { All (λ entry. IsFitRequest entry.request) journal.now.entries }
    ensures { HasJournalForm journal.now }
{
    let opening = journal.opening();
    let _moment = opening.moment.get();
    let _most = journal.most();
    account_form(opening);
    entries_form(journal.entries());
}

/// Writes the log of a journal and reads it: that gives the journal, the lists of its opening in order, unless memory is
/// wanting. Each request is within the limits of one, as in every legal journal.
pub fn read_written_log(alloc: Global, journal: &Journal) -> Result<Vec<Log>, LogFault>
    requires fit { All (λ entry. IsFitRequest entry.request) journal.now.entries }
    ensures read { IfOk result (λ logs. logs.items ≡ log_of journal.now ∷ []) }
    ensures memory { IfErr result (λ fault. fault ≡ Memory) }
{
    journal_form(journal);
    let text = write_log(alloc, journal)?;
    read_logs(alloc, text.as_slice())
}
