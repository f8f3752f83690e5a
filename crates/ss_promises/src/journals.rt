//! A running journal is a list of requests.

ghost use Rattle.std.specs.Prelude.{◌≡◌, ℕ, false, take, slice_get, Some, option_map};
ghost use Rattle.ss_query.specs.declared.replies.Mark.TheVariants.{Done};
ghost use Rattle.ss_query.specs.Flat.{Turn, after_all, flat, turns};
ghost use Rattle.ss_laws.specs.declared.journal.Entry.{Entry};
ghost use Rattle.ss_laws.specs.Journal.{Journal};
ghost use Rattle.ss_laws.specs.Journals.{IsLegal, account_after, reply_at};
ghost use Rattle.ss_laws.specs.Laws.{BatchLaw, is_of_batch};
ghost use Rattle.ss_promises.specs.Journals.{ask_of, asks_of};

use ss_laws::batch_law;

/// A journal in which requests ended for want of memory or by their keeper's failure is a list of requests with bare
/// readings of the clock in their place: it passes through the same accounts, and each request that was done has the
/// same reply. So the batch law is one of running journals: what their batches do is what plain POSTs of the same parts
/// do.
pub fn journals_are_lists()
    ensures accounts { (journal : Journal) (place : ℕ) → account_after journal.opening (take place journal.entries)
        ≡ after_all journal.opening (asks_of (take place journal.entries)) }
    ensures replies { (journal : Journal) (place : ℕ) (entry : Entry) → slice_get journal.entries place ≡ Some entry
        → entry.mark ≡ Done
        → slice_get (turns journal.opening (asks_of journal.entries)) place
        ≡ Some (record { ask = ask_of entry; reply = reply_at journal place }) }
    ensures batches { (journal : Journal) → IsLegal journal → BatchLaw journal.opening (asks_of journal.entries) }
    ensures alike { (journal : Journal) (place : ℕ) (entry : Entry) → IsLegal journal
        → slice_get journal.entries place ≡ Some entry → entry.mark ≡ Done → is_of_batch entry.request ≡ false
        → option_map (λ (turn : Turn). turn.reply)
        (slice_get (turns journal.opening (flat journal.opening (asks_of journal.entries))) place)
        ≡ Some (reply_at journal place) }
{
    batch_law();
}
