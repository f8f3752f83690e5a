//! An account bound to its journal, with what always holds of the two.

ghost use Rattle.std.specs.Prelude.{◌≡◌, ◌≤◌, ◌<◌, length, OnOk, OnErr, IfOk, IfErr, IfSome, None, Some, All};
ghost use Rattle.ss_outside.specs.Causes.{Rose};
ghost use Rattle.ss_bso.specs.Account.{tick};
ghost use Rattle.ss_bso.specs.Validity.{IsValid, SameAccount};
ghost use Rattle.ss_query.specs.declared.replies.Mark.TheVariants.{Keeper as KeeperMark};
ghost use Rattle.ss_query.specs.Fit.{IsFitRequest};
ghost use Rattle.ss_query.specs.Marks.{mark_of};
ghost use Rattle.ss_laws.specs.Journals.{account_after, empty_journal, with_entry, reply_at, IsLegal};
ghost use Rattle.ss_account.specs.Keeping.{AsksOnce, IsKeptBy};
ghost use Rattle.ss_account.specs.Opening.{IsGood};
ghost use Rattle.ss_booked.specs.Sizes.{full_of, is_half_full, most_entries, HadRoom};
ghost use Rattle.ss_booked.specs.Sound.{RoseBy, keeper_marks};

use crate::limits::MOST_JOURNAL_BYTES;
use crate::sizes::bytes_of_request;
use ss_account::Account;
use ss_desk::Full;
use ss_keeper::Keeper;
use ss_laws::{Entry, Journal};
use ss_query::{Reply, Request};
use std::alloc::{AllocError, Global};
use std::marker::Model;
use std::snapshot::Snapshot;

/// An account bound to its journal. Contracts see its uid, the two, and the keeper as it was when the journal was opened.
#[derive(Drop)]
pub(crate) struct Bound<K: Keeper> {
    alloc: Global,
    uid: u32,
    account: Account<K>,
    journal: Journal,

    // What the journal counts for its entries.
    bytes: u64,

    // The keeper as it was when the journal was opened.
    before: Snapshot<K>,
}

impl<K: Keeper> Model for Bound<K> {
    ghost use Rattle.ss_booked.specs.Book.{Book};

    ghost Value = { Book K };

    ghost use Rattle.ss_booked.specs.Sound.{IsSound};

    ghost view = { λ b. record { uid = b.uid; account = b.account; journal = b.journal; before = b.before.value } };

    ghost invariant = { λ b. IsSound (K.told b.account.keeper) b.account.plain b.journal b.bytes (K.keep_faults b.before.value) (K.keep_faults b.account.keeper) };
}

impl<K: Keeper> Bound<K> {
    /// Opens a journal for the account of this uid, with room for so many entries. Where memory is wanting the account
    /// comes back as it was.
    pub(crate) fn open(
        alloc: Global,
        uid: u32,
        account: Account<K>,
        most: u32,
    ) -> Result<Bound<K>, (Account<K>, AllocError)>
        ensures uid { IfOk result (λ b. b.uid ≡ uid) }
        ensures account { IfOk result (λ b. b.account ≡ account) }
        ensures opening { IfOk result (λ b. SameAccount account.plain b.journal.opening) }
        ensures begun { IfOk result (λ b. b.journal ≡ empty_journal b.journal.opening most) }
        ensures before { IfOk result (λ b. b.before ≡ account.keeper) }
        ensures legal { IfOk result (λ b. IsLegal b.journal) }
        ensures roomy { IfOk result (λ b. HadRoom b.journal) }
        ensures returned { IfErr result (λ refused. refused.0 ≡ account) }
    {
        let opening = match account.plain(alloc) {
            Ok(opening) => opening,
            Err(error) => return Err((account, error)),
        };
        let journal = match Journal::new(alloc, opening, most) {
            Ok(journal) => journal,
            Err((_, error)) => return Err((account, error)),
        };
        let before = Snapshot::of(account.keeper());
        Ok(Bound {
            alloc,
            uid,
            account,
            journal,
            bytes: 0,
            before,
        })
    }

    /// Answers a request and enters it, where the journal has room.
    pub(crate) fn call(
        &mut self,
        ticket: u64,
        pass: u32,
        now: u64,
        request: Request,
    ) -> Result<Reply, Full>
        requires fits { IsFitRequest request }
        requires above { All (λ entry. entry.ticket < ticket) self.old.journal.entries }
        ensures uid { self.new.uid ≡ self.old.uid }
        ensures entered { IfOk result (λ reply. self.new.journal ≡ with_entry self.old.journal
            (record { ticket = ticket; pass = pass; now = now; request = request; mark = mark_of reply })) }
        ensures reply { IfOk result (λ reply. reply_at self.new.journal (length self.old.journal.entries)
            ≡ Some reply) }
        ensures had_room { OnOk result (full_of self.old.journal ≡ None) }
        ensures full { IfErr result (λ full. full_of self.old.journal ≡ Some full) }
        ensures unchanged { OnErr result (self.new ≡ self.old) }
        ensures before { self.new.before ≡ self.old.before }
        ensures cause { IfOk result (λ reply. mark_of reply ≡ KeeperMark
            → Rose (K.keep_faults self.old.account.keeper) (K.keep_faults self.new.account.keeper)) }
        ensures quiet { IfOk result (λ reply. (mark_of reply ≡ KeeperMark → ⊥)
            → K.keep_faults self.new.account.keeper ≡ K.keep_faults self.old.account.keeper) }
        ensures called { IfOk result (λ reply. AsksOnce (tick self.old.account.plain now) request (mark_of reply)
            (K.calls self.old.account.keeper) (K.calls self.new.account.keeper)) }
        ensures legal { IsLegal self.new.journal }
        ensures roomy { HadRoom self.new.journal }
        ensures rose { RoseBy (keeper_marks self.new.journal.entries) (K.keep_faults self.new.before)
            (K.keep_faults self.new.account.keeper) }
    {
        if let Some(full) = self.full() {
            return Err(full);
        }
        let bytes = bytes_of_request(&request);
        let reply = self.account.step(self.alloc, now, &request);
        self.bytes += bytes;
        let entry = Entry {
            ticket,
            pass,
            now,
            request,
            mark: reply.mark(),
        };
        self.journal.enter(entry);
        Ok(reply)
    }

    // Whether the journal is full, with the two numbers that say so.
    fn full(&self) -> Option<Full>
        ensures full { result ≡ full_of self.now.journal }
    {
        let entries = self.journal.entries().len();
        if entries == self.journal.most() as usize || self.bytes >= MOST_JOURNAL_BYTES {
            Some(Full {
                entries: entries as u64,
                bytes: self.bytes,
            })
        } else {
            None
        }
    }

    /// Whether the journal is more than half full, by its entries or by its bytes.
    pub(crate) fn is_half_full(&self) -> bool
        ensures { result ≡ is_half_full self.now.journal }
    {
        self.journal.entries().len() > (self.journal.most() / 2) as usize
            || self.bytes > MOST_JOURNAL_BYTES / 2
    }

    /// The journal, lent, with what holds of the two.
    pub(crate) fn journal(&self) -> &Journal
        ensures journal { result.now ≡ self.now.journal }
        ensures leaves { SameAccount (account_after self.now.journal.opening self.now.journal.entries)
            self.now.account.plain }
        ensures valid { IsValid self.now.account.plain }
        ensures kept { IsKeptBy (K.told self.now.account.keeper) self.now.account.plain }
        ensures again { IfSome (K.told self.now.account.keeper) IsGood }
    {
        &self.journal
    }

    /// Begins the journal again, from the present account.
    pub(crate) fn fold(&mut self) -> Result<(), AllocError>
        ensures uid { self.new.uid ≡ self.old.uid }
        ensures account { self.new.account ≡ self.old.account }
        ensures opening { OnOk result (SameAccount self.old.account.plain self.new.journal.opening) }
        ensures follows { OnOk result (SameAccount (account_after self.old.journal.opening self.old.journal.entries)
            self.new.journal.opening) }
        ensures begun { OnOk result (self.new.journal ≡ empty_journal self.new.journal.opening self.old.journal.most) }
        ensures before { OnOk result (self.new.before ≡ self.old.account.keeper) }
        ensures unchanged { OnErr result (self.new ≡ self.old) }
        ensures legal { IsLegal self.new.journal }
        ensures roomy { HadRoom self.new.journal }
        ensures rose { RoseBy (keeper_marks self.new.journal.entries) (K.keep_faults self.new.before)
            (K.keep_faults self.new.account.keeper) }
    {
        let opening = self.account.plain(self.alloc)?;
        let before = Snapshot::of(self.account.keeper());
        self.journal.restart(opening);
        self.bytes = 0;
        self.before = before;
        Ok(())
    }

    /// The account, which the journal leaves. It takes no memory.
    pub(crate) fn unbind(self) -> Account<K>
        ensures account { result ≡ self.account }
        ensures leaves { SameAccount (account_after self.journal.opening self.journal.entries) result.plain }
        ensures valid { IsValid result.plain }
        ensures kept { IsKeptBy (K.told result.keeper) result.plain }
        ensures again { IfSome (K.told result.keeper) IsGood }
    {
        let Bound {
            alloc: _,
            uid: _,
            account,
            journal,
            bytes: _,
            before,
        } = self;
        drop(journal);
        drop(before);
        account
    }
}
