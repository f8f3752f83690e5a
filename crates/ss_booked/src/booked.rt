//! The account with its journal.

ghost use Rattle.std.specs.Prelude.{◌≡◌, ◌≤◌, ◌<◌, ℕ, length, OnOk, OnErr, IfOk, IfErr, IfSome, None, Some, All};
ghost use Rattle.ss_outside.specs.Causes.{Rose};
ghost use Rattle.ss_bso.specs.Account.{tick};
ghost use Rattle.ss_bso.specs.Validity.{IsValid, SameAccount};
ghost use Rattle.ss_query.specs.declared.replies.Mark.TheVariants.{Keeper as KeeperMark};
ghost use Rattle.ss_query.specs.Fit.{IsFitRequest};
ghost use Rattle.ss_query.specs.Marks.{mark_of};
ghost use Rattle.ss_laws.specs.Journals.{account_after, empty_journal, with_entry, reply_at, IsLegal};
ghost use Rattle.ss_account.specs.Keeping.{AsksOnce, IsKeptBy};
ghost use Rattle.ss_account.specs.Opening.{IsGood};
ghost use Rattle.ss_booked.specs.Sizes.{full_of, most_entries, HadRoom};
ghost use Rattle.ss_booked.specs.Sound.{RoseBy, keeper_marks};
ghost use Rattle.ss_booked.specs.Facts.{legal_prop, room_prop};

use crate::bound::Bound;
use ss_account::Account;
use ss_bso::Plain;
use ss_desk::{Full, Journaled};
use ss_keeper::Keeper;
use ss_laws::{Entry, Journal};
use ss_query::{Reply, Request};
use std::alloc::{AllocError, Global};

/// What is asked of an account on a desk: a request, at a reading of the clock in hundredths of a second.
#[derive(Drop, Debug)]
pub struct Asked {
    pub now: u64,
    pub request: Request,
}

/// What an account on a desk answers: the reply, and whether its journal is then more than half full.
#[derive(Drop)]
pub struct Answered {
    pub reply: Reply,
    pub half_full: bool,
}

/// What no call changes: whose account it is, the opening of the journal, the most entries, and the keeper's count of
/// faults at the opening. It is for the proofs: no value of it is made.
pub struct Terms {
    pub uid: u32,
    pub opening: Plain,
    pub most: u32,
    pub faults: u64,
}

/// An account with the journal of what was asked of it. All of the journal's memory is taken at the opening, so that a
/// call is never refused for want of it.
#[derive(Drop)]
pub struct Booked<K: Keeper> {
    bound: Bound<K>,
    pub ghost legal: { IsLegal bound.journal } by { legal_prop bound.journal },
    pub ghost had_room: { HadRoom bound.journal } by { room_prop bound.journal },
    pub ghost rose: { RoseBy (keeper_marks bound.journal.entries) (K.keep_faults bound.before) (K.keep_faults bound.account.keeper) },
}

impl<K: Keeper> Booked<K> {
    ghost use Rattle.ss_booked.specs.Booked.{uid_of, account_of, journal_of, keeper_before};

    /// Opens a journal for the account of this uid, with room for so many entries. Where memory is wanting the account
    /// comes back as it was.
    pub fn open(
        alloc: Global,
        uid: u32,
        account: Account<K>,
        most: u32,
    ) -> Result<Booked<K>, (Account<K>, AllocError)>
        requires most { (1 ≤ most) × (most ≤ most_entries) }
        ensures uid { IfOk result (λ b. uid_of b ≡ uid) }
        ensures account { IfOk result (λ b. account_of b ≡ account) }
        ensures opening { IfOk result (λ b. SameAccount account.plain (journal_of b).opening) }
        ensures begun { IfOk result (λ b. journal_of b ≡ empty_journal (journal_of b).opening most) }
        ensures before { IfOk result (λ b. keeper_before b ≡ account.keeper) }
        ensures returned { IfErr result (λ refused. refused.0 ≡ account) }
    {
        let bound = Bound::open(alloc, uid, account, most)?;
        Ok(Booked { bound })
    }

    /// Answers a request at a reading of the clock (hundredths of a second) and enters it, with the ticket of the call
    /// and the number of the pass that made it. `Full` comes exactly where the journal has as many entries as it may
    /// have, or 67,108,864 bytes or more; then nothing changes and the request is dropped. To enter takes no memory.
    pub fn call(
        &mut self,
        ticket: u64,
        pass: u32,
        now: u64,
        request: Request,
    ) -> Result<Reply, Full>
        requires fits { IsFitRequest request }
        requires above { All (λ entry. entry.ticket < ticket) (journal_of self.old).entries }
        ensures uid { uid_of self.new ≡ uid_of self.old }
        ensures entered { IfOk result (λ reply. journal_of self.new ≡ with_entry (journal_of self.old)
            (record { ticket = ticket; pass = pass; now = now; request = request; mark = mark_of reply })) }
        ensures reply { IfOk result (λ reply. reply_at (journal_of self.new) (length (journal_of self.old).entries)
            ≡ Some reply) }
        ensures had_room { OnOk result (full_of (journal_of self.old) ≡ None) }
        ensures full { IfErr result (λ full. full_of (journal_of self.old) ≡ Some full) }
        ensures unentered { OnErr result (journal_of self.new ≡ journal_of self.old) }
        ensures untouched { OnErr result (account_of self.new ≡ account_of self.old) }
        ensures before { keeper_before self.new ≡ keeper_before self.old }
        ensures cause { IfOk result (λ reply. mark_of reply ≡ KeeperMark
            → Rose (K.keep_faults (account_of self.old).keeper) (K.keep_faults (account_of self.new).keeper)) }
        ensures quiet { IfOk result (λ reply. (mark_of reply ≡ KeeperMark → ⊥)
            → K.keep_faults (account_of self.new).keeper ≡ K.keep_faults (account_of self.old).keeper) }
        ensures called { IfOk result (λ reply. AsksOnce (tick (account_of self.old).plain now) request (mark_of reply)
            (K.calls (account_of self.old).keeper) (K.calls (account_of self.new).keeper)) }
    {
        self.bound.call(ticket, pass, now, request)
    }

    /// The journal, lent: it is legal, each of its entries was made while it had room, and it leaves the account. Since it was opened the keeper has failed at least as
    /// often as it has entries that say so.
    pub fn journal(&self) -> &Journal
        ensures journal { result.now ≡ journal_of self.now }
        ensures legal { IsLegal (journal_of self.now) }
        ensures roomy { HadRoom (journal_of self.now) }
        ensures leaves { SameAccount (account_after (journal_of self.now).opening (journal_of self.now).entries)
            (account_of self.now).plain }
        ensures faults { RoseBy (keeper_marks (journal_of self.now).entries) (K.keep_faults (keeper_before self.now))
            (K.keep_faults (account_of self.now).keeper) }
    {
        self.bound.journal()
    }

    /// Begins the journal again: the present account becomes its opening, and the entries go. Where memory is wanting
    /// nothing changes.
    pub fn fold(&mut self) -> Result<(), AllocError>
        ensures uid { uid_of self.new ≡ uid_of self.old }
        ensures account { account_of self.new ≡ account_of self.old }
        ensures opening { OnOk result (SameAccount (account_of self.old).plain (journal_of self.new).opening) }
        ensures follows { OnOk result (SameAccount (account_after (journal_of self.old).opening
            (journal_of self.old).entries) (journal_of self.new).opening) }
        ensures begun { OnOk result (journal_of self.new ≡ empty_journal (journal_of self.new).opening
            (journal_of self.old).most) }
        ensures before { OnOk result (keeper_before self.new ≡ (account_of self.old).keeper) }
        ensures unfolded { OnErr result (journal_of self.new ≡ journal_of self.old) }
        ensures as_before { OnErr result (keeper_before self.new ≡ keeper_before self.old) }
    {
        self.bound.fold()
    }

    /// The account, which the journal leaves; it is valid and kept. It takes no memory.
    pub fn unbook(self) -> Account<K>
        ensures account { result ≡ account_of self }
        ensures leaves { SameAccount (account_after (journal_of self).opening (journal_of self).entries) result.plain }
        ensures valid { IsValid result.plain }
        ensures kept { IsKeptBy (K.told result.keeper) result.plain }
        ensures again { IfSome (K.told result.keeper) IsGood }
        ensures faults { RoseBy (keeper_marks (journal_of self).entries) (K.keep_faults (keeper_before self))
            (K.keep_faults result.keeper) }
    {
        let Booked { bound } = self;
        bound.unbind()
    }
}

impl<K: Keeper + Drop> Journaled for Booked<K> {
    ghost use Rattle.ss_query.specs.Fit.{IsFitRequest};
    ghost use Rattle.ss_booked.specs.Booked.{terms_of, journal_of};
    ghost use Rattle.ss_booked.specs.Turns.{ask_of, full_on, IsLegalOn, RepliesLast};
    ghost use Rattle.ss_booked.specs.Starts.{made_of_none};

    type Fixed = Terms;

    type Entry = Entry;

    type Ask = Asked;

    type Reply = Answered;

    ghost fixed = { λ b. terms_of K.keep_faults b };

    ghost entries = { λ b. (journal_of b).entries };

    ghost ticket_of = { λ e. e.ticket };

    ghost pass_of = { λ e. e.pass };

    ghost ask_of = { ask_of };

    ghost fits = { λ a. IsFitRequest a.request };

    ghost legal = { IsLegalOn };

    ghost replies = { RepliesLast };

    ghost full = { full_on };

    fn step(&mut self, ticket: u64, pass: u32, ask: Asked) -> Result<Answered, Full> {
        let Asked { now, request } = ask;
        let reply = self.call(ticket, pass, now, request)?;
        let half_full = self.bound.is_half_full();
        Ok(Answered { reply, half_full })
    }

    ghost starts = { λ b empty. made_of_none b.bound.journal empty b.legal };
}
