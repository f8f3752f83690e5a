// The desks of several accounts, and the calls at them.
ghost use Rattle.std.specs.Prelude.{◌≡◌, ◌≤◌, ◌<◌, ℕ, [], map, length, vec_len, vec_capacity, IfOk, IfErr};
ghost use Rattle.std.specs.List.Sorted.{IsStrictlyIncreasing};
ghost use Rattle.ss_desk.specs.Views.{CoversAll};
ghost use Rattle.ss_desk.specs.Calls.{EntersCall, DeniesCall};
ghost use Rattle.ss_desk.specs.Passes.{AreOf, view_at, SameOthers, Joins};
ghost use Rattle.ss_town.specs.Limits.{most_accounts};
ghost use Rattle.ss_town.specs.Places.{HandsBack};

use crate::passes::Passes;
use ss_desk::{Desk, Full, Journaled, Pass};
use std::sync::{Mutex, Wait};

/// A desk for each account, 1 to 8 of them, in the order of their uids.
#[derive(Drop)]
pub struct Town<T: Journaled> {
    pub(crate) uids: Vec<u32>,
    pub(crate) desks: Vec<Desk<T>>,
    pub(crate) room: Mutex<Room<T>>,
    ghost alike: { vec_len uids ≡ vec_len desks },
    ghost rise: { IsStrictlyIncreasing uids.items },
    ghost few: { vec_len desks ≤ most_accounts },
}

// Room for the accounts of a town, taken when it is opened. Behind a lock, so that an account need not be shared.
#[derive(Drop)]
pub(crate) struct Room<T: Journaled> {
    pub(crate) places: Vec<(u32, T)>,
    ghost roomy: { most_accounts ≤ vec_capacity places },
    ghost empty: { places.items ≡ [] },
}

/// What a town answers.
pub enum Answer<R> {
    /// The call's ticket, and the reply.
    Reply { ticket: u64, reply: R },
    /// The uid is not listed.
    NoAccount,
    /// The account's journal has no room.
    Full(Full),
}

impl<T: Journaled> Town<T> {
    ghost use Rattle.ss_town.specs.Town.{uids_of, desks_of, passes_of};
    ghost use Rattle.ss_town.specs.Answers.{AnswerSays};

    /// Makes one call at the account with this uid: waits for the turn at its desk, and at no other. It takes no memory
    /// of its own. Nothing is said of how long a caller waits.
    pub fn ask<R: Wait>(
        &self,
        rt: &R,
        passes: &mut Passes<T>,
        uid: u32,
        ask: T::Ask,
    ) -> Answer<T::Reply>
        requires of { AreOf (desks_of self.now) (passes_of passes.old) }
        requires fits { T.fits ask }
        ensures of { AreOf (desks_of self.now) (passes_of passes.new) }
        ensures says { AnswerSays T.ticket_of T.pass_of T.ask_of T.legal T.replies T.full (uids_of self.now) (passes_of passes.old) (passes_of passes.new) uid ask result }
    {
        for i in 0..self.uids.len() {
            if self.uids[i] == uid {
                return match self.ask_at(rt, passes, i, ask) {
                    Ok((ticket, reply)) => Answer::Reply { ticket, reply },
                    Err(full) => Answer::Full(full),
                };
            }
        }
        Answer::NoAccount
    }

    // The call at the desk at this place.
    fn ask_at<R: Wait>(
        &self,
        rt: &R,
        passes: &mut Passes<T>,
        i: usize,
        ask: T::Ask,
    ) -> Result<(u64, T::Reply), Full>
        requires of { AreOf (desks_of self.now) (passes_of passes.old) }
        requires place { i < length (desks_of self.now) }
        requires fits { T.fits ask }
        ensures of { AreOf (desks_of self.now) (passes_of passes.new) }
        ensures same { SameOthers i (passes_of passes.old) (passes_of passes.new) }
        ensures reply { IfOk result (λ r. EntersCall T.ticket_of T.pass_of T.ask_of T.legal T.replies T.full (view_at (passes_of passes.old) i) (view_at (passes_of passes.new) i) r.0 ask r.1) }
        ensures full { IfErr result (λ f. DeniesCall T.ticket_of T.pass_of T.legal T.full (view_at (passes_of passes.old) i) (view_at (passes_of passes.new) i) f) }
    {
        self.desks[i].call(rt, &mut passes.passes[i], ask)
    }

    /// Gives passes back to others: those cover their numbers from now on, and have a page with what each had seen.
    pub fn back(&self, into: &mut Passes<T>, other: Passes<T>)
        requires into { AreOf (desks_of self.now) (passes_of into.old) }
        requires other { AreOf (desks_of self.now) (passes_of other) }
        ensures of { AreOf (desks_of self.now) (passes_of into.new) }
        ensures joined { Joins (passes_of into.old) (passes_of other) (passes_of into.new) }
    {
        let Passes { passes: mut others } = other;
        while let Some(pass) = others.pop() {
            let i = others.len();
            self.desks[i].back(&mut into.passes[i], pass);
        }
    }

    /// The accounts in the order of their uids, once each pass covers all numbers of its desk, so that all others were
    /// given back. It takes no memory.
    pub fn close(self, passes: Passes<T>) -> Vec<(u32, T)>
        requires of { AreOf (desks_of self) (passes_of passes) }
        requires all { (i : ℕ) → i < length (desks_of self) → CoversAll (view_at (passes_of passes) i) }
        ensures handed { HandsBack T.ticket_of T.pass_of T.fixed T.entries T.legal (uids_of self) (passes_of passes) result.items }
        ensures sorted { IsStrictlyIncreasing (map (λ b. b.0) result.items) }
    {
        let Town { uids, desks, room } = self;
        let Passes { passes } = passes;
        let Room { places } = room.into_inner();
        close_from(uids.as_slice(), desks, passes, places)
    }
}

// Closes the desks, the first one first.
pub(crate) fn close_from<T: Journaled>(
    uids: &[u32],
    mut desks: Vec<Desk<T>>,
    mut passes: Vec<Pass<T>>,
    room: Vec<(u32, T)>,
) -> Vec<(u32, T)>
    requires of { AreOf desks.items passes.items }
    requires uids { vec_len desks ≤ length uids.now }
    requires room { vec_len desks ≤ vec_capacity room }
    requires empty { room.items ≡ [] }
    requires all { (i : ℕ) → i < vec_len desks → CoversAll (view_at passes.items i) }
    ensures handed { HandsBack T.ticket_of T.pass_of T.fixed T.entries T.legal uids.now passes.items result.items }
    ensures room { vec_capacity result ≡ vec_capacity room }
{
    let (Some(desk), Some(pass)) = (desks.pop(), passes.pop()) else {
        return room;
    };
    let uid = uids[desks.len()];
    let mut closed = close_from(uids, desks, passes, room);
    closed.push_reserved((uid, desk.close(pass)));
    closed
}
