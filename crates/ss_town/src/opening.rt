// How a town is opened, and why it is not.
ghost use Rattle.std.specs.Prelude.{◌≡◌, ◌≤◌, ◌<◌, [], MatchOption, IfOk, IfErr, vec_len, vec_capacity};
ghost use Rattle.std.specs.List.Sorted.{IsPermutation, IsNonDecreasingBy};
ghost use Rattle.ss_town.specs.Opening.{FaultSays, MayOpen, IsOpenedTown, IsTown, AreReturnedAccounts, AreBare};
ghost use Rattle.ss_town.specs.Opening.{BackAfter};
ghost use Rattle.ss_town.specs.Opening.{ComeBack, RefusedSays};

use crate::limits::MOST_ACCOUNTS;
use crate::passes::Passes;
use crate::town::{Room, Town, close_from};
use ss_desk::{Desk, Journaled, Pass};
use std::alloc::{AllocError, Global};
use std::sync::Mutex;

/// Why no town was opened.
#[derive(Debug, Drop, Clone, Copy, PartialEq, Eq)]
pub enum TownFault {
    /// There is no account.
    Empty,
    /// There are more than 8 accounts.
    TooMany { n: u64 },
    /// Two accounts have this uid.
    Twice { uid: u32 },
    /// An account has the uid 0.
    Zero,
    /// Memory ran out.
    Memory,
}

// The desks that are open, with a pass to each.
pub(crate) struct Opened<T: Journaled> {
    pub(crate) uids: Vec<u32>,
    pub(crate) desks: Vec<Desk<T>>,
    pub(crate) passes: Vec<Pass<T>>,
}

impl<T: Journaled> Town<T> {
    ghost use Rattle.ss_town.specs.Town.{uids_of, desks_of, passes_of};

    /// Opens a desk for each account. The passes hold all numbers of each desk. Where no town is opened the accounts come
    /// back: as they were, or after want of memory each without entries and with the fixed part that it had.
    pub fn open(
        alloc: Global,
        accounts: Vec<(u32, T)>,
    ) -> Result<(Town<T>, Passes<T>), (Vec<(u32, T)>, TownFault)>
        requires bare { AreBare T.entries accounts.items }
        ensures may { IfOk result (λ r. MayOpen accounts.items) }
        ensures opened { IfOk result (λ r. IsTown T.fixed accounts.items (uids_of r.0) (desks_of r.0) (passes_of r.1)) }
        ensures fault { IfErr result (λ e. FaultSays accounts.items e.1) }
        ensures returned { IfErr result (λ e. BackAfter T.fixed T.entries accounts.items e.0.items e.1) }
    {
        if let Some(fault) = fault_of(accounts.as_slice()) {
            return Err((accounts, fault));
        }
        match open_all(alloc, accounts) {
            Ok(both) => Ok(both),
            Err(accounts) => Err((accounts, TownFault::Memory)),
        }
    }
}

// Opens a desk for each account, or hands the accounts back where memory runs out.
fn open_all<T: Journaled>(
    alloc: Global,
    mut accounts: Vec<(u32, T)>,
) -> Result<(Town<T>, Passes<T>), Vec<(u32, T)>>
    requires bare { AreBare T.entries accounts.items }
    requires may { MayOpen accounts.items }
    ensures opened { IfOk result (λ r. IsTown T.fixed accounts.items r.0.uids.items r.0.desks.items r.1.passes.items) }
    ensures returned { IfErr result (λ back. ComeBack T.fixed T.entries accounts.items back.items) }
{
    sort_by_uid(&mut accounts);
    let Ok(places) = Vec::with_capacity(alloc, MOST_ACCOUNTS) else {
        return Err(accounts);
    };
    let Ok(room) = room_for(alloc, accounts.len()) else {
        return Err(accounts);
    };
    match open_from(alloc, accounts, room) {
        Ok((rest, opened)) => {
            let Opened {
                uids,
                desks,
                passes,
            } = opened;
            rest.destroy_empty();
            let room = Mutex::new(Room { places });
            Ok((Town { uids, desks, room }, Passes { passes }))
        }
        Err(accounts) => Err(accounts),
    }
}

// Puts the accounts in the order of their uids.
fn sort_by_uid<T>(accounts: &mut Vec<(u32, T)>)
    ensures moved { IsPermutation accounts.old.items accounts.new.items }
    ensures sorted { IsNonDecreasingBy (λ account. account.0) accounts.new.items }
    ensures room { vec_capacity accounts.new ≡ vec_capacity accounts.old }
{
    accounts.sort_unstable_by_key(|account| account.0);
}

// Room for so many desks.
fn room_for<T: Journaled>(alloc: Global, n: usize) -> Result<Opened<T>, AllocError>
    ensures empty { IfOk result (λ o. (o.uids.items ≡ []) × (o.desks.items ≡ []) × (o.passes.items ≡ [])) }
    ensures room { IfOk result (λ o. (n ≤ vec_capacity o.uids) × (n ≤ vec_capacity o.desks) × (n ≤ vec_capacity o.passes)) }
{
    let uids = Vec::with_capacity(alloc, n)?;
    let desks = Vec::with_capacity(alloc, n)?;
    let passes = Vec::with_capacity(alloc, n)?;
    Ok(Opened {
        uids,
        desks,
        passes,
    })
}

// Opens the desks, the first one first. Where memory runs out, those that are open are closed again.
fn open_from<T: Journaled>(
    alloc: Global,
    mut accounts: Vec<(u32, T)>,
    room: Opened<T>,
) -> Result<(Vec<(u32, T)>, Opened<T>), Vec<(u32, T)>>
    requires bare { AreBare T.entries accounts.items }
    requires empty { (room.uids.items ≡ []) × (room.desks.items ≡ []) × (room.passes.items ≡ []) }
    requires room { (vec_len accounts ≤ vec_capacity room.uids) × (vec_len accounts ≤ vec_capacity room.desks) × (vec_len accounts ≤ vec_capacity room.passes) }
    ensures opened { IfOk result (λ r. IsOpenedTown T.fixed accounts.items r.1.uids.items r.1.desks.items r.1.passes.items) }
    ensures rest { IfOk result (λ r. (r.0.items ≡ []) × (vec_capacity r.0 ≡ vec_capacity accounts)) }
    ensures room { IfOk result (λ r. (vec_capacity r.1.uids ≡ vec_capacity room.uids) × (vec_capacity r.1.desks ≡ vec_capacity room.desks) × (vec_capacity r.1.passes ≡ vec_capacity room.passes)) }
    ensures returned { IfErr result (λ e. AreReturnedAccounts T.fixed T.entries accounts.items e.items × (vec_capacity e ≡ vec_capacity accounts)) }
{
    let Some((uid, value)) = accounts.pop() else {
        return Ok((accounts, room));
    };
    let (rest, mut opened) = match open_from(alloc, accounts, room) {
        Ok(both) => both,
        Err(mut accounts) => {
            accounts.push_reserved((uid, value));
            return Err(accounts);
        }
    };
    match Desk::open(alloc, value) {
        Ok((desk, pass)) => {
            opened.uids.push_reserved(uid);
            opened.desks.push_reserved(desk);
            opened.passes.push_reserved(pass);
            Ok((rest, opened))
        }
        Err((value, _)) => {
            let Opened {
                uids,
                desks,
                passes,
            } = opened;
            let mut accounts = close_from(uids.as_slice(), desks, passes, rest);
            accounts.push_reserved((uid, value));
            Err(accounts)
        }
    }
}

// Why these can't be opened as a town, memory aside.
fn fault_of<T>(accounts: &[(u32, T)]) -> Option<TownFault>
    ensures { MatchOption result (MayOpen accounts.now) (λ f. RefusedSays accounts.now f) }
{
    let n = accounts.len();
    if n == 0 {
        return Some(TownFault::Empty);
    }
    if n > MOST_ACCOUNTS {
        return Some(TownFault::TooMany { n: n as u64 });
    }
    for j in 0..n {
        let uid = accounts[j].0;
        for i in 0..j {
            if accounts[i].0 == uid {
                return Some(TownFault::Twice { uid });
            }
        }
    }
    for i in 0..n {
        if accounts[i].0 == 0 {
            return Some(TownFault::Zero);
        }
    }
    None
}
