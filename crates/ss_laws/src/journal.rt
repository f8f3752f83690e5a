//! The journal of an account: what was asked, in order, from an opening account.

ghost use Rattle.std.specs.Prelude.{◌≡◌, ◌<◌, length, IfOk, IfErr};
ghost use Rattle.ss_laws.specs.Journals.{empty_journal, with_entry};

use ss_bso::Plain;
use ss_query::{Mark, Request};
use std::alloc::{AllocError, Global};
use std::marker::Model;

/// A request as it was entered: its ticket, the pass that called, the reading of the clock, and how it ended.
#[derive(Drop, Debug)]
pub struct Entry {
    pub ticket: u64,
    pub pass: u32,
    pub now: u64,
    pub request: Request,
    pub mark: Mark,
}

impl Entry {
    pub fn copy(&self, alloc: Global) -> Result<Entry, AllocError>
        ensures { IfOk result (λ copied. copied ≡ self.entry.now) }
    {
        Ok(Entry {
            ticket: self.ticket,
            pass: self.pass,
            now: self.now,
            request: self.request.copy(alloc)?,
            mark: self.mark,
        })
    }
}

/// An opening account, and the entries of what was asked of it, oldest first: at most `most`, for which it has room.
/// Contracts see it as these three.
#[derive(Drop, Debug)]
pub struct Journal {
    opening: Plain,
    most: u32,
    entries: Vec<Entry>,
}

impl Model for Journal {
    ghost use Rattle.std.specs.Prelude.{◌≤◌, vec_len, vec_capacity};
    ghost use Rattle.ss_laws.specs.Journal.{Journal};

    ghost Value = { Journal };

    ghost view = { λ j. record { opening = j.opening; most = j.most; entries = j.entries.items } };

    ghost invariant = { λ j. (vec_len j.entries ≤ j.most) × (j.most ≤ vec_capacity j.entries) };
}

impl Journal {
    /// A journal without entries. The memory for `most` of them is taken here. Where it is wanting the opening comes
    /// back.
    pub fn new(alloc: Global, opening: Plain, most: u32) -> Result<Journal, (Plain, AllocError)>
        ensures begun { IfOk result (λ journal. journal ≡ empty_journal opening most) }
        ensures returned { IfErr result (λ refused. refused.0 ≡ opening) }
    {
        match Vec::with_capacity(alloc, most as usize) {
            Ok(entries) => Ok(Journal {
                opening,
                most,
                entries,
            }),
            Err(error) => Err((opening, error)),
        }
    }

    pub fn opening(&self) -> &Plain
        ensures { result.now ≡ self.now.opening }
    {
        &self.opening
    }

    /// The most entries that it may have.
    pub fn most(&self) -> u32
        ensures { result ≡ self.now.most }
    {
        self.most
    }

    pub fn entries(&self) -> &[Entry]
        ensures { result.now ≡ self.now.entries }
    {
        self.entries.as_slice()
    }

    /// Enters one more request. It takes no memory.
    pub fn enter(&mut self, entry: Entry)
        requires room { length self.old.entries < self.old.most }
        ensures entered { self.new ≡ with_entry self.old entry }
    {
        self.entries.push_reserved(entry);
    }

    /// Begins again from an opening, without entries. The memory for them stays taken.
    pub fn restart(&mut self, opening: Plain)
        ensures begun { self.new ≡ empty_journal opening self.old.most }
    {
        self.opening = opening;
        self.entries.clear();
    }

    pub fn copy(&self, alloc: Global) -> Result<Journal, AllocError>
        ensures { IfOk result (λ copied. copied ≡ self.now) }
    {
        let mut entries = Vec::with_capacity(alloc, self.most as usize)?;
        for entry in &self.entries {
            entries.push_reserved(entry.copy(alloc)?);
        }
        Ok(Journal {
            opening: self.opening.copy(alloc)?,
            most: self.most,
            entries,
        })
    }
}
