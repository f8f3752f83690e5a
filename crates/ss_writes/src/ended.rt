//! The batches that a keeper still tells though the account has them no more.

ghost use Rattle.std.specs.Prelude.{◌≡◌, ◌≤◌, ◌<◌, ◌+◌, ◌++◌, ◌∷◌, [], IfOk, filter, length, map, not};
ghost use Rattle.ss_bso.specs.declared.changes.BatchChange.TheVariants.{End as EndChange};
ghost use Rattle.ss_bso.specs.Account.{is_open};
ghost use Rattle.ss_bso.specs.Limits.{most_live_batches};
ghost use Rattle.ss_writes.specs.Pending.{numbers_of};

use crate::finding::is_open;
use ss_bso::limits::MOST_LIVE_BATCHES;
use ss_bso::{BatchChange, Staged};
use ss_text::Stamp;
use std::alloc::{AllocError, Global};
use std::marker::Model;

/// The numbers of the batches that ended since the keeper's last commit: at most four, in room that is taken once.
#[derive(Drop)]
pub struct Ended {
    numbers: Vec<u64>,
}

impl Model for Ended {
    ghost use Rattle.std.specs.Prelude.{◌≤◌, List, ℕ, vec_capacity};
    ghost use Rattle.ss_bso.specs.Limits.{most_live_batches};

    ghost Value = { List ℕ };

    ghost view = { λ e. e.numbers.items };

    ghost invariant = { λ e. most_live_batches ≤ vec_capacity e.numbers };
}

impl Ended {
    /// None yet. All the memory is taken here.
    pub fn new(alloc: Global) -> Result<Ended, AllocError>
        ensures { IfOk result (λ ended. ended ≡ []) }
    {
        Ok(Ended {
            numbers: Vec::with_capacity(alloc, MOST_LIVE_BATCHES)?,
        })
    }

    /// Notes a batch.
    fn push(&mut self, number: u64)
        requires { length self.old < most_live_batches }
        ensures { self.new ≡ self.old ++ number ∷ [] }
    {
        self.numbers.push_reserved(number);
    }

    /// Notes those of the batches that are over at a moment.
    pub fn note(&mut self, batches: &[Staged], moment: Stamp)
        requires { length self.old + length batches.now ≤ most_live_batches }
        ensures { self.new ≡ self.old ++ numbers_of (filter (λ batch. not (is_open moment batch)) batches.now) }
    {
        for staged in batches {
            if !is_open(staged, moment) {
                self.push(staged.number);
            }
        }
    }

    /// The changes that end them.
    pub fn ends(&self, alloc: Global) -> Result<Vec<BatchChange>, AllocError>
        ensures { IfOk result (λ changes. changes.items ≡ map EndChange self.now) }
    {
        let mut changes = Vec::new(alloc);
        for number in &self.numbers {
            changes.push(BatchChange::End { number: *number })?;
        }
        Ok(changes)
    }

    /// The keeper was told of all of them.
    pub fn clear(&mut self)
        ensures { self.new ≡ [] }
    {
        self.numbers.clear();
    }
}
