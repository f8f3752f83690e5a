// A counter with a journal: the smallest value for a desk, and an example of how one is written.
ghost use Rattle.std.specs.Prelude.{◌≡◌, ◌*◌, ◌≤◌, [], vec_len, vec_capacity, sum_by, IfOk};

use crate::journaled::{Full, Journaled};
use std::alloc::{AllocError, Global};

/// One call at a counter.
#[derive(Debug, Drop)]
pub struct Addition {
    pub ticket: u64,
    pub pass: u32,
    pub amount: u32,
}

/// A total to which each call adds an amount, and the additions so far, at most `most`.
#[derive(Debug, Drop)]
pub struct Counter {
    pub most: u32,
    pub total: u64,
    pub additions: Vec<Addition>,
    ghost room: { most ≤ vec_capacity additions },
    ghost within: { vec_len additions ≤ most },
    ghost sum: { total ≡ sum_by (λ a. a.amount) additions.items },
    ghost fits: { total ≤ vec_len additions * 4294967295 },
}

impl Counter {
    /// A counter at 0. All room for its additions is taken here.
    pub fn new(alloc: Global, most: u32) -> Result<Counter, AllocError>
        ensures most { IfOk result (λ c. c.most ≡ most) }
        ensures empty { IfOk result (λ c. c.additions.items ≡ []) }
    {
        Ok(Counter {
            most,
            total: 0,
            additions: Vec::with_capacity(alloc, most as usize)?,
        })
    }
}

impl Journaled for Counter {
    ghost use Rattle.std.specs.Prelude.{◌≡◌, ◌≤◌, ◌==◌, if◌then◌else◌, length, sum_by, Some, None};
    ghost use Rattle.std.proofs.Common.{rules};

    /// The most additions.
    type Fixed = u32;

    type Entry = Addition;

    /// The amount.
    type Ask = u32;

    /// The total after the addition.
    type Reply = u64;

    ghost fixed = { λ c. c.most };

    ghost entries = { λ c. c.additions.items };

    ghost ticket_of = { λ a. a.ticket };

    ghost pass_of = { λ a. a.pass };

    ghost ask_of = { λ a. a.amount };

    ghost fits = { λ _. Unit {0} };

    ghost legal = { λ most added. length added ≤ most };

    ghost replies = { λ _ added total. total ≡ sum_by (λ a. a.amount) added };

    ghost full = { λ most added. if length added == most then Some (record { entries = most; bytes = 0 }) else None };

    fn step(&mut self, ticket: u64, pass: u32, amount: u32) -> Result<u64, Full> {
        if self.additions.len() >= self.most as usize {
            return Err(Full {
                entries: u64::from(self.most),
                bytes: 0,
            });
        }
        self.total += u64::from(amount);
        self.additions.push_reserved(Addition {
            ticket,
            pass,
            amount,
        });
        Ok(self.total)
    }

    ghost starts = { λ c empty. Prim.search rules };
}
