// A pass to each account of a town.
ghost use Rattle.std.specs.Prelude.{◌≡◌, ◌≤◌, ◌<◌, vec_len, IfOk, OnErr};
ghost use Rattle.ss_desk.specs.Passes.{AreOf, Halves};
ghost use Rattle.ss_town.specs.Places.{HoldAtLeast, IsLeast};

use crate::town::Town;
use ss_desk::{Journaled, Pass};
use std::alloc::{AllocError, Global};

/// A caller's passes to a town: one to each account. They may go to another thread.
#[derive(Drop)]
pub struct Passes<T: Journaled> {
    pub(crate) passes: Vec<Pass<T>>,
    ghost some: { 0 < vec_len passes },
}

impl<T: Journaled> Passes<T> {
    ghost use Rattle.ss_town.specs.Town.{desks_of, passes_of};

    /// The least of how many numbers its passes hold: they can be split into as many.
    pub fn numbers(&self) -> u64
        ensures { IsLeast result (passes_of self.now) }
    {
        let mut least = self.passes[0].numbers();
        for pass in &self.passes {
            least = least.min(pass.numbers());
        }
        least
    }

    /// Gives the upper half of each pass's numbers to a new pass, which has seen as much. Where memory runs out nothing
    /// is changed.
    pub fn split(&mut self, alloc: Global, town: &Town<T>) -> Result<Passes<T>, AllocError>
        requires of { AreOf (desks_of town.now) (passes_of self.old) }
        requires many { HoldAtLeast 2 (passes_of self.old) }
        ensures of { AreOf (desks_of town.now) (passes_of self.new) }
        ensures new { IfOk result (λ p. AreOf (desks_of town.now) (passes_of p)) }
        ensures halves { IfOk result (λ p. Halves (passes_of self.old) (passes_of self.new) (passes_of p)) }
        ensures err { OnErr result (self.new ≡ self.old) }
    {
        let mut others = Vec::with_capacity(alloc, self.passes.len())?;
        for i in 0..self.passes.len() {
            others.push_reserved(self.passes[i].split(&town.desks[i]));
        }
        Ok(Passes { passes: others })
    }
}
