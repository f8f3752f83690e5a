//! A dial whose links lead to a server in memory.

ghost use Rattle.std.specs.Prelude.{None};

use crate::syncs::wire::{Answers, Far, Wire};
use ss_links::{Dial, DialFault};
use ss_outside::{Faults, Numbered};
use std::alloc::Global;

/// A net with one server. A dial fails by its number, and while there is a link.
#[derive(Drop)]
pub struct Net<A: Answers + Drop> {
    alloc: Global,
    far: Option<Far<A>>,
    dials: Numbered,
    asked: Vec<String>,
    faults: u64,
}

fn plan(alloc: Global) -> Numbered {
    Numbered::new(Vec::new(alloc))
}

impl<A: Answers + Drop> Net<A> {
    /// A net none of whose calls fails.
    pub fn new(alloc: Global, server: A) -> Net<A> {
        Net {
            alloc,
            far: Some(Far {
                server,
                calls: plan(alloc),
                writes: plan(alloc),
            }),
            dials: plan(alloc),
            asked: Vec::new(alloc),
            faults: 0,
        }
    }

    /// From now on no call fails, and what was dialled is forgotten.
    pub fn calm(&mut self) {
        self.dials = plan(self.alloc);
        self.asked = Vec::new(self.alloc);
        if let Some(far) = &mut self.far {
            far.calls = plan(self.alloc);
            far.writes = plan(self.alloc);
        }
    }

    /// The dials with these numbers fail, counted from 1.
    pub fn fail_dials(&mut self, failing: Vec<u64>) {
        self.dials = Numbered::new(failing);
    }

    /// The calls of links with these numbers fail, counted from 1 over all links.
    pub fn fail_calls(&mut self, failing: Vec<u64>) {
        if let Some(far) = &mut self.far {
            far.calls = Numbered::new(failing);
        }
    }

    /// The writes to links with these numbers fail, counted from 1 over all links.
    pub fn fail_writes(&mut self, failing: Vec<u64>) {
        if let Some(far) = &mut self.far {
            far.writes = Numbered::new(failing);
        }
    }

    /// What was dialled, in order.
    pub fn asked(&self) -> &[String] {
        self.asked.as_slice()
    }

    /// The server, unless there is a link.
    pub fn server(&self) -> Option<&A> {
        match &self.far {
            Some(far) => Some(&far.server),
            None => None,
        }
    }

    pub fn server_mut(&mut self) -> Option<&mut A> {
        match &mut self.far {
            Some(far) => Some(&mut far.server),
            None => None,
        }
    }
}

impl<A: Answers + Drop> Dial for Net<A> {
    type Link = Wire<A>;

    ghost dial_faults = { λ net. net.faults };

    ghost asked = { λ net. None };

    ghost hung = { λ net. None };

    fn dial(&mut self, host: &str, port: u16) -> Result<Wire<A>, DialFault> {
        let Ok(address) = format!(in self.alloc; "{host}:{port}") else {
            return Err(DialFault::Memory);
        };
        if self.asked.push(address).is_err() {
            return Err(DialFault::Memory);
        }
        if !self.dials.fails() {
            if let Some(far) = self.far.take() {
                return Ok(Wire::new(self.alloc, far));
            }
        }
        self.faults = self.faults.saturating_add(1);
        Err(DialFault::Fault)
    }

    fn hang_up(&mut self, link: Wire<A>) {
        if link.has_failed() {
            self.faults = self.faults.saturating_add(1);
        }
        self.far = Some(link.into_far());
    }
}
