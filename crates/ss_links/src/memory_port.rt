//! Ports in memory.

ghost use Rattle.std.specs.Prelude.{◌≡◌, All, Some, None, IfOk, true};
ghost use Rattle.ss_outside.specs.Plans.{fresh_plan, is_failing};
ghost use Rattle.ss_links.specs.Links.{IsUnusedLink, link_tells};
ghost use Rattle.ss_links.specs.Ports.{HasAccepted, IfLink, fresh_port, given_by, passed_by, port_counts};

use crate::memory_link::LinkUnder;
use crate::port::{Accepted, Port, PortFault};
use ss_outside::{Faults, Never, Numbered};
use std::marker::Model;

/// Gives its links in order, and then ends. It may rest after each of them.
#[derive(Drop, Debug)]
pub struct PortUnder<F: Faults + Drop> {
    // From the last one to the next one.
    links: Vec<LinkUnder<F>>,
    ends: u64,
    given: u64,
    rests_after_each: bool,
    is_to_rest: bool,
    rests: u64,
    plan: F,
}

impl<F: Faults + Drop> Model for PortUnder<F> {
    ghost use Rattle.std.specs.Prelude.{All, reverse};
    ghost use Rattle.ss_links.specs.Links.{IsUnusedLink, link_tells};
    ghost use Rattle.ss_links.specs.Ports.{Waiting};

    ghost Value = { Waiting };

    ghost view = { λ p. record {
      links = reverse p.links.items;
      plan = F.Faults.plan p.plan;
      ends = p.ends;
      given = p.given;
      rests_after_each = p.rests_after_each;
      is_to_rest = p.is_to_rest;
      rests = p.rests;
    } };

    ghost invariant = { λ p. All (λ link. IsUnusedLink (link_tells link)) p.links.items };
}

/// A port in memory, some of whose calls fail.
pub type MemPort = PortUnder<Numbered>;

/// A port in memory that never fails.
pub type SurePort = PortUnder<Never>;

impl PortUnder<Numbered> {
    /// A port that gives these links. The calls with the numbers `failing` fail, counted from 1.
    pub fn new(mut links: Vec<LinkUnder<Numbered>>, failing: Vec<u64>) -> MemPort
        requires { All (λ link. IsUnusedLink (link_tells link)) links.items }
        ensures { result ≡ fresh_port links.items (Some (fresh_plan failing.items)) }
    {
        links.reverse();
        PortUnder {
            links,
            ends: 0,
            given: 0,
            rests_after_each: false,
            is_to_rest: false,
            rests: 0,
            plan: Numbered::new(failing),
        }
    }
}

impl<F: Faults + Drop> PortUnder<F> {
    /// The same port, which from now on rests after each link that it gives.
    pub fn resting(mut self) -> PortUnder<F>
        ensures { result ≡ record self { rests_after_each = true } }
    {
        self.rests_after_each = true;
        self
    }
}

impl PortUnder<Never> {
    /// A port that gives these links.
    pub fn new(mut links: Vec<LinkUnder<Never>>) -> SurePort
        requires { All (λ link. IsUnusedLink (link_tells link)) links.items }
        ensures { result ≡ fresh_port links.items None }
    {
        links.reverse();
        PortUnder {
            links,
            ends: 0,
            given: 0,
            rests_after_each: false,
            is_to_rest: false,
            rests: 0,
            plan: Never,
        }
    }
}

impl<F: Faults + Drop> Port for PortUnder<F> {
    type Link = LinkUnder<F>;

    ghost counts = { port_counts };

    fn accept(&mut self) -> Result<Accepted<LinkUnder<F>>, PortFault>
        ensures counted { HasAccepted result (port_counts self.old) (port_counts self.new) }
        ensures unused { IfOk result (λ given. IfLink given (λ link. IsUnusedLink (link_tells link))) }
        ensures answer { result ≡ given_by (is_failing self.old.plan) self.old.is_to_rest self.old.links }
        ensures after { self.new ≡ passed_by (is_failing self.old.plan) self.old.is_to_rest self.old.links self.old }
    {
        if self.plan.fails() {
            return Err(PortFault::Fault);
        }
        if self.is_to_rest {
            self.is_to_rest = false;
            self.rests = self.rests.saturating_add(1);
            return Ok(Accepted::Rest);
        }
        let Some(link) = self.links.pop() else {
            self.ends = self.ends.saturating_add(1);
            return Ok(Accepted::End);
        };
        self.given = self.given.saturating_add(1);
        self.is_to_rest = self.rests_after_each;
        Ok(Accepted::Link(link))
    }
}
