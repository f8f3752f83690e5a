//! A dial in memory.

ghost use Rattle.std.specs.Prelude.{◌≡◌, ◌++◌, [], ◌∷◌, All, Some, IfOk, OnOk, OnErr, map, option_map, option_copied};
ghost use Rattle.std.specs.Prelude.{vec_len};
ghost use Rattle.ss_outside.specs.Plans.{fresh_plan, raised_count};
ghost use Rattle.ss_links.specs.Links.{IsUnusedLink, link_tells};
ghost use Rattle.ss_links.specs.Dials.{HasAsked, HasCause, HasDialled, HasHung, HangUpCounts, hung_of, with_link};
ghost use Rattle.ss_links.specs.Asked.{address_of};

use crate::dial::{Dial, DialFault};
use crate::memory_link::LinkUnder;
use ss_outside::{Faults, Numbered};
use std::alloc::{AllocError, Global};
use std::marker::Model;

/// What a dial was asked for.
#[derive(Drop, Debug)]
pub struct Asked {
    pub host: String,
    pub port: u16,
}

/// Gives its links in order, whatever host and port are asked for, and tells these; past the last one a dial fails. It keeps the
/// links that are hung up, and tells them as long as each of them tells and there is room.
#[derive(Drop, Debug)]
pub struct DialUnder<F: Faults + Drop> {
    alloc: Global,
    // From the last one to the next one.
    links: Vec<LinkUnder<F>>,
    asked: Vec<Asked>,
    hung: Vec<LinkUnder<F>>,
    room: usize,
    is_told: bool,
    faults: u64,
    plan: F,
}

impl<F: Faults + Drop> Model for DialUnder<F> {
    ghost use Rattle.std.specs.Prelude.{◌≤◌, All, map, reverse, length, Some, None, if◌then◌else◌, vec_capacity};
    ghost use Rattle.ss_links.specs.Links.{IsUnusedLink, link_tells};
    ghost use Rattle.ss_links.specs.Dials.{Dialling, hung_of};
    ghost use Rattle.ss_links.specs.Asked.{address_of};

    ghost Value = { Dialling };

    ghost view = { λ d. record {
      links = reverse d.links.items;
      asked = map address_of d.asked.items;
      hung = if d.is_told then Some (map hung_of d.hung.items) else None;
      room = d.room;
      plan = F.Faults.plan d.plan;
      faults = d.faults;
    } };

    ghost invariant = { λ d. All (λ link. IsUnusedLink (link_tells link)) d.links.items × (length d.hung.items ≤ d.room) × (d.room ≤ vec_capacity d.hung) };
}

/// A dial in memory, some of whose calls fail.
pub type MemDial = DialUnder<Numbered>;

impl DialUnder<Numbered> {
    /// A dial that gives these links, with the room to keep as many. The dials with the numbers `failing` fail, counted
    /// from 1.
    pub fn new(
        alloc: Global,
        mut links: Vec<LinkUnder<Numbered>>,
        failing: Vec<u64>,
    ) -> Result<MemDial, AllocError>
        requires { All (λ link. IsUnusedLink (link_tells link)) links.items }
        ensures { IfOk result (λ dial. dial ≡ record { links = links.items; asked = []; hung = Some []; room = vec_len links; plan = Some (fresh_plan failing.items); faults = 0 }) }
    {
        let room = links.len();
        let hung = Vec::with_capacity(alloc, room)?;
        links.reverse();
        Ok(DialUnder {
            alloc,
            links,
            asked: Vec::new(alloc),
            hung,
            room,
            is_told: true,
            faults: 0,
            plan: Numbered::new(failing),
        })
    }
}

impl<F: Faults + Drop> DialUnder<F> {
    /// The links that were hung up, in order, where all are told.
    pub fn hung(&self) -> Option<&[LinkUnder<F>]>
        ensures { option_map (map hung_of) (option_copied result) ≡ self.now.hung }
    {
        if self.is_told {
            Some(self.hung.as_slice())
        } else {
            None
        }
    }

    /// What it was asked for, in order.
    pub fn asked(&self) -> &[Asked]
        ensures { map address_of result.now ≡ self.now.asked }
    {
        self.asked.as_slice()
    }

    // Enters what it is asked for.
    fn enter(&mut self, host: &str, port: u16) -> Result<(), AllocError>
        ensures entered { OnOk result (self.new ≡ record self.old { asked = self.old.asked ++ record { host = host.now; port = port } ∷ [] }) }
        ensures refused { OnErr result (self.new ≡ self.old) }
    {
        let host = String::from_str(self.alloc, host)?;
        self.asked.push(Asked { host, port })?;
        Ok(())
    }

    // Counts a link of which a call had failed.
    fn count_faults(&mut self, link: &LinkUnder<F>)
        ensures counted { HangUpCounts (link_tells link.now) self.old.faults self.new.faults }
        ensures rest { self.new ≡ record self.old { faults = self.new.faults } }
    {
        if link.has_failed() {
            self.faults = self.faults.saturating_add(1);
        }
    }

    // Keeps a link that was hung up, where it tells and there is room; otherwise nothing is told from then on.
    fn keep(&mut self, link: LinkUnder<F>)
        ensures { self.new ≡ record self.old { hung = with_link self.old.room self.old.hung link } }
    {
        if link.written().is_none() {
            self.is_told = false;
            return;
        }
        if self.hung.len() == self.room {
            self.is_told = false;
            return;
        }
        self.hung.push_reserved(link);
    }

    // Fails, and counts it.
    fn fail(&mut self) -> DialFault
        ensures fault { result ≡ DialFault.Fault }
        ensures count { self.new ≡ record self.old { faults = raised_count self.old.faults } }
    {
        self.faults = self.faults.saturating_add(1);
        DialFault::Fault
    }
}

impl<F: Faults + Drop> Dial for DialUnder<F> {
    type Link = LinkUnder<F>;

    ghost dial_faults = { λ dial. dial.faults };

    ghost asked = { λ dial. Some dial.asked };

    ghost hung = { λ dial. dial.hung };

    fn dial(&mut self, host: &str, port: u16) -> Result<LinkUnder<F>, DialFault>
        ensures unused { IfOk result (λ link. IsUnusedLink (link_tells link)) }
        ensures asked { HasAsked (record { host = host.now; port = port }) result (Some self.old.asked) (Some self.new.asked) }
        ensures hung { self.new.hung ≡ self.old.hung }
        ensures cause { HasCause result self.old.faults self.new.faults }
        ensures dialled { HasDialled (record { host = host.now; port = port }) result self.old self.new }
    {
        let Ok(()) = self.enter(host, port) else {
            return Err(DialFault::Memory);
        };
        if self.plan.fails() {
            return Err(self.fail());
        }
        let Some(link) = self.links.pop() else {
            return Err(self.fail());
        };
        Ok(link)
    }

    fn hang_up(&mut self, link: LinkUnder<F>)
        ensures asked { Some self.new.asked ≡ Some self.old.asked }
        ensures hung { HasHung (link_tells link) self.old.hung self.new.hung }
        ensures counted { HangUpCounts (link_tells link) self.old.faults self.new.faults }
        ensures told { self.new.hung ≡ with_link self.old.room self.old.hung link }
        ensures rest { (self.new.links ≡ self.old.links) × (self.new.asked ≡ self.old.asked) × (self.new.room ≡ self.old.room) × (self.new.plan ≡ self.old.plan) }
    {
        self.count_faults(&link);
        self.keep(link);
    }
}
