//! A chain under calls. `chain` begins an empty one; `reserve COUNT`, `push VALUE`, `move PLACE`, `remove PLACE` and
//! `add PLACE NUMBER` are calls on it, where a place counts from the front and from 0. Behind each call stands what
//! the chain then has, read from either end. Nodes are numbered as they are first seen. `draws SEED TURNS` puts a
//! chain and a plain list under random calls.

ghost use Rattle.std.specs.Prelude.{IfSome};
ghost use Rattle.ss_list.specs.Chain.{IsLive};

use crate::rows::chain_draws;
use crate::words::number;
use anyhow::bail;
use ss_list::{At, Chain, Steps};
use std::alloc::{AllocError, Global};
use std::sync::ledger::Ledger;

/// Room is made for at most so many nodes.
const MOST: u32 = 1_000_000;

/// The values from the front to the back.
pub fn forward<L: Ledger>(
    alloc: Global,
    chain: &Chain<u32>,
    steps: &mut Steps<L>,
) -> Result<Vec<u32>, AllocError> {
    let mut values = Vec::new(alloc);
    let mut at = chain.front();
    for _ in 0..chain.len() {
        let Some(here) = at else { break };
        values.push(*chain.get(here))?;
        at = chain.next(here, steps);
    }
    Ok(values)
}

/// The values from the back to the front.
pub fn backward<L: Ledger>(
    alloc: Global,
    chain: &Chain<u32>,
    steps: &mut Steps<L>,
) -> Result<Vec<u32>, AllocError> {
    let mut values = Vec::new(alloc);
    let mut at = chain.back();
    for _ in 0..chain.len() {
        let Some(here) = at else { break };
        values.push(*chain.get(here))?;
        at = chain.prev(here, steps);
    }
    Ok(values)
}

/// The node that so many links lead to from the front.
pub fn nth<L: Ledger>(chain: &Chain<u32>, n: usize, steps: &mut Steps<L>) -> Option<At>
    ensures { IfSome result (IsLive chain.now) }
{
    let mut at = chain.front();
    for _ in 0..n {
        at = match at {
            Some(here) => chain.next(here, steps),
            None => None,
        };
    }
    at
}

/// What a chain has: its values from either end, its length and its free nodes.
pub fn chain_line<L: Ledger>(
    alloc: Global,
    chain: &Chain<u32>,
    steps: &mut Steps<L>,
) -> anyhow::Result<String> {
    let (values, turned) = (
        forward(alloc, chain, steps)?,
        backward(alloc, chain, steps)?,
    );
    Ok(format!(in alloc;
        "{values:?} and back {turned:?}, length {}, empty {}, spare {}",
        chain.len(),
        chain.is_empty(),
        chain.spare()
    )?)
}

/// The chain that is called, and its nodes as they were first seen.
#[derive(Drop)]
pub struct Chains {
    chain: Chain<u32>,
    seen: Vec<At>,
}

fn value(text: &str) -> anyhow::Result<u32> {
    Ok(text.parse::<u32>()?)
}

impl Chains {
    pub fn new(alloc: Global) -> Chains {
        Chains {
            chain: Chain::new(alloc),
            seen: Vec::new(alloc),
        }
    }

    /// The number of a node, from 1.
    fn number_of(&mut self, at: At) -> anyhow::Result<usize> {
        let place = match self.seen.iter().position(|seen| *seen == at) {
            Some(place) => place,
            None => {
                self.seen.push(at)?;
                self.seen.len().saturating_sub(1)
            }
        };
        Ok(place.saturating_add(1))
    }

    fn reserve(&mut self, alloc: Global, count: u32) -> anyhow::Result<String> {
        if count > MOST || self.chain.len() > MOST {
            bail!("too many nodes");
        }
        self.chain.reserve(count)?;
        Ok(String::from_str(alloc, "room")?)
    }

    fn push(&mut self, alloc: Global, value: u32) -> anyhow::Result<String> {
        if self.chain.spare() == 0 {
            bail!("no room");
        }
        let at = self.chain.push_back(value);
        Ok(format!(in alloc; "node {}", self.number_of(at)?)?)
    }

    fn move_back<L: Ledger>(
        &mut self,
        alloc: Global,
        place: usize,
        steps: &mut Steps<L>,
    ) -> anyhow::Result<String> {
        let Some(at) = nth(&self.chain, place, steps) else {
            bail!("no node");
        };
        self.chain.move_back(at);
        Ok(format!(in alloc; "node {}", self.number_of(at)?)?)
    }

    fn remove<L: Ledger>(
        &mut self,
        alloc: Global,
        place: usize,
        steps: &mut Steps<L>,
    ) -> anyhow::Result<String> {
        let Some(at) = nth(&self.chain, place, steps) else {
            bail!("no node");
        };
        let value = self.chain.remove(at);
        Ok(format!(in alloc; "{value} of node {}", self.number_of(at)?)?)
    }

    fn add<L: Ledger>(
        &mut self,
        alloc: Global,
        place: usize,
        number: u32,
        steps: &mut Steps<L>,
    ) -> anyhow::Result<String> {
        let Some(at) = nth(&self.chain, place, steps) else {
            bail!("no node");
        };
        let value = self.chain.get_mut(at);
        *value = value.saturating_add(number);
        let Some(again) = nth(&self.chain, place, steps) else {
            bail!("no node");
        };
        let value = *self.chain.get(again);
        Ok(format!(in alloc; "{value} in node {}", self.number_of(again)?)?)
    }

    /// What a call gives, if the words are one.
    fn call<L: Ledger>(
        &mut self,
        alloc: Global,
        words: &[&str],
        steps: &mut Steps<L>,
    ) -> anyhow::Result<Option<String>> {
        Ok(Some(match words {
            ["chain"] => {
                *self = Chains::new(alloc);
                String::from_str(alloc, "none")?
            }
            ["reserve", count] => self.reserve(alloc, value(count)?)?,
            ["push", number] => self.push(alloc, value(number)?)?,
            ["move", place] => self.move_back(alloc, place.parse::<usize>()?, steps)?,
            ["remove", place] => self.remove(alloc, place.parse::<usize>()?, steps)?,
            ["add", place, number] => {
                self.add(alloc, place.parse::<usize>()?, value(number)?, steps)?
            }
            _ => return Ok(None),
        }))
    }

    /// What comes of a line, if it is about a chain.
    pub fn outcome<L: Ledger>(
        &mut self,
        alloc: Global,
        words: &[&str],
        steps: &mut Steps<L>,
    ) -> anyhow::Result<Option<String>> {
        if let ["draws", seed, turns] = words {
            let told = chain_draws::run(alloc, number(seed)?, number(turns)?, steps)?;
            return Ok(Some(told));
        }
        match self.call(alloc, words, steps)? {
            Some(gives) => {
                let told = chain_line(alloc, &self.chain, steps)?;
                Ok(Some(format!(in alloc; "{gives}; {told}")?))
            }
            None => Ok(None),
        }
    }
}
