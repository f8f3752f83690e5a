//! A chain under random calls, against what a plain list does.

ghost use Rattle.std.specs.Prelude.{◌<◌};

use crate::rows::chains::{backward, chain_line, forward, nth};
use anyhow::bail;
use ss_list::{Chain, Steps};
use std::alloc::Global;
use std::sync::ledger::Ledger;

/// A linear congruential generator with Knuth's constants, which gives its upper bits.
#[derive(Drop)]
struct Choices {
    state: u64,
}

impl Choices {
    fn below(&mut self, n: u32) -> u32
        requires { 0 < n }
        ensures { result < n }
    {
        self.state = self
            .state
            .wrapping_mul(6_364_136_223_846_793_005)
            .wrapping_add(1_442_695_040_888_963_407);
        ((self.state >> 33) % u64::from(n)) as u32
    }
}

/// A chain and a list that must be alike, and what was found where they weren't.
#[derive(Drop)]
struct Draws {
    choices: Choices,
    chain: Chain<u32>,
    list: Vec<u32>,
    differing: Vec<String>,
}

/// One call on the chain and the same on the list, and what differs in what they give: a removed value.
fn turn<L: Ledger>(
    alloc: Global,
    draws: &mut Draws,
    steps: &mut Steps<L>,
) -> anyhow::Result<Option<String>> {
    let Draws {
        choices,
        chain,
        list,
        differing: _,
    } = draws;
    let value = choices.below(1000);
    let place = choices.below(chain.len().max(1)) as usize;
    let call = choices.below(6);
    let Some(at) = nth(chain, place, steps) else {
        push(chain, list, value)?;
        return Ok(None);
    };
    if call > 3 {
        push(chain, list, value)?;
        return Ok(None);
    }
    if place >= list.len() {
        bail!("the list is shorter");
    }
    match call {
        0 | 1 => {
            let (removed, wanted) = (chain.remove(at), list.remove(place));
            if removed != wanted {
                return Ok(Some(format!(in alloc; "removed {removed} and not {wanted}")?));
            }
        }
        2 => {
            chain.move_back(at);
            let moved = list.remove(place);
            list.push(moved)?;
        }
        _ => {
            *chain.get_mut(at) = value;
            list[place] = value;
        }
    }
    Ok(None)
}

/// Puts a value at the end of both.
fn push(chain: &mut Chain<u32>, list: &mut Vec<u32>, value: u32) -> anyhow::Result<()> {
    if chain.len() > 1_000_000 {
        bail!("too many nodes");
    }
    chain.reserve(1)?;
    if chain.spare() == 0 {
        bail!("no room");
    }
    chain.push_back(value);
    list.push(value)?;
    Ok(())
}

/// Whether a chain has the values of a list, read from either end, and no more.
fn is_same<L: Ledger>(
    alloc: Global,
    chain: &Chain<u32>,
    list: &[u32],
    steps: &mut Steps<L>,
) -> anyhow::Result<bool> {
    let values = forward(alloc, chain, steps)?;
    let mut turned = backward(alloc, chain, steps)?;
    turned.reverse();
    Ok(
        values.as_slice() == list
            && turned.as_slice() == list
            && chain.len() as usize == list.len()
            && chain.is_empty() == list.is_empty(),
    )
}

impl Draws {
    fn new(alloc: Global, seed: u64) -> Draws {
        Draws {
            choices: Choices { state: seed },
            chain: Chain::new(alloc),
            list: Vec::new(alloc),
            differing: Vec::new(alloc),
        }
    }

    /// One turn; what differs is noted.
    fn play<L: Ledger>(
        &mut self,
        alloc: Global,
        number: u64,
        steps: &mut Steps<L>,
    ) -> anyhow::Result<()> {
        if let Some(found) = turn(alloc, self, steps)? {
            self.differing
                .push(format!(in alloc; "\nturn {number}: {found}")?)?;
        }
        if !is_same(alloc, &self.chain, self.list.as_slice(), steps)? {
            let found = chain_line(alloc, &self.chain, steps)?;
            self.differing.push(format!(in alloc;
                "\nturn {number}: {found} and not {:?}",
                self.list
            )?)?;
        }
        Ok(())
    }

    /// So many turns.
    fn play_all<L: Ledger>(
        &mut self,
        alloc: Global,
        turns: u64,
        steps: &mut Steps<L>,
    ) -> anyhow::Result<()> {
        for number in 0..turns {
            self.play(alloc, number, steps)?;
        }
        Ok(())
    }

    /// What was compared, what differs, and what the chain has at last.
    fn line<L: Ledger>(
        &self,
        alloc: Global,
        turns: u64,
        steps: &mut Steps<L>,
    ) -> anyhow::Result<String> {
        let last = chain_line(alloc, &self.chain, steps)?;
        let mut told = format!(in alloc;
            "{turns} turns compared with a list, {} differ; at last {last}",
            self.differing.len()
        )?;
        for found in self.differing.iter() {
            told.push_str(found.as_str())?;
        }
        Ok(told)
    }
}

/// What comes of so many random calls, each compared with what a plain list has.
pub fn run<L: Ledger>(
    alloc: Global,
    seed: u64,
    turns: u64,
    steps: &mut Steps<L>,
) -> anyhow::Result<String> {
    let mut draws = Draws::new(alloc, seed);
    draws.play_all(alloc, turns, steps)?;
    draws.line(alloc, turns, steps)
}
