//! A case as its line tells it: `manner=browser` of reading conditions, `most=ENTRIES` of a journal, `connections=LINKS` of a term, which call of the keepers,
//! the port, the site, the store of logs or a link `fails`, `gate=MESSAGE` from which on the gate ends a link, `rests=1` where the port rests after each link, and the texts that come from each link, with `/` between two links. Behind `
//! -- ` are a server's words.

use crate::terms::texts::Texts;
use anyhow::bail;
use ss_route::Manner;
use std::alloc::Global;

/// What comes from a link, and which of its calls fails, reads and writes counted together from 1; 0 is none.
#[derive(Drop)]
pub struct Planned {
    pub pieces: Vec<Vec<u8>>,
    pub failing: u64,
}

/// What fails, as the numbers of calls from 1; 0 is none.
#[derive(Clone, Copy)]
pub struct Failing {
    /// The call of each keeper; its load is the first one.
    pub keeper: u64,
    pub port: u64,
    pub site: u64,
    /// The call of the site that finds no memory.
    pub memory: u64,
    /// The call for a keeper of the site that finds no account.
    pub lost: u64,
    /// The call of the store of a server's logs.
    pub log: u64,
}

#[derive(Drop)]
pub struct Case {
    /// How the conditions of messages are read; a server's is told by its words.
    pub manner: Manner,
    /// The most entries of each account's journal.
    pub most: u32,
    /// The most links of a term.
    pub connections: u32,
    /// The account of which what is kept can't be opened; 0 is none.
    pub damaged: u32,
    pub failing: Failing,
    /// The message of a link from which on the gate ends it, counted from 1; 0 is none.
    pub gate: u64,
    /// Whether the port rests after each link.
    pub rests: bool,
    pub links: Vec<Planned>,
    pub words: String,
}

impl Case {
    fn new(alloc: Global, words: &str) -> anyhow::Result<Case> {
        Ok(Case {
            manner: Manner::Profile,
            most: 9,
            connections: 5,
            damaged: 0,
            failing: Failing {
                keeper: 0,
                port: 0,
                site: 0,
                memory: 0,
                lost: 0,
                log: 0,
            },
            gate: 0,
            rests: false,
            links: Vec::new(alloc),
            words: String::from_str(alloc, words)?,
        })
    }

    /// Takes a setting of the case.
    fn set(&mut self, name: &str, value: &str) -> anyhow::Result<()> {
        match (name, value) {
            ("manner", "browser") => {
                self.manner = Manner::Browser;
                Ok(())
            }
            _ => self.set_number(name, value.parse::<u64>()?),
        }
    }

    /// Takes a setting that is a number.
    fn set_number(&mut self, name: &str, value: u64) -> anyhow::Result<()> {
        match name {
            "most" => self.most = u32::try_from(value)?,
            "connections" => self.connections = u32::try_from(value)?,
            "damaged" => self.damaged = u32::try_from(value)?,
            "keeper" => self.failing.keeper = value,
            "port" => self.failing.port = value,
            "site" => self.failing.site = value,
            "memory" => self.failing.memory = value,
            "lost" => self.failing.lost = value,
            "log" => self.failing.log = value,
            "gate" => self.gate = value,
            "rests" => self.rests = value == 1,
            _ => bail!("no such setting"),
        }
        Ok(())
    }
}

/// A link of these words.
fn link(alloc: Global, texts: &Texts, words: &str) -> anyhow::Result<Planned> {
    let mut pieces = Vec::new(alloc);
    let mut failing = 0;
    for word in words.split(' ') {
        match word.split_once('=') {
            Some(("fails", call)) => failing = call.parse::<u64>()?,
            _ => texts.add_pieces(alloc, word, &mut pieces)?,
        }
    }
    Ok(Planned { pieces, failing })
}

/// The settings at the front of a line, and the rest of it.
fn settings<'a>(case: &mut Case, line: &'a str) -> anyhow::Result<&'a str> {
    let mut rest = line;
    for _ in 0..line.len() {
        let (word, behind) = rest.split_once(' ').unwrap_or((rest, ""));
        match word.split_once('=') {
            Some((name, value)) if name != "fails" => case.set(name, value)?,
            _ => break,
        }
        rest = behind;
    }
    Ok(rest)
}

/// The case of a line, behind its kind.
pub fn read(alloc: Global, texts: &Texts, line: &str) -> anyhow::Result<Case> {
    let (front, words) = line.split_once(" -- ").unwrap_or((line, ""));
    let mut case = Case::new(alloc, words)?;
    let rest = settings(&mut case, front)?;
    for words in rest.split(" / ") {
        case.links.push(link(alloc, texts, words)?)?;
    }
    Ok(case)
}
