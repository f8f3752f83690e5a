//! What is there while a script is played: a server, and devices' files.

use crate::syncs::devices::{device, items, renamed};
use crate::syncs::net::Net;
use crate::syncs::runs::{Failing, Files, Ran, file_of, place_of, run};
use crate::syncs::server::Server;
use crate::syncs::twists::Twist;
use anyhow::bail;
use std::alloc::Global;

/// A server in a net, devices' files, and what fails in the next sync.
#[derive(Drop)]
pub struct Play {
    alloc: Global,
    net: Net<Server>,
    files: Files,
    failing: Failing,
}

/// How a sync ended, and on which way.
#[derive(Drop)]
pub struct Told {
    pub is_done: bool,
    /// The status, what was printed, and the file.
    pub end: String,
    /// How many requests there were, and what was dialled.
    pub way: String,
}

const CALM: Failing = Failing {
    store: None,
    output: None,
};

/// Words as texts of their own.
fn words_of(alloc: Global, words: &[&str]) -> anyhow::Result<Vec<String>> {
    let mut all = Vec::new(alloc);
    for word in words {
        all.push(String::from_str(alloc, word)?)?;
    }
    Ok(all)
}

/// What was dialled.
fn dialled(alloc: Global, texts: &[String]) -> anyhow::Result<String> {
    if texts.is_empty() {
        return Ok(String::from_str(alloc, "nothing dialled")?);
    }
    let mut all = String::from_str(alloc, "dialled")?;
    for text in texts {
        all.push_str(" ")?;
        all.push_str(text.as_str())?;
    }
    Ok(all)
}

/// What became of a file.
fn fate(before: Option<&[u8]>, after: Option<&[u8]>) -> &'static str {
    match (before, after) {
        (_, None) => "no file",
        (Some(before), Some(after)) if before == after => "the file as before",
        (_, Some(_)) => "the file saved",
    }
}

impl Play {
    pub fn new(alloc: Global) -> anyhow::Result<Play> {
        Ok(Play {
            alloc,
            net: Net::new(alloc, Server::new(alloc)?),
            files: Vec::new(alloc),
            failing: CALM,
        })
    }

    /// Begins anew: a server that holds nothing, and no files.
    pub fn begin(&mut self) -> anyhow::Result<()> {
        self.files = Vec::new(self.alloc);
        self.calm();
        match self.net.server_mut() {
            Some(server) => server.reset(self.alloc),
            None => bail!("no server"),
        }
    }

    /// Empties the server, which serves as before.
    pub fn empty(&mut self) -> anyhow::Result<()> {
        match self.net.server_mut() {
            Some(server) => server.empty(self.alloc),
            None => bail!("no server"),
        }
    }

    /// From now on nothing fails.
    fn calm(&mut self) {
        self.net.calm();
        self.failing = CALM;
    }

    pub fn set_clock(&mut self, now: u64) {
        if let Some(server) = self.net.server_mut() {
            server.set_clock(now);
        }
    }

    pub fn close_links(&mut self) {
        if let Some(server) = self.net.server_mut() {
            server.close_links();
        }
    }

    pub fn meddle(&mut self, times: u64) {
        if let Some(server) = self.net.server_mut() {
            server.meddle(times);
        }
    }

    pub fn twist(&mut self, twist: Option<Twist>) {
        if let Some(server) = self.net.server_mut() {
            server.twist(twist);
        }
    }

    /// In the next sync the call with this number fails, of dials, of links (all calls, or writes alone), of the store
    /// or of the output.
    pub fn fail(&mut self, kind: &str, number: u64) -> anyhow::Result<()> {
        let mut failing = Vec::new(self.alloc);
        failing.push(number)?;
        match kind {
            "dial" => self.net.fail_dials(failing),
            "link" => self.net.fail_calls(failing),
            "write" => self.net.fail_writes(failing),
            "store" => self.failing.store = Some(number),
            "print" => self.failing.output = Some(number),
            _ => bail!("what fails?"),
        }
        Ok(())
    }

    /// Puts a file in the place of the one with this name.
    pub fn put(&mut self, name: &str, bytes: Vec<u8>) -> anyhow::Result<()> {
        let place = place_of(self.files.as_slice(), name);
        if let Some(file) = self.files.get_mut(place) {
            file.1 = bytes;
            return Ok(());
        }
        self.files
            .push((String::from_str(self.alloc, name)?, bytes))?;
        Ok(())
    }

    /// Adds a line to a file.
    pub fn add_line(&mut self, name: &str, line: &str) -> anyhow::Result<()> {
        let mut bytes = match file_of(self.files.as_slice(), name) {
            Some(bytes) => Vec::from_slice(self.alloc, bytes)?,
            None => Vec::new(self.alloc),
        };
        bytes.extend_from_slice(line.as_bytes())?;
        bytes.extend_from_slice(b"\n")?;
        self.put(name, bytes)
    }

    /// Makes the file of a new device with so many bookmarks.
    pub fn make(&mut self, name: &str, count: u64, title: &str) -> anyhow::Result<()> {
        let file = device(self.alloc, count, title)?;
        self.put(name, file)
    }

    /// Renames a bookmark of a device that was synced.
    pub fn rename(
        &mut self,
        name: &str,
        number: u64,
        titles: (&str, &str),
        time: u64,
    ) -> anyhow::Result<()> {
        let Some(file) = file_of(self.files.as_slice(), name) else {
            bail!("no such file");
        };
        let file = renamed(self.alloc, file, number, titles.0, time, titles.1)?;
        self.put(name, file)
    }

    /// The lines of a file's items; of one id, where it isn't empty.
    pub fn items(&self, name: &str, id: &str) -> anyhow::Result<String> {
        match file_of(self.files.as_slice(), name) {
            Some(file) => Ok(items(self.alloc, file, id)?),
            None => bail!("no such file"),
        }
    }

    /// Asks the server something beside a sync, and tells it.
    pub fn ask(&mut self, method: &str, target: &str) -> anyhow::Result<String> {
        match self.net.server_mut() {
            Some(server) => server.tell(self.alloc, method, target, ""),
            None => bail!("no server"),
        }
    }

    /// What the last sync asked.
    pub fn asked(&self) -> &[String] {
        match self.net.server() {
            Some(server) => server.asked(),
            None => &[],
        }
    }

    /// Forgets what was asked.
    fn forget(&mut self) {
        if let Some(server) = self.net.server_mut() {
            server.forget(self.alloc);
        }
    }

    fn outcome_of(&self, ran: &Ran, name: &str) -> anyhow::Result<Told> {
        let alloc = self.alloc;
        let after = match &ran.file {
            Some(bytes) => Some(bytes.as_slice()),
            None => None,
        };
        let fate = fate(file_of(self.files.as_slice(), name), after);
        let line = match ran.line.as_str().trim_end() {
            "" => "nothing is printed",
            line => line,
        };
        let others = if ran.keeps_others {
            ""
        } else {
            ", and others changed"
        };
        Ok(Told {
            is_done: ran.status == 0,
            end: format!(in alloc; "{} {line}; {fate}{others}", ran.status)?,
            way: format!(in alloc;
                "{} requests, {}",
                self.asked().len(),
                dialled(alloc, self.net.asked())?
            )?,
        })
    }

    /// Runs the command with these words, and tells how it went; afterwards nothing fails any more.
    pub fn sync(&mut self, words: &[&str]) -> anyhow::Result<Told> {
        let name = words.get(2).copied().unwrap_or("");
        let (ran, told) = self.try_sync(words)?;
        let Ran {
            status: _,
            line,
            file,
            keeps_others: _,
        } = ran;
        drop(line);
        if let Some(bytes) = file {
            self.put(name, bytes)?;
        }
        Ok(told)
    }

    /// The same, and leaves the files here as they were.
    pub fn try_sync(&mut self, words: &[&str]) -> anyhow::Result<(Ran, Told)> {
        self.forget();
        let all = words_of(self.alloc, words)?;
        let ran = run(
            self.alloc,
            all.as_slice(),
            &mut self.net,
            self.files.as_slice(),
            &self.failing,
        )?;
        let told = self.outcome_of(&ran, words.get(2).copied().unwrap_or(""))?;
        self.calm();
        Ok((ran, told))
    }
}
