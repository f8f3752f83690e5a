//! A plain check of a play after each event.

use crate::worlds::checks::is_one_tree;
use crate::worlds::playing::{ById, bookmarks, request};
use crate::worlds::plays::Play;
use ss_bso::Row;
use ss_query::{Mode, Request};
use ss_text::Id;
use ss_world::{Event, Seat, WorldFault};
use std::alloc::{AllocError, Global};
use std::collections::BTreeMap;

/// What was seen of a play up to its last event.
#[derive(Drop)]
pub struct Watch {
    rows: ById,
    /// What each device has put since its batch began.
    posted: Vec<Vec<Id>>,
    /// How often the rows changed.
    pub commits: u64,
    /// How often the device didn't hear of that.
    pub unheard: u64,
    /// How often events were refused.
    pub refused: u64,
    /// How often rows changed that may not, or in part, or to no tree.
    pub violations: u64,
    /// Whether it is told what came of each event.
    tells: bool,
    /// What came of each event, where it is told.
    pub lines: Vec<String>,
}

/// The device whose request comes to the account.
fn delivered(event: &Event) -> Option<u32> {
    match event {
        Event::Deliver { device, .. } => Some(*device),
        Event::LoseReply { device, .. } => Some(*device),
        _ => None,
    }
}

fn is_same(row: &Row, other: &Row) -> bool {
    row.modified == other.modified && row.payload.as_str() == other.payload.as_str()
}

/// Whether this row is there.
fn is_at(rows: &ById, id: &Id, row: &Row) -> bool {
    match rows.get(id) {
        Some(other) => is_same(row, other),
        None => false,
    }
}

fn are_same(rows: &ById, others: &ById) -> bool {
    for (id, row) in rows.iter() {
        if !is_at(others, id, row) {
            return false;
        }
    }
    rows.len() == others.len()
}

fn newest(rows: &ById) -> u64 {
    let mut newest: u64 = 0;
    for (_, row) in rows.iter() {
        newest = newest.max(row.modified.get());
    }
    newest
}

/// Whether the rows are those before with rows of these ids put at one later time, each of them, and no other.
fn is_whole(before: &ById, after: &ById, ids: &[Id]) -> bool {
    let stamp = newest(after);
    let mut written: usize = 0;
    for (id, row) in after.iter() {
        if row.modified.get() == stamp {
            written = written.saturating_add(1);
        } else if !is_at(before, id, row) {
            return false;
        }
    }
    for id in ids {
        match after.get(id) {
            Some(row) if row.modified.get() == stamp => {}
            _ => return false,
        }
    }
    for (id, _) in before.iter() {
        if after.get(id).is_none() {
            return false;
        }
    }
    newest(before) < stamp && written == ids.len()
}

/// What an event is answered, and what rows and devices are after it.
fn line(
    alloc: Global,
    play: &Play,
    rows: &ById,
    answer: &Option<WorldFault>,
) -> anyhow::Result<String> {
    let mut line = match answer {
        None => String::from_str(alloc, "done")?,
        Some(fault) => format!(in alloc; "{fault:?}")?,
    };
    line.push_str(format!(in alloc; ", {} rows at {}", rows.len(), newest(rows))?.as_str())?;
    for seat in play.seats() {
        let state = match seat {
            Seat::Idle(_) => "idle",
            Seat::Syncs(_) => "syncing",
        };
        let device = seat.device();
        let more = format!(in alloc;
            "; {state} at {} with {} rows",
            device.stamp().get(),
            device.mirror().len()
        )?;
        line.push_str(more.as_str())?;
    }
    Ok(line)
}

impl Watch {
    pub fn new(alloc: Global, devices: usize, tells: bool) -> Result<Watch, AllocError> {
        let mut posted = Vec::new(alloc);
        for _ in 0..devices {
            posted.push(Vec::new(alloc))?;
        }
        Ok(Watch {
            rows: BTreeMap::new(alloc),
            posted,
            commits: 0,
            unheard: 0,
            refused: 0,
            violations: 0,
            tells,
            lines: Vec::new(alloc),
        })
    }

    /// Notes what a request puts; whether rows may change by it.
    fn note(&mut self, alloc: Global, n: u32, request: &Request) -> Result<bool, AllocError> {
        let Request::Post { records, mode, .. } = request else {
            return Ok(false);
        };
        let Some(ids) = self.posted.get_mut(n as usize) else {
            return Ok(false);
        };
        if *mode == Mode::Plain || *mode == Mode::Begin {
            ids.clear();
        }
        for part in records.parts.as_slice() {
            ids.push(part.id.copy(alloc)?)?;
        }
        Ok(match mode {
            Mode::Plain => true,
            Mode::Commit { .. } => true,
            _ => false,
        })
    }

    /// Whether rows may change by the request that a device has under way, which is noted.
    fn note_of(&mut self, alloc: Global, play: &Play, n: u32) -> anyhow::Result<bool> {
        let request = request(alloc, play, n)?;
        let changes = match &request {
            Some(request) => self.note(alloc, n, request),
            None => Ok(false),
        };
        drop(request);
        Ok(changes?)
    }

    /// The device that may change rows by an event.
    fn writer(&mut self, alloc: Global, play: &Play, event: &Event) -> anyhow::Result<Option<u32>> {
        match delivered(event) {
            Some(n) if self.note_of(alloc, play, n)? => Ok(Some(n)),
            _ => Ok(None),
        }
    }

    /// Whether rows are as before, or are one tree, to which all that a device has put was added at once.
    fn is_fine(&self, alloc: Global, rows: &ById, writer: Option<u32>) -> Result<bool, AllocError> {
        if are_same(&self.rows, rows) {
            return Ok(true);
        }
        let Some(n) = writer else {
            return Ok(false);
        };
        match self.posted.get(n as usize) {
            Some(ids) => Ok(
                is_whole(&self.rows, rows, ids.as_slice()) && is_one_tree(alloc, rows)?,
            ),
            None => Ok(false),
        }
    }

    /// Checks the rows that an event leaves, and counts where they changed.
    fn check(
        &mut self,
        alloc: Global,
        event: &Event,
        writer: Option<u32>,
        rows: &ById,
    ) -> anyhow::Result<()> {
        if !self.is_fine(alloc, rows, writer)? {
            self.violations = self.violations.saturating_add(1);
        }
        if !are_same(&self.rows, rows) {
            self.commits = self.commits.saturating_add(1);
            if let Event::LoseReply { .. } = event {
                self.unheard = self.unheard.saturating_add(1);
            }
        }
        Ok(())
    }

    /// Counts an event that is refused, and tells what came of it.
    fn hear(
        &mut self,
        alloc: Global,
        play: &Play,
        rows: &ById,
        answer: &Option<WorldFault>,
    ) -> anyhow::Result<()> {
        if answer.is_some() {
            self.refused = self.refused.saturating_add(1);
        }
        if self.tells {
            self.lines.push(line(alloc, play, rows, answer)?)?;
        }
        Ok(())
    }

    /// Looks at what an event left.
    fn look(
        &mut self,
        alloc: Global,
        play: &Play,
        event: &Event,
        writer: Option<u32>,
        answer: &Option<WorldFault>,
    ) -> anyhow::Result<()> {
        let rows = bookmarks(alloc, play)?;
        self.check(alloc, event, writer, &rows)?;
        self.hear(alloc, play, &rows, answer)?;
        self.rows = rows;
        Ok(())
    }

    fn happen(&mut self, alloc: Global, play: &mut Play, event: &Event) -> anyhow::Result<()> {
        let writer = self.writer(alloc, play, event)?;
        let answer = play.step(alloc, event)?;
        let looked = self.look(alloc, play, event, writer, &answer);
        drop(answer);
        looked
    }

    /// Does an event, and checks what it leaves.
    pub fn step(&mut self, alloc: Global, play: &mut Play, event: Event) -> anyhow::Result<()> {
        let happened = self.happen(alloc, play, &event);
        drop(event);
        happened
    }
}
