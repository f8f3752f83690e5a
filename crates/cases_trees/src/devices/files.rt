//! A device's file. A line `file` begins one, and its lines follow, each with a newline behind it. `read` tells the
//! file that is written again for it, or why it is refused; `with [OLD,NEW]` the same of the file with one text in
//! the place of another, both JSON strings; and `cut` why each of its fronts is refused. `many COUNT` and `nested
//! COUNT` are files of so many items that are made.

use crate::devices::large;
use crate::devices::texts::{shown, two_texts, written};
use crate::words::number;
use anyhow::bail;
use ss_device_file::{DeviceFault, read_device};
use std::alloc::Global;

/// The file that is read, changed and cut.
#[derive(Drop)]
pub struct Files {
    text: String,
}

/// Why a file is refused.
fn refused(alloc: Global, fault: &DeviceFault) -> anyhow::Result<String> {
    Ok(match fault {
        DeviceFault::BadLine { number } => format!(in alloc; "line {number}")?,
        DeviceFault::BadTree { id } => format!(in alloc; "tree {}", id.as_str())?,
        DeviceFault::Memory => String::from_str(alloc, "memory")?,
    })
}

/// What a file is read as: the file that is written again, or why it is refused.
fn again(alloc: Global, text: &str) -> anyhow::Result<String> {
    match read_device(alloc, text.as_bytes()) {
        Ok(device) => {
            let written = written(alloc, &device);
            drop(device);
            written
        }
        Err(fault) => refused(alloc, &fault),
    }
}

/// What a file is read as; one that is written again is shown.
fn reading_line(alloc: Global, text: &str) -> anyhow::Result<String> {
    let again = again(alloc, text)?;
    if again.as_str().starts_with('[') {
        return shown(alloc, again.as_str());
    }
    Ok(again)
}

/// What the front of a file is read as.
fn front(alloc: Global, bytes: &[u8]) -> anyhow::Result<String> {
    match read_device(alloc, bytes) {
        Ok(device) => {
            drop(device);
            Ok(String::from_str(alloc, "read")?)
        }
        Err(fault) => refused(alloc, &fault),
    }
}

/// How many bytes a made file has, how many are written again for it, and the first that differs.
fn compared(alloc: Global, text: &str) -> anyhow::Result<String> {
    let again = again(alloc, text)?;
    let different = text
        .as_bytes()
        .iter()
        .zip(again.as_bytes())
        .position(|(byte, other)| byte != other);
    Ok(format!(in alloc;
        "{} bytes, {} written again, the first that differs: {different:?}",
        text.len(),
        again.len()
    )?)
}

/// How a made file of many bookmarks compares.
fn many_line(alloc: Global, count: &str) -> anyhow::Result<String> {
    let file = large::many(alloc, number(count)?)?;
    compared(alloc, file.as_str())
}

/// How a made file of folders, each in the one before, compares.
fn nested_line(alloc: Global, count: &str) -> anyhow::Result<String> {
    let file = large::nested(alloc, number(count)?)?;
    compared(alloc, file.as_str())
}

/// Fronts that are refused alike: those of so many bytes and more, up to the next.
#[derive(Drop)]
struct Alike {
    told: String,
    first: usize,
    refusal: String,
}

impl Alike {
    fn new(alloc: Global) -> Alike {
        Alike {
            told: String::new(alloc),
            first: 0,
            refusal: String::new(alloc),
        }
    }

    /// Tells the fronts of fewer than so many bytes.
    fn tell(&mut self, alloc: Global, end: usize) -> anyhow::Result<()> {
        if let Some(last) = end.checked_sub(1) {
            let line = format!(in alloc; "{} to {last} bytes: {}\n", self.first, self.refusal)?;
            self.told.push_str(line.as_str())?;
        }
        Ok(())
    }

    /// Takes the refusal of the front of so many bytes.
    fn take(&mut self, alloc: Global, at: usize, refusal: String) -> anyhow::Result<()> {
        if refusal != self.refusal {
            self.tell(alloc, at)?;
            self.first = at;
            self.refusal = refusal;
        }
        Ok(())
    }
}

impl Files {
    pub fn new(alloc: Global) -> Files {
        Files {
            text: String::new(alloc),
        }
    }

    /// One more line of the file.
    pub fn push_line(&mut self, line: &str) -> anyhow::Result<()> {
        self.text.push_str(line)?;
        self.text.push('\n')?;
        Ok(())
    }

    fn with(&self, alloc: Global, texts: &str) -> anyhow::Result<String> {
        let (old, new) = two_texts(alloc, texts)?;
        let Some((before, behind)) = self.text.as_str().split_once(old.as_str()) else {
            bail!("nothing to change");
        };
        reading_line(alloc, format!(in alloc; "{before}{new}{behind}")?.as_str())
    }

    fn cut(&self, alloc: Global) -> anyhow::Result<String> {
        let bytes = self.text.as_bytes();
        let mut alike = Alike::new(alloc);
        for at in 0..bytes.len() {
            alike.take(alloc, at, front(alloc, &bytes[..at])?)?;
        }
        alike.tell(alloc, bytes.len())?;
        Ok(format!(in alloc; "{} fronts\n{}", bytes.len(), alike.told)?)
    }

    /// Begins a file.
    fn begin(&mut self, alloc: Global) -> anyhow::Result<String> {
        self.text = String::new(alloc);
        Ok(String::from_str(alloc, "its lines follow")?)
    }

    /// What comes of a line, if it is about a file.
    pub fn outcome(&mut self, alloc: Global, line: &str) -> anyhow::Result<Option<String>> {
        let told = match line.split_once(' ') {
            Some(("with", texts)) => self.with(alloc, texts),
            Some(("many", count)) => many_line(alloc, count),
            Some(("nested", count)) => nested_line(alloc, count),
            None if line == "file" => self.begin(alloc),
            None if line == "read" => reading_line(alloc, self.text.as_str()),
            None if line == "cut" => self.cut(alloc),
            _ => return Ok(None),
        };
        Ok(Some(told?))
    }
}
