//! A device under edits. A line `device` makes a new one; `add TIME PARENT KIND ID CONTENT`, `rename TIME ID TITLE`,
//! where the title is a JSON string, `move TIME ID PARENT` and `delete TIME ID` are edits of it, and `written` tells
//! its file.

use crate::devices::texts::{shown, text, written};
use crate::words::{id_of, number};
use anyhow::bail;
use ss_device::{Device, EditFault};
use ss_record::{Item, Kind};
use ss_text::Word;
use std::alloc::Global;
use std::mem::replace;

/// The device that is edited.
#[derive(Drop)]
pub struct Edits {
    device: Device,
}

/// What an edit is answered; nothing for other words.
type Answer = Option<Result<(), EditFault>>;

fn kind(word: &str) -> anyhow::Result<Kind> {
    match word {
        "folder" => Ok(Kind::Folder),
        "bookmark" => Ok(Kind::Bookmark),
        _ => bail!("no kind"),
    }
}

fn item(alloc: Global, kind_word: &str, of: &str, content: &str) -> anyhow::Result<Item> {
    let content = Word::new(String::from_str(alloc, content)?);
    match Item::new(alloc, id_of(alloc, of)?, kind(kind_word)?, content) {
        Ok(item) => Ok(item),
        Err(_) => bail!("an unfit item"),
    }
}

impl Edits {
    pub fn new(alloc: Global) -> anyhow::Result<Edits> {
        Ok(Edits {
            device: Device::new(alloc)?,
        })
    }

    /// Adds an item, as the words behind `add` say; so with the other edits.
    fn add(&mut self, alloc: Global, words: &[&str]) -> anyhow::Result<Answer> {
        let [now, parent, kind, of, content] = words else {
            return Ok(None);
        };
        let item = item(alloc, kind, of, content)?;
        let now = number(now)?;
        let parent = id_of(alloc, parent)?;
        Ok(Some(self.device.add(alloc, now, &parent, item)))
    }

    fn rename(&mut self, alloc: Global, words: &[&str]) -> anyhow::Result<Answer> {
        let [now, of, title] = words else {
            return Ok(None);
        };
        let now = number(now)?;
        let title = text(alloc, title)?;
        let of = id_of(alloc, of)?;
        Ok(Some(self.device.rename(alloc, now, &of, title.as_str())))
    }

    fn move_to(&mut self, alloc: Global, words: &[&str]) -> anyhow::Result<Answer> {
        let [now, of, parent] = words else {
            return Ok(None);
        };
        let now = number(now)?;
        let of = id_of(alloc, of)?;
        let parent = id_of(alloc, parent)?;
        Ok(Some(self.device.move_to(alloc, now, &of, &parent)))
    }

    fn delete(&mut self, alloc: Global, words: &[&str]) -> anyhow::Result<Answer> {
        let [now, of] = words else {
            return Ok(None);
        };
        let now = number(now)?;
        let of = id_of(alloc, of)?;
        Ok(Some(self.device.delete(alloc, now, &of)))
    }

    /// What an edit is answered.
    fn edit(&mut self, alloc: Global, words: &[&str]) -> anyhow::Result<Answer> {
        let Some((word, rest)) = words.split_first() else {
            return Ok(None);
        };
        match *word {
            "add" => self.add(alloc, rest),
            "rename" => self.rename(alloc, rest),
            "move" => self.move_to(alloc, rest),
            "delete" => self.delete(alloc, rest),
            _ => Ok(None),
        }
    }

    fn edited(&mut self, alloc: Global, words: &[&str]) -> anyhow::Result<Option<String>> {
        Ok(match self.edit(alloc, words)? {
            Some(Ok(())) => Some(String::from_str(alloc, "made")?),
            Some(Err(fault)) => Some(format!(in alloc; "{fault:?}")?),
            None => None,
        })
    }

    /// Begins a new device.
    fn begin(&mut self, alloc: Global) -> anyhow::Result<Option<String>> {
        let device = Device::new(alloc)?;
        drop(replace(&mut self.device, device));
        Ok(Some(String::from_str(alloc, "empty")?))
    }

    /// The device's file.
    fn file(&self, alloc: Global) -> anyhow::Result<Option<String>> {
        let file = written(alloc, &self.device)?;
        Ok(Some(shown(alloc, file.as_str())?))
    }

    /// What comes of a line, if it is about a device.
    pub fn outcome(&mut self, alloc: Global, words: &[&str]) -> anyhow::Result<Option<String>> {
        match words {
            ["device"] => self.begin(alloc),
            ["written"] => self.file(alloc),
            _ => self.edited(alloc, words),
        }
    }
}
