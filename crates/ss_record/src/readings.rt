//! Rows of bookmarks, and what they say.

ghost use Rattle.std.specs.Prelude.{◌≡◌, IfOk};

use crate::items::Item;
use ss_text::{Id, Stamp, Word};
use std::alloc::{AllocError, Global};
use std::marker::Model;

/// A list of texts, in order.
#[derive(Drop, Debug)]
pub struct Words {
    words: Vec<Word>,
}

impl Model for Words {
    ghost use Rattle.std.specs.Prelude.{List, ℕ};

    ghost Value = { List (List ℕ) };

    ghost view = { λ w. w.words.items };
}

impl Words {
    /// The texts of a vector, which are moved.
    pub fn new(words: Vec<Word>) -> Words
        ensures { result ≡ words.items }
    {
        Words { words }
    }

    pub fn as_slice(&self) -> &[Word]
        ensures { result.now ≡ self.now }
    {
        self.words.as_slice()
    }

    pub fn copy(&self, alloc: Global) -> Result<Words, AllocError>
        ensures { IfOk result (λ copied. copied ≡ self.now) }
    {
        let mut words = Vec::with_capacity(alloc, self.words.len())?;
        for word in &self.words {
            words.push(word.copy(alloc)?)?;
        }
        Ok(Words { words })
    }
}

/// A row of the collection of bookmarks: its id, its time in hundredths of a second, and its payload.
#[derive(Drop, Debug)]
pub struct Sheet {
    pub id: Id,
    pub modified: Stamp,
    pub payload: Word,
}

impl Sheet {
    pub fn copy(&self, alloc: Global) -> Result<Sheet, AllocError>
        ensures { IfOk result (λ copied. copied ≡ self.now) }
    {
        Ok(Sheet {
            id: self.id.copy(alloc)?,
            modified: self.modified,
            payload: self.payload.copy(alloc)?,
        })
    }
}

/// What a row says of its id.
#[derive(Drop, Debug)]
pub enum Reading {
    /// An item, with the parent and the children that its record names; of another kind than a folder no children.
    Item {
        item: Item,
        parentid: Option<Word>,
        children: Words,
    },
    /// The item was deleted.
    Tombstone,
    /// Nothing that is understood.
    Skipped,
}
