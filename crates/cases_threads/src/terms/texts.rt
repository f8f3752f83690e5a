//! Texts that lines name, and the pieces in which they come from a link.

use anyhow::bail;
use serde_json::Value;
use std::alloc::{AllocError, Global};

/// Texts by their names.
#[derive(Drop)]
pub struct Texts {
    texts: Vec<(String, String)>,
}

/// So many letters `a`.
fn letters(alloc: Global, count: &str) -> anyhow::Result<Vec<u8>> {
    Ok("a".repeat(alloc, count.parse::<usize>()?)?.into_bytes())
}

/// Adds a piece for each byte of a text.
fn add_bytes(alloc: Global, text: &str, pieces: &mut Vec<Vec<u8>>) -> Result<(), AllocError> {
    for byte in text.as_bytes() {
        pieces.push(vec![in alloc; *byte]?)?;
    }
    Ok(())
}

/// So many bytes of a text, from its first one on.
pub fn front(alloc: Global, text: &str, count: usize) -> anyhow::Result<Vec<u8>> {
    match text.as_bytes().get(..count) {
        Some(bytes) => Ok(Vec::from_slice(alloc, bytes)?),
        None => bail!("the text has fewer bytes"),
    }
}

impl Texts {
    pub fn new(alloc: Global) -> Texts {
        Texts {
            texts: Vec::new(alloc),
        }
    }

    /// Adds a text: its name, and behind a blank the text as a JSON string.
    pub fn add(&mut self, alloc: Global, line: &str) -> anyhow::Result<()> {
        let Some((name, json)) = line.split_once(' ') else {
            bail!("no text");
        };
        let value = Value::from_str(alloc, json)?;
        let Some(text) = value.as_str() else {
            bail!("no string");
        };
        self.texts.push((
            String::from_str(alloc, name)?,
            String::from_str(alloc, text)?,
        ))?;
        Ok(())
    }

    /// The text with this name.
    pub fn get(&self, name: &str) -> anyhow::Result<&str> {
        for (other, text) in self.texts.iter() {
            if other.as_str() == name {
                return Ok(text.as_str());
            }
        }
        bail!("no text has this name")
    }

    /// Adds the pieces of a word: `NAME` a text, `bytes:NAME` its bytes one by one, `cut:COUNT:NAME` so many of its
    /// first bytes, and `letters:COUNT` so many letters `a`; `none` has none.
    pub fn add_pieces(
        &self,
        alloc: Global,
        word: &str,
        pieces: &mut Vec<Vec<u8>>,
    ) -> anyhow::Result<()> {
        match word.split_once(':') {
            None if word == "none" => {}
            Some(("bytes", name)) => add_bytes(alloc, self.get(name)?, pieces)?,
            Some(("letters", count)) => pieces.push(letters(alloc, count)?)?,
            Some(("cut", rest)) => pieces.push(self.cut(alloc, rest)?)?,
            _ => pieces.push(Vec::from_slice(alloc, self.get(word)?.as_bytes())?)?,
        }
        Ok(())
    }

    /// The first bytes of a text: how many, and behind a colon its name.
    fn cut(&self, alloc: Global, rest: &str) -> anyhow::Result<Vec<u8>> {
        let Some((count, name)) = rest.split_once(':') else {
            bail!("how many bytes of which text?");
        };
        front(alloc, self.get(name)?, count.parse::<usize>()?)
    }
}
