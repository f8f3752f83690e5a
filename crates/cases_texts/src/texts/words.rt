//! Cases of ss_words: `words WORD ..` tells what the words ask, or why they ask nothing.

use anyhow::bail;
use ss_words::{Command, WordsFault, read_command};
use std::alloc::Global;

/// The words of a text, between blanks.
fn words_of(alloc: Global, text: &str) -> anyhow::Result<Vec<String>> {
    let mut words = Vec::new(alloc);
    for word in text.split(' ') {
        words.push(String::from_str(alloc, word)?)?;
    }
    Ok(words)
}

fn told(alloc: Global, read: &Result<Command, WordsFault>) -> anyhow::Result<String> {
    match read {
        Ok(command) => Ok(format!(in alloc; "asks {command:?}")?),
        Err(WordsFault::Refused(refusal)) => {
            Ok(format!(in alloc; "{:?}, {refusal}", refusal.cause)?)
        }
        Err(WordsFault::Memory) => bail!("no memory"),
    }
}

/// What words ask, or the cause for which they are refused and the text that says so.
pub fn words_line(alloc: Global, text: &str) -> anyhow::Result<String> {
    let words = words_of(alloc, text)?;
    let read = read_command(alloc, words.as_slice());
    told(alloc, &read)
}
