//! Lists as text.

use ss_text::{Id, Ids};
use std::alloc::{AllocError, Global};

/// The texts of a list after a word, or `none`.
pub fn listed(alloc: Global, word: &str, texts: &[String]) -> Result<String, AllocError> {
    let mut line = String::from_str(alloc, word)?;
    for text in texts {
        line.push(' ')?;
        line.push_str(text.as_str())?;
    }
    if texts.is_empty() {
        line.push_str(" none")?;
    }
    Ok(line)
}

/// Ids after a word.
pub fn ids_text(alloc: Global, word: &str, ids: &Ids) -> Result<String, AllocError> {
    let mut texts = Vec::new(alloc);
    for id in ids.as_slice() {
        texts.push(String::from_str(alloc, id.as_str())?)?;
    }
    listed(alloc, word, &texts)
}

/// Pairs after a word, each as `local=remote`.
pub fn pairs_text(alloc: Global, word: &str, pairs: &[(Id, Id)]) -> Result<String, AllocError> {
    let mut texts = Vec::new(alloc);
    for (local, remote) in pairs {
        texts.push(format!(in alloc; "{}={}", local.as_str(), remote.as_str())?)?;
    }
    listed(alloc, word, &texts)
}
