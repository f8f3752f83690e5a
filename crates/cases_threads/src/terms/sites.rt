//! A site in memory that gives keepers. Its line has which call `fails`, entries as `FOLDER:UID:STORE` with the time of
//! the store, and behind ` -- ` the keepers that are asked for, as `FOLDER:UID`.

use anyhow::bail;
use ss_bso::Kept;
use ss_keeper::{KeepFault, Keeper};
use ss_site::{MemSite, Site};
use ss_text::Stamp;
use std::alloc::Global;

/// A folder and a uid, and what stands behind them.
fn place(word: &str) -> anyhow::Result<(&str, u32, &str)> {
    let Some((folder, rest)) = word.split_once(':') else {
        bail!("no folder");
    };
    let (uid, rest) = rest.split_once(':').unwrap_or((rest, ""));
    Ok((folder, uid.parse::<u32>()?, rest))
}

/// A fresh entry but for the time of its store.
fn entry(alloc: Global, word: &str) -> anyhow::Result<(String, u32, Kept)> {
    let (folder, uid, store) = place(word)?;
    let store = store.parse::<u64>()?;
    let folder = String::from_str(alloc, folder)?;
    let mut kept = Kept::fresh(alloc);
    kept.store = Stamp::clamp(store);
    Ok((folder, uid, kept))
}

/// Adds the entries of a line, and which calls fail.
fn add_words(
    alloc: Global,
    line: &str,
    entries: &mut Vec<(String, u32, Kept)>,
    failing: &mut Vec<u64>,
) -> anyhow::Result<()> {
    for word in line.split(' ') {
        match word.split_once('=') {
            Some(("fails", call)) => failing.push(call.parse::<u64>()?)?,
            _ => entries.push(entry(alloc, word)?)?,
        }
    }
    Ok(())
}

/// The site of a line.
fn site(alloc: Global, line: &str) -> anyhow::Result<MemSite<u8>> {
    let mut entries = Vec::new(alloc);
    let mut failing = Vec::new(alloc);
    match add_words(alloc, line, &mut entries, &mut failing) {
        Ok(()) => Ok(MemSite::new(alloc, Vec::new(alloc), 0, entries, failing)?),
        Err(error) => {
            drop(entries);
            Err(error)
        }
    }
}

/// The time of the store of an entry.
fn store_of<K: Keeper>(alloc: Global, keeper: &mut K) -> Result<u64, KeepFault> {
    let kept = keeper.load(alloc)?;
    let store = kept.store.get();
    drop(kept);
    Ok(store)
}

/// What the keeper of an account loads, which is then given back; or why there is none.
fn loaded(alloc: Global, site: &mut MemSite<u8>, word: &str) -> anyhow::Result<String> {
    let (folder, uid, _) = place(word)?;
    let mut keeper = match site.keeper(alloc, folder, uid) {
        Ok(keeper) => keeper,
        Err(fault) => return Ok(format!(in alloc; "\n  {word}: no keeper, {fault:?}")?),
    };
    let store = store_of(alloc, &mut keeper);
    site.retire(folder, uid, keeper);
    Ok(match store {
        Ok(store) => format!(in alloc; "\n  {word}: store {store}")?,
        Err(fault) => format!(in alloc; "\n  {word}: no entry, {fault:?}")?,
    })
}

/// A line on each keeper that is asked for.
fn lines(alloc: Global, site: &mut MemSite<u8>, asked: &str) -> anyhow::Result<String> {
    let mut text = String::from_str(alloc, "keepers asked for")?;
    for word in asked.split(' ') {
        text.push_str(loaded(alloc, site, word)?.as_str())?;
    }
    Ok(text)
}

/// What is told of a site.
pub fn site_line(alloc: Global, line: &str) -> anyhow::Result<String> {
    let Some((front, asked)) = line.split_once(" -- ") else {
        bail!("no keeper is asked for");
    };
    let mut site = site(alloc, front)?;
    let text = lines(alloc, &mut site, asked);
    drop(site);
    text
}
