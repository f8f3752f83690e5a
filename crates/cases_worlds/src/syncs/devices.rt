//! Devices' files as text, made and looked at without this project's reader and writer of them.

use std::alloc::{AllocError, Global};

/// A comma, but before the first of several.
fn comma(number: u64) -> &'static str {
    if number == 1 { "" } else { "," }
}

/// The line of a bookmark under `menu`.
fn bookmark(alloc: Global, time: u64, number: u64, title: &str) -> Result<String, AllocError> {
    format!(in alloc;
        "[\"item\",{time},{{\"bmkUri\":\"http://h/{number}\",\"id\":\"b{number:011}\",\"parentid\":\"menu\",\"title\":\"{title}\",\"type\":\"bookmark\"}}]\n"
    )
}

/// The line of `menu` with so many bookmarks.
fn menu(alloc: Global, count: u64) -> Result<String, AllocError> {
    let mut line = String::from_str(alloc, "[\"item\",1000,{\"children\":[")?;
    for number in 1..=count {
        line.push_str(format!(in alloc; "{}\"b{number:011}\"", comma(number))?.as_str())?;
    }
    line.push_str("],\"id\":\"menu\",\"parentid\":\"places\",\"type\":\"folder\"}]\n")?;
    Ok(line)
}

/// The lines of so many bookmarks.
fn bookmarks(alloc: Global, count: u64, title: &str) -> Result<String, AllocError> {
    let mut lines = String::new(alloc);
    for number in 1..=count {
        lines.push_str(bookmark(alloc, 1000, number, title)?.as_str())?;
    }
    Ok(lines)
}

/// The file of a device that was never synced, with so many bookmarks under `menu`, each with this title.
pub fn device(alloc: Global, count: u64, title: &str) -> Result<Vec<u8>, AllocError> {
    let mut text = String::from_str(alloc, "[\"device\",2]\n[\"stamp\",\"0.00\"]\n")?;
    text.push_str(menu(alloc, count)?.as_str())?;
    text.push_str(bookmarks(alloc, count, title)?.as_str())?;
    for root in ["toolbar", "unfiled", "mobile"] {
        text.push_str(format!(in alloc;
            "[\"item\",0,{{\"children\":[],\"id\":\"{root}\",\"parentid\":\"places\",\"type\":\"folder\"}}]\n"
        )?.as_str())?;
    }
    text.push_str("[\"end\"]\n")?;
    Ok(text.into_bytes())
}

/// A file whose device was synced, in which a bookmark has another title since.
pub fn renamed(
    alloc: Global,
    file: &[u8],
    number: u64,
    title: &str,
    time: u64,
    new: &str,
) -> Result<Vec<u8>, AllocError> {
    let text = String::from_utf8_lossy(alloc, file)?;
    let old = bookmark(alloc, 0, number, title)?;
    let line = bookmark(alloc, time, number, new)?;
    Ok(
        text.as_str()
            .replace(alloc, old.as_str(), line.as_str())?
            .into_bytes(),
    )
}

/// The lines of a file's items, which tell its bookmarks; of one id, where it isn't empty.
pub fn items(alloc: Global, file: &[u8], id: &str) -> Result<String, AllocError> {
    let text = String::from_utf8_lossy(alloc, file)?;
    let named = format!(in alloc; "\"id\":\"{id}")?;
    let mut items = String::new(alloc);
    for line in text.as_str().lines() {
        if line.starts_with("[\"item\",") && line.contains(named.as_str()) {
            items.push_str(line)?;
            items.push_str("\n")?;
        }
    }
    Ok(items)
}
