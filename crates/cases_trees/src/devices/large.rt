//! Files of many items.

use std::alloc::Global;

const HEAD: &str = "[\"device\",2]\n[\"stamp\",\"0.00\"]\n";

/// The other roots, and the end.
const REST: &str =
    "[\"item\",0,{\"children\":[],\"id\":\"toolbar\",\"parentid\":\"places\",\"type\":\"folder\"}]
[\"item\",0,{\"children\":[],\"id\":\"unfiled\",\"parentid\":\"places\",\"type\":\"folder\"}]
[\"item\",0,{\"children\":[],\"id\":\"mobile\",\"parentid\":\"places\",\"type\":\"folder\"}]
[\"end\"]
";

/// The line of a folder.
fn folder(alloc: Global, children: &str, id: &str, parent: &str) -> anyhow::Result<String> {
    Ok(format!(in alloc;
        "[\"item\",0,{{\"children\":[{children}],\"id\":\"{id}\",\"parentid\":\"{parent}\",\"type\":\"folder\"}}]\n"
    )?)
}

/// A file whose `menu` has these children, and these lines of items behind it.
fn file(alloc: Global, children: &str, items: &str) -> anyhow::Result<String> {
    let menu = folder(alloc, children, "menu", "places")?;
    Ok(format!(in alloc; "{HEAD}{menu}{items}{REST}")?)
}

/// A file with so many bookmarks in `menu`.
pub fn many(alloc: Global, count: u64) -> anyhow::Result<String> {
    let mut children = String::new(alloc);
    let mut items = String::new(alloc);
    for number in 0..count {
        let comma = if number == 0 { "" } else { "," };
        children.push_str(format!(in alloc; "{comma}\"b{number}\"")?.as_str())?;
        items.push_str(format!(in alloc;
            "[\"item\",0,{{\"id\":\"b{number}\",\"parentid\":\"menu\",\"type\":\"bookmark\"}}]\n"
        )?.as_str())?;
    }
    file(alloc, children.as_str(), items.as_str())
}

/// The line of the folder of a number, in which that of the next one is where there are more.
fn nested_folder(alloc: Global, number: u64, count: u64) -> anyhow::Result<String> {
    let id = format!(in alloc; "f{number}")?;
    let parent = match number.checked_sub(1) {
        Some(above) => format!(in alloc; "f{above}")?,
        None => String::from_str(alloc, "menu")?,
    };
    let next = number.saturating_add(1);
    let child = if next < count {
        format!(in alloc; "\"f{next}\"")?
    } else {
        String::new(alloc)
    };
    folder(alloc, child.as_str(), id.as_str(), parent.as_str())
}

/// A file with so many folders, each but the first in the one before.
pub fn nested(alloc: Global, count: u64) -> anyhow::Result<String> {
    let mut items = String::new(alloc);
    for number in 0..count {
        items.push_str(nested_folder(alloc, number, count)?.as_str())?;
    }
    file(alloc, "\"f0\"", items.as_str())
}
