//! Examples of the libraries: `docs/LIBRARY.md` has each function as it stands here, and what it gives. Two trees of
//! bookmarks are merged, an account answers requests, the records of a body are read, and an account is written as a
//! text and read back. A line names an example; what it must give was written from the rules.

mod answering;
mod merging;
mod moving;
mod reading;

use anyhow::bail;
use std::alloc::Global;

/// What an example gives, by its name.
fn example(alloc: Global, name: &str) -> anyhow::Result<Vec<String>> {
    match name {
        "merge" => merging::merged(alloc),
        "answer" => answering::answered(alloc),
        "read" => reading::read(alloc),
        "move" => moving::moved(alloc),
        _ => bail!("no example has this name: {name}"),
    }
}

/// Tells what the examples with these names give, each behind its name.
pub fn tell_cases(rt: &HostRuntime, names: &[String]) -> anyhow::Result<()> {
    for name in names {
        rt.println(name.as_str())?;
        for line in example(rt.alloc(), name.as_str())? {
            rt.println(line.as_str())?;
        }
    }
    Ok(())
}
