//! The ways to a set of rows.

ghost use Rattle.std.specs.Prelude.{◌≡◌, IfOk};

use anyhow::bail;
use ss_flat::{Flat, FlatKind};
use ss_run_flat::{state_of, telling};
use std::alloc::{AllocError, Global};

/// What is told where two ways tell otherwise.
const OTHERWISE: &str = "told otherwise\n";

/// The last line of a file.
const END: &str = "[\"end\"]\n";

/// The file of some lines.
fn file(alloc: Global, lines: &[String]) -> Result<String, AllocError> {
    let mut file = String::new(alloc);
    for line in lines {
        file.push_str(line.as_str())?;
        file.push_str("\n")?;
    }
    file.push_str(END)?;
    Ok(file)
}

/// The file of some lines from the last to the first, each of them twice.
fn turned(alloc: Global, lines: &[String]) -> Result<String, AllocError> {
    let mut file = String::new(alloc);
    for line in lines.iter().rev() {
        file.push_str(line.as_str())?;
        file.push_str("\n")?;
        file.push_str(line.as_str())?;
        file.push_str("\n")?;
    }
    file.push_str(END)?;
    Ok(file)
}

/// The state of a file.
fn state(alloc: Global, kind: FlatKind, file: &str) -> anyhow::Result<Flat>
    ensures { IfOk result (λ flat. flat.kind ≡ kind) }
{
    match state_of(alloc, kind, file.as_bytes()) {
        Ok(flat) => Ok(flat),
        Err(ending) => bail!("{ending}"),
    }
}

/// The state of the file of some lines.
fn state_in(alloc: Global, kind: FlatKind, lines: &[String]) -> anyhow::Result<Flat>
    ensures { IfOk result (λ flat. flat.kind ≡ kind) }
{
    let file = file(alloc, lines)?;
    state(alloc, kind, file.as_str())
}

/// Whether a state and another one, joined, tell this.
fn tells(alloc: Global, flat: &mut Flat, other: &Flat, wanted: &[u8]) -> anyhow::Result<bool>
    requires { other.now.kind ≡ flat.old.kind }
{
    flat.join(alloc, other)?;
    let told = telling(alloc, flat)?;
    Ok(told.as_slice() == wanted)
}

/// Whether the states of two parts of some rows, joined, tell this.
fn joined(
    alloc: Global,
    kind: FlatKind,
    front: &[String],
    back: &[String],
    wanted: &[u8],
) -> anyhow::Result<bool> {
    let mut flat = state_in(alloc, kind, front)?;
    let other = state_in(alloc, kind, back)?;
    tells(alloc, &mut flat, &other, wanted)
}

/// Whether every two parts of some rows, joined either way, tell this.
fn all_joined(
    alloc: Global,
    kind: FlatKind,
    lines: &[String],
    wanted: &[u8],
) -> anyhow::Result<bool> {
    for cut in 0..lines.len() {
        let (front, back) = lines.split_at(cut);
        if !joined(alloc, kind, front, back, wanted)?
            || !joined(alloc, kind, back, front, wanted)?
        {
            return Ok(false);
        }
    }
    Ok(true)
}

/// What the state of some lines tells.
fn told_of(alloc: Global, kind: FlatKind, lines: &[String]) -> anyhow::Result<Vec<u8>> {
    let flat = state_in(alloc, kind, lines)?;
    Ok(telling(alloc, &flat)?)
}

/// What the state of some lines tells that are turned round and doubled.
fn turned_told(alloc: Global, kind: FlatKind, lines: &[String]) -> anyhow::Result<Vec<u8>> {
    let file = turned(alloc, lines)?;
    let flat = state(alloc, kind, file.as_str())?;
    Ok(telling(alloc, &flat)?)
}

/// What some rows come to, where all ways to their set tell the same.
pub fn set_line(alloc: Global, kind: FlatKind, lines: &[String]) -> anyhow::Result<String> {
    let told = told_of(alloc, kind, lines)?;
    let other = turned_told(alloc, kind, lines)?;
    if told.as_slice() != other.as_slice() || !all_joined(alloc, kind, lines, told.as_slice())? {
        return Ok(String::from_str(alloc, OTHERWISE)?);
    }
    Ok(String::from_utf8_lossy(alloc, told.as_slice())?)
}
