//! Scripts, a line for each step; words stand between single spaces. A line `# TITLE` begins anew, with a server that
//! holds nothing, no files, and a clock at 10.00. These say what is there:
//! - `clock N`: what the server's clock reads, in hundredths of a second. `empty`: the server holds nothing any more.
//! - `closes`: each response is its link's last. `meddles N`: before each of N POSTs another device puts a record.
//! - `response N body TEXT`, `response N long SIZE`, `response N cut`: what comes in the place of the N-th response of
//!   a sync; `responses again`:
//!   nothing does.
//! - `device NAME N TITLE`: the file of a new device with N bookmarks; `letters NAME N`: with one, whose title has N
//!   letters; `line NAME LINE`:
//!   one more line of a file; `rename NAME N OLD NEW TIME`: a file's N-th bookmark has another title since that time.
//! - `fail KIND N`: the N-th call fails in the next sync: a `dial`, a call of a `link`, a `write` to one, a call of the
//!   `store`, or a `print`.
//!
//! And these do something, and tell it:
//! - `sync URL NAME ..` runs the command with these words; `each KIND sync URL NAME ..` lets each call fail, with an
//!   empty server each time,
//!   and leaves the files.
//! - `asked` tells what the last sync asked; `ask METHOD TARGET` asks the server something.
//! - `items NAME ID` tells the items whose ids begin so, as a file has them, and `same NAME NAME` whether two files
//!   have the same.

use crate::syncs::each;
use crate::syncs::play::Play;
use crate::syncs::twists::Twist;
use anyhow::bail;
use std::alloc::Global;

fn number(text: &str) -> anyhow::Result<u64> {
    Ok(text.parse::<u64>()?)
}

/// What comes in the place of a response.
fn twist(alloc: Global, at: u64, words: &[&str]) -> anyhow::Result<Twist> {
    match words {
        ["body", text] => Ok(Twist::body(alloc, at, text)?),
        ["long", size] => Ok(Twist::long(at, number(size)?)),
        ["cut"] => Ok(Twist::cut(at)),
        _ => bail!("no such response"),
    }
}

/// Says how the server serves: its clock (hundredths of a second), its account, its links, and its responses. Answers
/// whether the line was one of these.
fn prepare_server(alloc: Global, play: &mut Play, words: &[&str]) -> anyhow::Result<bool> {
    match words {
        ["clock", now] => play.set_clock(number(now)?),
        ["empty"] => play.empty()?,
        ["closes"] => play.close_links(),
        ["meddles", times] => play.meddle(number(times)?),
        ["response", at, of @ ..] => play.twist(Some(twist(alloc, number(at)?, of)?)),
        ["responses", "again"] => play.twist(None),
        _ => return Ok(false),
    }
    Ok(true)
}

/// Makes the file of a device with one bookmark, whose title has so many letters.
fn make_letters(alloc: Global, play: &mut Play, name: &str, count: u64) -> anyhow::Result<()> {
    let title = "x".repeat(alloc, usize::try_from(count)?)?;
    play.make(name, 1, title.as_str())
}

/// Says what is there: how the server serves, devices' files, and which call of the next sync fails. Answers whether the
/// line was one of these.
fn prepare(alloc: Global, play: &mut Play, words: &[&str]) -> anyhow::Result<bool> {
    match words {
        ["device", name, count, title] => play.make(name, number(count)?, title)?,
        ["letters", name, count] => make_letters(alloc, play, name, number(count)?)?,
        ["line", name, line] => play.add_line(name, line)?,
        ["rename", name, of, old, new, time] => {
            play.rename(name, number(of)?, (old, new), number(time)?)?;
        }
        ["fail", kind, at] => play.fail(kind, number(at)?)?,
        _ => return prepare_server(alloc, play, words),
    }
    Ok(true)
}

/// Prints what the last sync asked.
fn tell_asked(rt: &HostRuntime, play: &Play) -> anyhow::Result<()> {
    for line in play.asked() {
        println!(rt; "  {line}")?;
    }
    Ok(())
}

/// Runs a sync, and tells how it went.
fn sync(rt: &HostRuntime, play: &mut Play, words: &[&str]) -> anyhow::Result<()> {
    let told = play.sync(words)?;
    println!(rt; "{}; {}", told.end, told.way)?;
    Ok(())
}

/// Whether two files have the same items.
fn tell_same(rt: &HostRuntime, play: &Play, one: &str, other: &str) -> anyhow::Result<()> {
    let is_same = play.items(one, "")? == play.items(other, "")?;
    println!(rt;
        "{one} and {other}: {}",
        if is_same { "the same" } else { "not the same" }
    )?;
    Ok(())
}

/// Does what a line says, and tells it.
fn perform(rt: &HostRuntime, play: &mut Play, words: &[&str]) -> anyhow::Result<()> {
    match words {
        ["sync", ..] => sync(rt, play, words)?,
        ["each", kind, rest @ ..] => each::tell(rt, play, kind, rest)?,
        ["asked"] => tell_asked(rt, play)?,
        ["ask", method, target] => println!(rt; "{}", play.ask(method, target)?)?,
        ["items", name, id] => print!(rt; "{}", play.items(name, id)?)?,
        ["same", one, other] => tell_same(rt, play, one, other)?,
        _ => bail!("a line that says nothing"),
    }
    Ok(())
}

fn take(rt: &HostRuntime, play: &mut Play, line: &str) -> anyhow::Result<()> {
    if line.starts_with("#") {
        println!(rt; "{line}")?;
        return play.begin();
    }
    let mut words = Vec::new(rt.alloc());
    for word in line.split(' ') {
        words.push(word)?;
    }
    if prepare(rt.alloc(), play, words.as_slice())? {
        return Ok(());
    }
    perform(rt, play, words.as_slice())
}

/// Plays the lines of a script; empty lines are passed over.
pub fn tell(rt: &HostRuntime, play: &mut Play, lines: &[String]) -> anyhow::Result<()> {
    for line in lines {
        if !line.is_empty() {
            take(rt, play, line.as_str())?;
        }
    }
    Ok(())
}
