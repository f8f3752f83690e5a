//! Turns, a case a line. Threads take turns at a counter with a journal; passes are split; uids make a town or don't;
//! calls go to the account of their uid; and threads call an account with its journal.

ghost use Rattle.std.specs.Thread.{IsSync};

mod account;
mod counters;
mod pair;
mod telling;
mod threads;
mod towns;
mod words;

use anyhow::bail;
use std::alloc::Global;
use std::sync::Wait;
use std::thread::Threads;

/// What came of the case of a line.
fn case_line<R: Threads + Wait + Sync>(rt: &R, alloc: Global, line: &str) -> anyhow::Result<String>
    requires shared { IsSync R.row }
{
    let (kind, rest) = line.split_once(' ').unwrap_or((line, ""));
    match kind {
        "two" => threads::two(rt, alloc, words::numbers(alloc, rest)?.as_slice()),
        "four" => threads::four(rt, alloc, words::numbers(alloc, rest)?.as_slice()),
        "splits" => counters::splits(alloc, words::numbers(alloc, rest)?.as_slice()),
        "town" => towns::opened(alloc, words::numbers(alloc, rest)?.as_slice()),
        "asks" => towns::asked(rt, alloc, words::numbers(alloc, rest)?.as_slice()),
        "account" => account::called(rt, alloc, words::numbers(alloc, rest)?.as_slice()),
        "pair" => pair::pair_line(rt, alloc, words::numbers(alloc, rest)?.as_slice()),
        "room" => pair::past_room(rt, alloc, words::numbers(alloc, rest)?.as_slice()),
        _ => bail!("no kind of case"),
    }
}

/// Tells what came of each line.
pub fn tell_cases<R: Threads + Wait + Print + Sync>(
    rt: &R,
    alloc: Global,
    lines: &[String],
) -> anyhow::Result<()>
    requires shared { IsSync R.row }
{
    for line in lines {
        println!(rt; "{line}: {}", case_line(rt, alloc, line.as_str())?)?;
    }
    Ok(())
}
