//! One call that fails in a sync with an empty server, for each call.

use crate::syncs::play::Play;
use std::alloc::Global;

/// More calls than a sync of these has.
const MOST: u64 = 10_000;

/// Ends that were the same for calls with numbers that follow each other.
#[derive(Drop)]
struct Group {
    first: u64,
    end: String,
}

/// Prints a group and its last number.
fn print(rt: &HostRuntime, kind: &str, group: &Group, last: u64) -> anyhow::Result<()> {
    println!(rt; "{kind} {} to {last}: {}", group.first, group.end)?;
    Ok(())
}

/// How a sync with an empty server ends where this call fails, and whether it is done.
fn once(
    play: &mut Play,
    kind: &str,
    number: u64,
    words: &[&str],
) -> anyhow::Result<(String, bool)> {
    play.empty()?;
    play.fail(kind, number)?;
    let (ran, told) = play.try_sync(words)?;
    drop(ran);
    Ok((told.end, told.is_done))
}

/// Tells how a sync ends where a call fails, for each call of this kind, and then where none does.
pub fn tell(rt: &HostRuntime, play: &mut Play, kind: &str, words: &[&str]) -> anyhow::Result<()> {
    let mut group = Group {
        first: 1,
        end: String::new(rt.alloc()),
    };
    for number in 1..=MOST {
        let (end, is_done) = once(play, kind, number, words)?;
        if end != group.end {
            if number > 1 {
                print(rt, kind, &group, number - 1)?;
            }
            group = Group { first: number, end };
        }
        if is_done {
            return print(rt, kind, &group, number);
        }
    }
    Ok(())
}
