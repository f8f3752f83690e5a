//! Additions in two threads and in four, each with its share of the pass's numbers.

ghost use Rattle.std.specs.Prelude.{◌≤◌};
ghost use Rattle.std.specs.Thread.{IsSync};
ghost use Rattle.ss_desk.specs.Views.{CoversNoLess, numbers};
ghost use Rattle.ss_desk.specs.Desks.{view, IsPassOf};

use crate::turns::counters::{Replies, add, add_many, counter_desk};
use crate::turns::telling::{counted, passes};
use anyhow::bail;
use ss_desk::{Counter, Desk, Full, Pass};
use std::alloc::{AllocError, Global};
use std::sync::Wait;
use std::thread::{Threads, join};

/// Adds in two threads, each with half of the pass's numbers.
fn add_in_two<R: Threads + Wait + Sync>(
    rt: &R,
    alloc: Global,
    desk: &Desk<Counter>,
    mut pass: Pass<Counter>,
    first: u32,
    count: u32,
) -> (Pass<Counter>, Replies, Replies)
    requires pass { IsPassOf desk.now pass }
    requires many { 2 ≤ numbers (view pass) }
    requires shared { IsSync R.row }
    ensures pass { IsPassOf desk.now result.0 }
    ensures covers { CoversNoLess (view pass) (view result.0) }
{
    let other = pass.split(desk);
    let ((mut pass, replies), (other, others)) = join(
        rt,
        || -> (Pass<Counter>, Replies)
            requires { IsPassOf desk.now pass }
            ensures pass { IsPassOf desk.entry.now result.0 }
            ensures covers { CoversNoLess (view pass) (view result.0) }
        { add_many(rt, alloc, desk, pass, first, count) },
        || -> (Pass<Counter>, Replies)
            requires { IsPassOf desk.now other }
            ensures pass { IsPassOf desk.entry.now result.0 }
            ensures covers { CoversNoLess (view other) (view result.0) }
        { add_many(rt, alloc, desk, other, first.wrapping_add(count), count) },
    );
    desk.back(&mut pass, other);
    (pass, replies, others)
}

/// Adds in four threads, each with a quarter of the pass's numbers.
fn add_in_four<R: Threads + Wait + Sync>(
    rt: &R,
    alloc: Global,
    desk: &Desk<Counter>,
    mut pass: Pass<Counter>,
    count: u32,
) -> (Pass<Counter>, [Replies; 4])
    requires pass { IsPassOf desk.now pass }
    requires many { 4 ≤ numbers (view pass) }
    requires shared { IsSync R.row }
    ensures pass { IsPassOf desk.now result.0 }
    ensures covers { CoversNoLess (view pass) (view result.0) }
{
    let other = pass.split(desk);
    let ((mut pass, a, b), (other, c, d)) = join(
        rt,
        || -> (Pass<Counter>, Replies, Replies)
            requires { IsSync R.row × IsPassOf desk.now pass × (2 ≤ numbers (view pass)) }
            ensures pass { IsPassOf desk.entry.now result.0 }
            ensures covers { CoversNoLess (view pass) (view result.0) }
        { add_in_two(rt, alloc, desk, pass, 0, count) },
        || -> (Pass<Counter>, Replies, Replies)
            requires { IsSync R.row × IsPassOf desk.now other × (2 ≤ numbers (view other)) }
            ensures pass { IsPassOf desk.entry.now result.0 }
            ensures covers { CoversNoLess (view other) (view result.0) }
        { add_in_two(rt, alloc, desk, other, count.wrapping_mul(2), count) },
    );
    desk.back(&mut pass, other);
    (pass, [a, b, c, d])
}

/// The counter after two threads added `count` numbers each, what they were replied, and what one more addition is
/// answered.
fn counted_by_two<R: Threads + Wait + Sync>(
    rt: &R,
    alloc: Global,
    most: u32,
    first: u32,
    count: u32,
    then: u32,
) -> Result<(Counter, [Replies; 2], Result<(u64, u64), Full>), AllocError>
    requires shared { IsSync R.row }
{
    let (desk, pass) = counter_desk(alloc, most)?;
    let (mut pass, replies, others) = add_in_two(rt, alloc, &desk, pass, first, count);
    let answer = add(rt, &desk, &mut pass, then);
    Ok((desk.close(pass), [replies, others], answer))
}

/// The counter after four threads added `count` numbers each, and what they were replied.
fn counted_by_four<R: Threads + Wait + Sync>(
    rt: &R,
    alloc: Global,
    most: u32,
    count: u32,
) -> Result<(Counter, [Replies; 4]), AllocError>
    requires shared { IsSync R.row }
{
    let (desk, pass) = counter_desk(alloc, most)?;
    let (pass, replies) = add_in_four(rt, alloc, &desk, pass, count);
    Ok((desk.close(pass), replies))
}

/// What is told of two threads: the room, the first number, how many each adds, and the one that is added then.
pub fn two<R: Threads + Wait + Sync>(
    rt: &R,
    alloc: Global,
    numbers: &[u32],
) -> anyhow::Result<String>
    requires shared { IsSync R.row }
{
    let [most, first, count, then] = numbers else {
        bail!("room, first number, count, and then?");
    };
    let (counter, replies, answer) = counted_by_two(rt, alloc, *most, *first, *count, *then)?;
    let numbers = [0, 1 << 31];
    Ok(format!(in alloc;
        "{}; then {answer:?}{}",
        counted(alloc, &counter)?,
        passes(alloc, &counter, &numbers, &replies)?
    )?)
}

/// What is told of four threads: the room, and how many each adds.
pub fn four<R: Threads + Wait + Sync>(
    rt: &R,
    alloc: Global,
    numbers: &[u32],
) -> anyhow::Result<String>
    requires shared { IsSync R.row }
{
    let [most, count] = numbers else {
        bail!("room and count?");
    };
    let (counter, replies) = counted_by_four(rt, alloc, *most, *count)?;
    let numbers = [0, 1 << 30, 1 << 31, 3 << 30];
    Ok(format!(in alloc;
        "{}{}",
        counted(alloc, &counter)?,
        passes(alloc, &counter, &numbers, &replies)?
    )?)
}
