//! A counter on a desk: calls by one pass, and what passes hold when they are split.

ghost use Rattle.std.specs.Prelude.{◌≡◌, ◌≤◌, IfOk};
ghost use Rattle.ss_desk.specs.Views.{CoversAll, CoversNoLess, numbers};
ghost use Rattle.ss_desk.specs.Desks.{view, IsPassOf};

use anyhow::bail;
use ss_desk::{Counter, Desk, Full, Pass};
use std::alloc::{AllocError, Global};
use std::sync::Wait;

/// The ticket and the reply of each call that a thread made, in order.
pub type Replies = Vec<(u64, u64)>;

/// A desk with an empty counter, and its pass with all numbers.
pub fn counter_desk(alloc: Global, most: u32) -> Result<(Desk<Counter>, Pass<Counter>), AllocError>
    ensures pass { IfOk result (λ r. IsPassOf r.0 r.1) }
    ensures many { IfOk result (λ r. 4 ≤ numbers (view r.1)) }
    ensures all { IfOk result (λ r. CoversAll (view r.1)) }
{
    match Desk::open(alloc, Counter::new(alloc, most)?) {
        Ok(made) => Ok(made),
        Err((_, error)) => Err(error),
    }
}

/// One addition.
pub fn add<R: Wait>(
    rt: &R,
    desk: &Desk<Counter>,
    pass: &mut Pass<Counter>,
    amount: u32,
) -> Result<(u64, u64), Full>
    requires pass { IsPassOf desk.now pass.old }
    ensures pass { IsPassOf desk.now pass.new }
    ensures covers { CoversNoLess (view pass.old) (view pass.new) }
{
    desk.call(rt, pass, amount)
}

/// Adds `count` numbers from `first` on, or fewer where the journal is full or memory runs out.
pub fn add_many<R: Wait>(
    rt: &R,
    alloc: Global,
    desk: &Desk<Counter>,
    mut pass: Pass<Counter>,
    first: u32,
    count: u32,
) -> (Pass<Counter>, Replies)
    requires pass { IsPassOf desk.now pass }
    ensures pass { IsPassOf desk.now result.0 }
    ensures covers { CoversNoLess (view pass) (view result.0) }
{
    let mut replies = Vec::new(alloc);
    for k in 0..count {
        match add(rt, desk, &mut pass, first.wrapping_add(k)) {
            Ok(reply) if replies.push(reply).is_ok() => {}
            _ => break,
        }
    }
    (pass, replies)
}

/// How many numbers passes hold: two of a split, two of a split of the first, and the first once it took the third in.
fn held(alloc: Global, most: u32) -> Result<[(u64, u64); 3], AllocError> {
    let (desk, mut first) = counter_desk(alloc, most)?;
    let second = first.split(&desk);
    let halves = (first.numbers(), second.numbers());
    let third = first.split(&desk);
    let quarters = (first.numbers(), third.numbers());
    desk.back(&mut first, third);
    let joined = (first.numbers(), second.numbers());
    drop(second);
    Ok([halves, quarters, joined])
}

/// What is told of a pass that is split, split again and joined.
pub fn splits(alloc: Global, numbers: &[u32]) -> anyhow::Result<String> {
    let [most] = numbers else {
        bail!("room for how many additions?");
    };
    let [halves, quarters, joined] = held(alloc, *most)?;
    Ok(format!(in alloc;
        "first and second hold {} and {}; first and third {} and {}; then first takes third in and holds {}, and second {}",
        halves.0, halves.1, quarters.0, quarters.1, joined.0, joined.1
    )?)
}
