//! Who comes back to itself along proposed parents, in one pass with marks.

ghost use Rattle.std.specs.Prelude.{◌≡◌, ◌<◌, ◌≤◌, ◌+◌, ◌^◌, ℕ, All, IfOk, IsTrue, length, get_or, true, false};
ghost use Rattle.ss_build.specs.Marks.{AreCircles, IsClosedUnder, Leads, MarksWay, Rounds, WalksTo};

use std::alloc::{AllocError, Global};

/// Follows the places from `start` on and numbers them, to the first that has a number or to the top.
fn walk(next: &[usize], seen: &mut [usize], number: usize, start: usize) -> usize
    requires bounded { All (λ j. j ≤ length next.now) next.now }
    requires same_length { length seen.old ≡ length next.now }
    requires some { 0 < number }
    requires inside { start < length next.now }
    requires closed { IsClosedUnder next.now seen.old }
    ensures { WalksTo next.now seen.old seen.new number start result }
{
    let mut at = start;
    while at < next.len() && seen[at] == 0 {
        seen[at] = number;
        at = next[at];
    }
    at
}

/// Tells what the first leads to, along its circle.
fn mark(next: &[usize], circles: &mut [bool], first: usize)
    requires bounded { All (λ j. j ≤ length next.now) next.now }
    requires same_length { length circles.old ≡ length next.now }
    requires inside { first < length next.now }
    requires back { Leads next.now first first }
    requires free { (z : ℕ) → Leads next.now first z → get_or circles.old z false ≡ false }
    ensures { MarksWay next.now circles.old circles.new first }
{
    let mut at = first;
    while !circles[at] {
        circles[at] = true;
        at = next[at];
    }
}

/// Walks from one place, and tells a circle that the walk has closed.
fn visit(next: &[usize], seen: &mut [usize], circles: &mut [bool], start: usize)
    requires bounded { All (λ j. j ≤ length next.now) next.now }
    requires inside { start < length next.now }
    requires small { length next.now < 2 ^ 64 }
    requires rounds { Rounds next.now seen.old circles.old start }
    ensures { Rounds next.now seen.new circles.new (start + 1) }
{
    let end = walk(next, seen, start + 1, start);
    if end < next.len() && seen[end] == start + 1 {
        mark(next, circles, end);
    }
}

/// Which places come back to themselves along the list, in one pass.
pub(crate) fn find_circles(alloc: Global, next: &[usize]) -> Result<Vec<bool>, AllocError>
    requires bounded { All (λ j. j ≤ length next.now) next.now }
    ensures { IfOk result (λ r. AreCircles next.now r.items) }
{
    let mut seen = vec![in alloc; 0; next.len()]?;
    let mut circles = vec![in alloc; false; next.len()]?;
    for start in 0..next.len() {
        visit(next, &mut seen, &mut circles, start);
    }
    Ok(circles)
}
