//! What comes of the calls that a case makes.

use crate::trees::building::{build_remote, build_rows};
use crate::trees::changes::{count, insert, remove, shift, show, walk};
use crate::trees::desk::Desk;
use crate::trees::links::chain;
use crate::trees::merging::{count_merged, merge_sides, pair};
use crate::trees::notation::cut;
use crate::trees::planning::plan_upload;
use crate::trees::{random_changes, random_rows, random_sides};
use crate::words::number;
use anyhow::bail;
use std::alloc::Global;

/// Makes the tree a long chain.
fn grow(alloc: Global, desk: &mut Desk, length: &str) -> anyhow::Result<String> {
    desk.tree = chain(alloc, number(length)?)?;
    count(alloc, &desk.tree)
}

/// Compares so many random rounds with a plain slow program.
fn compare(alloc: Global, line: &str) -> anyhow::Result<String> {
    let (word, rounds) = cut(line);
    let rounds = number(rounds)?;
    match word {
        "changes" => random_changes::compare(alloc, rounds),
        "rows" => random_rows::compare(alloc, rounds),
        "sides" => random_sides::compare(alloc, rounds),
        _ => bail!("nothing to compare: {word}"),
    }
}

/// What comes of a call on the tree of a desk.
fn tree_outcome(alloc: Global, desk: &mut Desk, word: &str, rest: &str) -> anyhow::Result<String> {
    let tree = &mut desk.tree;
    match word {
        "insert" => insert(alloc, tree, rest),
        "move" => shift(alloc, tree, rest),
        "remove" => remove(alloc, tree, rest),
        "walk" => walk(alloc, tree),
        "count" => count(alloc, tree),
        "show" => show(alloc, tree, rest),
        _ => bail!("no call: {word}"),
    }
}

/// What comes of a call.
pub fn outcome(alloc: Global, desk: &mut Desk, word: &str, rest: &str) -> anyhow::Result<String> {
    match word {
        "chain" => grow(alloc, desk, rest),
        "build" => build_rows(alloc, desk),
        "build-remote" => build_remote(alloc, desk),
        "pair" => pair(alloc, &desk.sides()),
        "merge" => merge_sides(alloc, &desk.sides()),
        "merge-count" => count_merged(alloc, &desk.sides()),
        "plan" => plan_upload(alloc, desk, rest),
        "compare" => compare(alloc, rest),
        _ => tree_outcome(alloc, desk, word, rest),
    }
}
