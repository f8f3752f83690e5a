//! What keepers hold after the same steps.

use crate::commits::Commits;
use crate::held::lines;
use crate::words::number;
use anyhow::bail;
use sqlite::Alter;
use ss_bso::Kept;
use ss_keep_sql::SqlKeeper;
use ss_keeper::{Keeper, SureKeeper};
use std::alloc::Global;

/// A step of a case.
#[derive(Clone, Copy)]
pub enum Step {
    /// The commit of this number is made.
    Commit(u64),

    /// The commits that stand beside the tables are made to them.
    Fold,

    /// What is held is asked for.
    Load,
}

fn step_of(word: &str) -> anyhow::Result<Step> {
    match word {
        "fold" => Ok(Step::Fold),
        "load" => Ok(Step::Load),
        _ => Ok(Step::Commit(number(word)?)),
    }
}

/// The steps of a word, which `+` parts.
fn push_steps(steps: &mut Vec<Step>, word: &str) -> anyhow::Result<()> {
    for part in word.split('+') {
        if !part.is_empty() {
            steps.push(step_of(part)?)?;
        }
    }
    Ok(())
}

/// The steps of words, which single spaces part.
pub fn steps(alloc: Global, text: &str) -> anyhow::Result<Vec<Step>> {
    let mut steps = Vec::new(alloc);
    for word in text.split(' ') {
        push_steps(&mut steps, word)?;
    }
    Ok(steps)
}

/// Whether a keeper over a database answers a step Ok.
pub fn is_done<S: Alter + Drop>(
    alloc: Global,
    commits: &Commits,
    keeper: &mut SqlKeeper<S>,
    step: Step,
) -> anyhow::Result<bool> {
    match step {
        Step::Commit(number) => {
            let changes = commits.changes(alloc, number)?;
            let is_ok = keeper.commit(alloc, &changes).is_ok();
            drop(changes);
            Ok(is_ok)
        }
        Step::Fold => Ok(keeper.fold(alloc).is_ok()),
        Step::Load => Ok(keeper.load(alloc).is_ok()),
    }
}

/// How many steps a keeper over a database answers Ok, up to the first that it doesn't.
pub fn done<S: Alter + Drop>(
    alloc: Global,
    commits: &Commits,
    keeper: &mut SqlKeeper<S>,
    steps: &[Step],
) -> anyhow::Result<usize> {
    let mut count = 0usize;
    for step in steps {
        if !is_done(alloc, commits, keeper, *step)? {
            return Ok(count);
        }
        count = count.saturating_add(1);
    }
    Ok(count)
}

/// What a keeper gives, as lines; none for a refusal.
pub fn loaded<K: Keeper>(alloc: Global, keeper: &mut K) -> anyhow::Result<Vec<String>> {
    match keeper.load(alloc) {
        Ok(kept) => {
            let lines = lines(alloc, &kept);
            drop(kept);
            lines
        }
        Err(_) => Ok(Vec::new(alloc)),
    }
}

/// A keeper in memory makes a commit.
fn commit_to(
    alloc: Global,
    commits: &Commits,
    keeper: &mut SureKeeper,
    number: u64,
) -> anyhow::Result<()> {
    let changes = commits.changes(alloc, number)?;
    let done = keeper.commit(alloc, &changes);
    drop(changes);
    match done {
        Ok(()) => Ok(()),
        Err(_) => bail!("no memory"),
    }
}

/// What a keeper in memory gives after the commits among steps.
fn told_by(
    alloc: Global,
    commits: &Commits,
    keeper: &mut SureKeeper,
    steps: &[Step],
) -> anyhow::Result<Vec<String>> {
    for step in steps {
        if let Step::Commit(number) = step {
            commit_to(alloc, commits, keeper, *number)?;
        }
    }
    loaded(alloc, keeper)
}

/// What a fresh keeper in memory gives after the commits among steps.
pub fn in_memory(alloc: Global, commits: &Commits, steps: &[Step]) -> anyhow::Result<Vec<String>> {
    let mut keeper = SureKeeper::new(Kept::fresh(alloc));
    let told = told_by(alloc, commits, &mut keeper, steps);
    drop(keeper);
    told
}

/// Whether what was found is what a keeper in memory gives after steps; or else what was found.
pub fn compared(
    alloc: Global,
    commits: &Commits,
    steps: &[Step],
    found: &[String],
) -> anyhow::Result<String> {
    if found == in_memory(alloc, commits, steps)?.as_slice() {
        return Ok(String::from_str(alloc, "as in memory")?);
    }
    Ok(format!(in alloc; "OTHERWISE: {found:?}")?)
}
