//! New items, with what tells them apart.

ghost use Rattle.std.specs.Prelude.{◌≡◌, true, IfOk};
ghost use Rattle.ss_dupe.specs.Looks.{is_in};
ghost use Rattle.ss_dupe.specs.Sides.{is_new, tree_of};
ghost use Rattle.ss_dupe.specs.Pairs.{key_on};
ghost use Rattle.ss_dupe.specs.Plains.{view};
ghost use Rattle.ss_dupe.specs.News.{AreApart, news_of};

use crate::keys::key_of;
use crate::plains::Plains;
use crate::sides::Side;
use ss_seed::Seed;
use ss_text::{Id, Word};
use std::alloc::{AllocError, Global};
use std::collections::HashMap;

/// What tells a new item apart among its siblings: its key, and how many earlier new siblings have that key.
#[derive(PartialEq, Eq, Hash, Drop)]
pub(crate) struct Mark {
    pub(crate) key: Word,
    pub(crate) rank: usize,
}

/// A new item.
#[derive(Drop)]
pub(crate) struct New {
    pub(crate) id: Id,
    pub(crate) mark: Mark,
}

/// The key of an item of a side's tree.
fn key_on(alloc: Global, plains: &Plains, side: Side, id: &Id) -> Result<Word, AllocError>
    requires { is_in (tree_of (view plains.now) side) id.now ≡ true }
    ensures { IfOk result (λ key. key ≡ key_on (view plains.now) side id.now) }
{
    match plains.of(side).get(id) {
        Some(seat) => key_of(alloc, seat.item),
        None => unreachable!(),
    }
}

/// The new items under a parent, in their order.
pub(crate) fn news_of(
    alloc: Global,
    plains: &Plains,
    side: Side,
    parent: &Id,
) -> Result<Vec<New>, AllocError>
    requires { AreApart (view plains.now) }
    ensures { IfOk result (λ news. news.items ≡ news_of (view plains.now) side parent.now) }
{
    let mut news = Vec::new(alloc);
    let mut counts: HashMap<Word, usize, Seed> = HashMap::with_hasher(alloc, plains.seed());
    let Some(seat) = plains.of(side).get(parent) else {
        return Ok(news);
    };
    for child in &seat.children {
        if plains.is_new(side, child) {
            let key = key_on(alloc, plains, side, child)?;
            let rank = counts.get(&key).copied().unwrap_or(0);
            counts.insert(key.copy(alloc)?, rank + 1)?;
            news.push(New {
                id: child.copy(alloc)?,
                mark: Mark { key, rank },
            })?;
        }
    }
    Ok(news)
}
