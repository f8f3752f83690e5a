//! The duplicate pairs, round by round: first the items whose parents are one, then those whose parents are a pair.

ghost use Rattle.std.specs.Prelude.{◌≡◌, ◌||◌, ◌≤◌, ◌⊎◌, ◌↔◌, ◌&&◌, true, Some, IfOk, OnOk, is_some, bytes_eq, length};
ghost use Rattle.std.specs.HashMap.{get};
ghost use Rattle.std.specs.BTreeMap.{IsOrdered};
ghost use Rattle.ss_text.specs.Texts.{text_cmp};
ghost use Rattle.ss_dupe.specs.declared.news.Mark.{Mark as Sign};
ghost use Rattle.ss_dupe.specs.Looks.{Id as Text};
ghost use Rattle.ss_dupe.specs.Sides.{sides_asked};
ghost use Rattle.ss_dupe.specs.Pairs.{AreAlike, ArePairs};
ghost use Rattle.ss_dupe.specs.Plains.{AreIds, view};
ghost use Rattle.ss_dupe.specs.Shapes.{HaveShapes};
ghost use Rattle.ss_dupe.specs.News.{Adds, HasNew, has_pair, is_shared, same_mark};

use crate::news::{Mark, New, news_of};
use crate::plains::Plains;
use crate::sides::Side;
use ss_seed::Seed;
use ss_text::Id;
use ss_tree::Sides;
use std::alloc::{AllocError, Global};
use std::collections::{BTreeMap, HashMap};

/// New items by what tells them apart.
fn index_of(
    alloc: Global,
    seed: Seed,
    news: Vec<New>,
) -> Result<HashMap<Mark, Id, Seed>, AllocError>
    ensures found { IfOk result (λ index. (m : Sign) → (x : Text) → get same_mark index m ≡ Some x
        → HasNew m x news.items) }
    ensures all { IfOk result (λ index. (m : Sign) → (x : Text) → HasNew m x news.items
        → is_some (get same_mark index m) ≡ true) }
{
    let mut index = HashMap::with_hasher(alloc, seed);
    for new in news {
        index.insert(new.mark, new.id)?;
    }
    Ok(index)
}

/// The new children of a local and of a remote item that are alike.
fn like_children(
    alloc: Global,
    plains: &Plains,
    local: &Id,
    remote: &Id,
) -> Result<Vec<(Id, Id)>, AllocError>
    requires { HaveShapes (view plains.now) }
    ensures { IfOk result (λ pairs. (l : Text) → (r : Text) → (has_pair l r pairs.items
        ≡ true) ↔ AreAlike (view plains.now) l r local.now remote.now) }
{
    let index = index_of(
        alloc,
        plains.seed(),
        news_of(alloc, plains, Side::Remote, remote)?,
    )?;
    let mut pairs = Vec::new(alloc);
    for new in news_of(alloc, plains, Side::Local, local)? {
        if let Some(id) = index.get(&new.mark) {
            pairs.push((new.id, id.copy(alloc)?))?;
        }
    }
    Ok(pairs)
}

/// The ids that are in both trees, each as a pair with itself.
fn shared(alloc: Global, plains: &Plains) -> Result<Vec<(Id, Id)>, AllocError>
    requires { AreIds plains.now.local }
    ensures { IfOk result (λ pairs. (l : Text) → (r : Text) → has_pair l r pairs.items
        ≡ is_shared (view plains.now) l r) }
{
    let mut pairs = Vec::new(alloc);
    for id in &plains.local.ids {
        if plains.remote.has(id) {
            pairs.push((id.copy(alloc)?, id.copy(alloc)?))?;
        }
    }
    Ok(pairs)
}

/// Adds pairs to those found, and to those whose children come next.
fn add(
    alloc: Global,
    pairs: Vec<(Id, Id)>,
    found: &mut BTreeMap<Id, Id>,
    next: &mut Vec<(Id, Id)>,
) -> Result<(), AllocError>
    ensures next { OnOk result ((l : Text) → (r : Text) → has_pair l r next.new.items
        ≡ (has_pair l r next.old.items || has_pair l r pairs.items)) }
    ensures found { OnOk result (Adds found.old found.new pairs.items) }
{
    for (local, remote) in pairs {
        found.insert(local.copy(alloc)?, remote.copy(alloc)?)?;
        next.push((local, remote))?;
    }
    Ok(())
}

/// The like children of pairs, which are added to those found.
fn round(
    alloc: Global,
    plains: &Plains,
    current: &[(Id, Id)],
    found: &mut BTreeMap<Id, Id>,
) -> Result<Vec<(Id, Id)>, AllocError>
    requires { HaveShapes (view plains.now) }
    ensures next { IfOk result (λ next. (l : Text) → (r : Text) → (has_pair l r next.items ≡ true) ↔ ((p : Text)
        × (q : Text) × (has_pair p q current.now ≡ true) × AreAlike (view plains.now) l r p q)) }
    ensures found { IfOk result (λ next. Adds found.old found.new next.items) }
{
    let mut next = Vec::new(alloc);
    for (local, remote) in current {
        add(
            alloc,
            like_children(alloc, plains, local, remote)?,
            found,
            &mut next,
        )?;
    }
    Ok(next)
}

/// The pairs of a map, by local id.
fn into_pairs(alloc: Global, found: BTreeMap<Id, Id>) -> Result<Vec<(Id, Id)>, AllocError>
    ensures pairs { IfOk result (λ pairs. pairs.items ≡ found.entries) }
    ensures ordered { OnOk result (IsOrdered text_cmp found) }
{
    let mut pairs = Vec::with_capacity(alloc, found.len())?;
    for (local, remote) in found {
        pairs.push((local, remote))?;
    }
    Ok(pairs)
}

/// Pairs the new items that are the same on both sides of trees that were read out: a local id and a remote id, by
/// local id.
pub fn pair_read(alloc: Global, plains: &Plains) -> Result<Vec<(Id, Id)>, AllocError>
    requires shaped { HaveShapes (view plains.now) }
    requires ids { AreIds plains.now.local }
    ensures { IfOk result (λ pairs. ArePairs (view plains.now) pairs.items) }
{
    let mut found = BTreeMap::new(alloc);
    let mut current = shared(alloc, plains)?;
    for step in 0..plains.local.ids.len() {
        current = round(alloc, plains, &current, &mut found)?;
    }
    into_pairs(alloc, found)
}

/// Pairs the new items that are the same on both sides: a local id and a remote id, by local id.
pub fn pair_dupes(alloc: Global, sides: &Sides) -> Result<Vec<(Id, Id)>, AllocError>
    ensures { IfOk result (λ pairs. ArePairs (sides_asked sides.now) pairs.items) }
{
    let plains = Plains::read(alloc, sides)?;
    pair_read(alloc, &plains)
}
