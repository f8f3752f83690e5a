//! What is counted of a tree.

ghost use Rattle.std.specs.Prelude.{◌≡◌, codes, option_map, option_and_then, IfOk};
ghost use Rattle.serde_json.specs.Find.{get_member};
ghost use Rattle.serde_json.specs.View.{members_view};
ghost use Rattle.ss_record.specs.Marks.{string_of};
ghost use Rattle.ss_rehearse.specs.Summaries.{begins_with_r, children_of, count, is_own, is_renamed};

use crate::bookmarks::menu;
use serde_json::{Map, Value};
use ss_record::{Item, is_places, is_root, member, string_of};
use ss_tree::Tree;
use std::alloc::{AllocError, Global};

/// Whether an item is neither `places` nor a root.
#[tactic(auto, unfolding(crate::specs::Summaries::is_own))]
fn is_own(item: &Item) -> bool
    ensures { result ≡ is_own item.now }
{
    !is_places(item.id()) && !is_root(item.id())
}

fn begins_with_r(text: &str) -> bool
    ensures { result ≡ begins_with_r text.now }
{
    match text.as_bytes().first() {
        Some(first) => *first == b'R',
        None => false,
    }
}

/// The title among the members of a content.
fn title_in(members: &Map<String, Value>) -> Option<&str>
    ensures { option_map (λ title. title.now) result ≡ option_and_then string_of
        (get_member (codes "title") (members_view members.now.entries)) }
{
    match member(members, "title") {
        Some(title) => string_of(title),
        None => None,
    }
}

/// Whether the title of an item begins with `R`.
#[tactic(auto, unfolding(crate::specs::Summaries::is_renamed, crate::specs::Summaries::title_of))]
fn is_renamed(alloc: Global, item: &Item) -> Result<bool, AllocError>
    ensures { IfOk result (λ renamed. renamed ≡ is_renamed item.now) }
{
    let members = item.members(alloc)?;
    Ok(match title_in(&members) {
        Some(title) => begins_with_r(title),
        None => false,
    })
}

/// How many items a tree has, without `places` and the roots.
#[tactic(auto, unfolding(crate::specs::Summaries::count))]
pub(crate) fn count_own(alloc: Global, tree: &Tree) -> Result<u64, AllocError>
    ensures { IfOk result (λ n. n ≡ count is_own tree.now) }
{
    let nodes = tree.walk(alloc)?;
    let mut count = 0;
    for node in &nodes {
        if is_own(tree.item(*node)) {
            count += 1;
        }
    }
    Ok(count)
}

/// How many items a tree has whose title begins with `R`.
#[tactic(auto, unfolding(crate::specs::Summaries::count))]
pub(crate) fn count_renamed(alloc: Global, tree: &Tree) -> Result<u64, AllocError>
    ensures { IfOk result (λ n. n ≡ count is_renamed tree.now) }
{
    let nodes = tree.walk(alloc)?;
    let mut count = 0;
    for node in &nodes {
        if is_renamed(alloc, tree.item(*node))? {
            count += 1;
        }
    }
    Ok(count)
}

/// How many children `menu` has.
#[tactic(auto, unfolding(crate::specs::Summaries::children_of))]
pub(crate) fn count_menu(alloc: Global, tree: &Tree) -> Result<u64, AllocError>
    ensures { IfOk result (λ n. n ≡ children_of (codes "menu") tree.now) }
{
    let id = menu(alloc)?;
    match tree.find(&id) {
        Some(menu) => Ok(tree.children(alloc, menu)?.len() as u64),
        None => Ok(0),
    }
}
