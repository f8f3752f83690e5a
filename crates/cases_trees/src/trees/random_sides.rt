//! Random sides, compared with what the plain slow program merges of them.

ghost use Rattle.std.specs.Prelude.{◌≡◌, true};
ghost use Rattle.ss_tree.specs.Entries.{is_live};

use crate::trees::chances::{Dice, name};
use crate::trees::desk::Desk;
use crate::trees::listing::{ids_text, pairs_text};
use crate::trees::merging::side_name;
use crate::trees::notation::{item, plant, tree_text};
use crate::trees::plain_sides::{NAMES, Raw, Raws, random_raws, shown_by_rules};
use crate::words::id_of;
use anyhow::bail;
use ss_merge::{Merged, Origin, merge};
use ss_record::Kind;
use ss_text::{Id, Ids};
use ss_tree::{Node, Sides, Tree};
use std::alloc::{AllocError, Global};

/// Puts an item of a plain tree into a tree.
fn add(alloc: Global, tree: &mut Tree, raw: &Raw) -> anyhow::Result<()> {
    let kind = if raw.folder {
        Kind::Folder
    } else {
        Kind::Bookmark
    };
    let content = if raw.title == 0 {
        "{}"
    } else {
        "{\"title\":\"t\"}"
    };
    let item = item(alloc, id_of(alloc, name(raw.id))?, kind, content)?;
    let Some(under) = tree.find(&id_of(alloc, name(raw.parent))?) else {
        bail!("no parent");
    };
    plant(alloc, tree, under, item, u64::from(raw.time))?;
    Ok(())
}

/// The tree of a plain one.
fn tree_of(alloc: Global, raws: &[Raw]) -> anyhow::Result<Tree> {
    let mut tree = Tree::new(alloc)?;
    for raw in raws {
        add(alloc, &mut tree, raw)?;
    }
    Ok(tree)
}

/// The ids of numbers.
fn ids_of(alloc: Global, numbers: &[u8]) -> anyhow::Result<Ids> {
    let mut ids = Vec::new(alloc);
    for number in numbers {
        ids.push(id_of(alloc, name(*number))?)?;
    }
    Ok(Ids::new(ids))
}

/// The merge of plain trees, which are laid out on a desk.
fn merged_on(alloc: Global, desk: &mut Desk, raws: &Raws) -> anyhow::Result<Merged> {
    desk.mirror = tree_of(alloc, &raws.mirror)?;
    desk.local = tree_of(alloc, &raws.local)?;
    desk.remote = tree_of(alloc, &raws.remote)?;
    desk.local_dead = ids_of(alloc, &raws.local_dead)?;
    desk.remote_dead = ids_of(alloc, &raws.remote_dead)?;
    Ok(merge(alloc, &desk.sides())?)
}

/// The merge of plain trees.
fn merged(alloc: Global, raws: &Raws) -> anyhow::Result<Merged> {
    let mut desk = Desk::new(alloc)?;
    let merged = merged_on(alloc, &mut desk, raws);
    drop(desk);
    merged
}

/// The side of an item's content; `none` where it isn't told, and `twice` where it is told more than once.
fn side_of(merged: &Merged, id: &Id) -> &'static str {
    let mut side = "none";
    for (other, origin) in &merged.from {
        if other == id {
            side = if side == "none" {
                side_name(*origin)
            } else {
                "twice"
            };
        }
    }
    side
}

/// An item with its title, its parent, and the side of its content.
fn push_item(merged: &Merged, node: Node, line: &mut String) -> Result<(), AllocError>
    requires { is_live node merged.now.tree ≡ true }
{
    let item = merged.tree.item(node);
    line.push_str(item.id().as_str())?;
    line.push_str(if item.content().as_str() == "{}" {
        "=0<"
    } else {
        "=1<"
    })?;
    if let Some(parent) = merged.tree.parent(node) {
        line.push_str(merged.tree.item(parent).id().as_str())?;
    }
    line.push(' ')?;
    line.push_str(side_of(merged, item.id()))
}

/// An item's children.
fn push_children(
    alloc: Global,
    tree: &Tree,
    node: Node,
    line: &mut String,
) -> Result<(), AllocError> {
    line.push(':')?;
    for child in &tree.children(alloc, node)? {
        line.push(' ')?;
        line.push_str(tree.item(*child).id().as_str())?;
    }
    line.push_str(", ")
}

/// Each item of a merged tree, in the order of the names.
fn items_text(alloc: Global, merged: &Merged) -> anyhow::Result<String> {
    let mut line = String::new(alloc);
    for number in 0..NAMES {
        if name(number) != "places" {
            if let Some(node) = merged.tree.find(&id_of(alloc, name(number))?) {
                push_item(merged, node, &mut line)?;
                push_children(alloc, &merged.tree, node, &mut line)?;
            }
        }
    }
    Ok(line)
}

/// What came of a merge, item by item.
fn merged_text(alloc: Global, merged: &Merged) -> anyhow::Result<String> {
    let items = items_text(alloc, merged)?;
    let gone = ids_text(alloc, "gone", &merged.gone)?;
    let renamed = pairs_text(alloc, "renamed", &merged.renamed)?;
    Ok(format!(in alloc; "{items}{gone}, {renamed}")?)
}

/// Whether all of a merge is the same on both sides, with nothing gone or renamed.
fn is_same(merged: &Merged) -> bool {
    let mut is_same = merged.gone.as_slice().is_empty() && merged.renamed.is_empty();
    for (_, origin) in &merged.from {
        is_same = is_same && *origin == Origin::Same;
    }
    is_same
}

/// Whether a merge of a tree with itself has left it as it is.
fn is_left(alloc: Global, tree: &Tree, again: &Merged) -> anyhow::Result<bool> {
    let before = tree_text(alloc, tree)?;
    let after = tree_text(alloc, &again.tree)?;
    Ok(is_same(again) && before == after)
}

/// Whether a merge of a tree with itself leaves it as it is.
fn stays(alloc: Global, tree: &Tree) -> anyhow::Result<bool> {
    let none = Ids::new(Vec::new(alloc));
    let again = merge(
        alloc,
        &Sides {
            mirror: tree,
            local: tree,
            remote: tree,
            local_dead: &none,
            remote_dead: &none,
        },
    )?;
    let is_left = is_left(alloc, tree, &again);
    drop(again);
    is_left
}

/// How many rounds differ, what differs, how many trees didn't stay, and how much was merged.
#[derive(Drop)]
struct Tally {
    differ: u64,
    differences: String,
    unsteady: u64,
    items: usize,
    gone: usize,
    renamed: usize,
}

impl Tally {
    fn new(alloc: Global) -> Tally {
        Tally {
            differ: 0,
            differences: String::new(alloc),
            unsteady: 0,
            items: 0,
            gone: 0,
            renamed: 0,
        }
    }

    /// Counts the items of a merge, and those that are gone or renamed.
    fn count(&mut self, merged: &Merged) {
        self.items = self.items.saturating_add(merged.from.len());
        self.gone = self.gone.saturating_add(merged.gone.as_slice().len());
        self.renamed = self.renamed.saturating_add(merged.renamed.len());
    }

    /// Compares a merge with what the rules say.
    fn compare(
        &mut self,
        alloc: Global,
        round: u64,
        told: &str,
        wanted: &str,
    ) -> anyhow::Result<()> {
        if told != wanted {
            self.differ = self.differ.saturating_add(1);
            self.differences.push_str(format!(in alloc;
                "\nround {round}: merged {told}, by the rules {wanted}"
            )?.as_str())?;
        }
        Ok(())
    }

    /// Merges a merged tree with itself.
    fn merge_again(&mut self, alloc: Global, round: u64, tree: &Tree) -> anyhow::Result<()> {
        if !stays(alloc, tree)? {
            self.unsteady = self.unsteady.saturating_add(1);
            self.differences.push_str(format!(in alloc;
                "\nround {round}: merged with itself it changes"
            )?.as_str())?;
        }
        Ok(())
    }

    /// Compares the merge of sides with what the rules say.
    fn check(
        &mut self,
        alloc: Global,
        round: u64,
        merged: &Merged,
        raws: &mut Raws,
    ) -> anyhow::Result<()> {
        self.count(merged);
        let told = merged_text(alloc, merged)?;
        let wanted = shown_by_rules(alloc, raws)?;
        self.compare(alloc, round, told.as_str(), wanted.as_str())?;
        self.merge_again(alloc, round, &merged.tree)
    }

    /// Merges sides, and compares that with what the rules say.
    fn take(&mut self, alloc: Global, round: u64, raws: &mut Raws) -> anyhow::Result<()> {
        let merged = merged(alloc, raws)?;
        let checked = self.check(alloc, round, &merged, raws);
        drop(merged);
        checked
    }

    /// Takes so many random sides.
    fn take_all(&mut self, alloc: Global, rounds: u64) -> anyhow::Result<()> {
        let mut dice = Dice::new(7);
        for round in 0..rounds {
            let mut raws = random_raws(alloc, &mut dice)?;
            self.take(alloc, round, &mut raws)?;
        }
        Ok(())
    }
}

/// Merges so many random sides, and compares each merge with what the rules say, and with its merge with itself.
pub fn compare(alloc: Global, rounds: u64) -> anyhow::Result<String> {
    let mut tally = Tally::new(alloc);
    tally.take_all(alloc, rounds)?;
    Ok(format!(in alloc;
        "{rounds} merged, {} items, {} gone, {} renamed, {} differ, {} changed by a merge with themselves{}",
        tally.items, tally.gone, tally.renamed, tally.differ, tally.unsteady, tally.differences
    )?)
}
