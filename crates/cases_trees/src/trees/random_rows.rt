//! Random rows, compared with what the plain slow program builds of them.

ghost use Rattle.std.specs.Prelude.{◌≡◌, true};
ghost use Rattle.ss_tree.specs.Entries.{is_live};

use crate::trees::building::built;
use crate::trees::chances::{Dice, name};
use crate::trees::listing::ids_text;
use crate::trees::plain_rows::{NAMES, Raw, payload, random_rows, shown_by_rules};
use crate::words::id_of;
use anyhow::bail;
use ss_build::Built;
use ss_record::Sheet;
use ss_text::{Stamp, Word};
use ss_tree::{Node, Tree};
use std::alloc::{AllocError, Global};

/// An item with its parent and its children.
fn push_node(alloc: Global, tree: &Tree, node: Node, line: &mut String) -> Result<(), AllocError>
    requires { is_live node tree.now ≡ true }
{
    line.push_str(tree.item(node).id().as_str())?;
    line.push('<')?;
    if let Some(parent) = tree.parent(node) {
        line.push_str(tree.item(parent).id().as_str())?;
    }
    for child in &tree.children(alloc, node)? {
        line.push(' ')?;
        line.push_str(tree.item(*child).id().as_str())?;
    }
    line.push_str(", ")
}

/// Each item with its parent and its children, in the order of the names.
fn items_text(alloc: Global, tree: &Tree) -> anyhow::Result<String> {
    let mut line = String::new(alloc);
    for number in 0..NAMES {
        if name(number) != "places" {
            if let Some(node) = tree.find(&id_of(alloc, name(number))?) {
                push_node(alloc, tree, node, &mut line)?;
            }
        }
    }
    Ok(line)
}

/// What was built, item by item.
fn built_text(alloc: Global, built: &Built) -> anyhow::Result<String> {
    let items = items_text(alloc, &built.tree)?;
    let dead = ids_text(alloc, "dead", &built.dead)?;
    let skipped = ids_text(alloc, "skipped", &built.skipped)?;
    let repaired = ids_text(alloc, "repaired", &built.repaired)?;
    Ok(format!(in alloc; "{items}{dead}, {skipped}, {repaired}")?)
}

/// Rows as a server has them.
fn sheets_of(alloc: Global, rows: &[Raw]) -> anyhow::Result<Vec<Sheet>> {
    let mut sheets = Vec::new(alloc);
    for row in rows {
        sheets.push(Sheet {
            id: id_of(alloc, name(row.id))?,
            modified: Stamp::clamp(row.time),
            payload: Word::new(payload(alloc, row)?),
        })?;
    }
    Ok(sheets)
}

/// How many rounds were compared and differ, what differs, and how many items were built and repaired.
#[derive(Drop)]
struct Tally {
    differ: u64,
    differences: String,
    items: usize,
    repaired: usize,
}

impl Tally {
    fn new(alloc: Global) -> Tally {
        Tally {
            differ: 0,
            differences: String::new(alloc),
            items: 0,
            repaired: 0,
        }
    }

    /// Counts the items of a tree, and those of which the records say something else.
    fn count(&mut self, alloc: Global, built: &Built) -> Result<(), AllocError> {
        self.items = self
            .items
            .saturating_add(built.tree.walk(alloc)?.len().saturating_sub(1));
        self.repaired = self
            .repaired
            .saturating_add(built.repaired.as_slice().len());
        Ok(())
    }

    /// Compares what was built with what the rules say.
    fn compare(
        &mut self,
        alloc: Global,
        round: u64,
        told: &str,
        wanted: &str,
    ) -> anyhow::Result<()> {
        if told != wanted {
            self.differ = self.differ.saturating_add(1);
            self.differences.push_str(format!(in alloc;
                "\nround {round}: built {told}, by the rules {wanted}"
            )?.as_str())?;
        }
        Ok(())
    }

    /// Compares what was built of rows with what the rules say.
    fn check(
        &mut self,
        alloc: Global,
        round: u64,
        built: &Built,
        rows: &[Raw],
    ) -> anyhow::Result<()> {
        self.count(alloc, built)?;
        let told = built_text(alloc, built)?;
        let wanted = shown_by_rules(alloc, rows)?;
        self.compare(alloc, round, told.as_str(), wanted.as_str())
    }

    /// Builds rows, and compares that with what the rules say.
    fn take(&mut self, alloc: Global, round: u64, rows: &[Raw]) -> anyhow::Result<()> {
        let sheets = sheets_of(alloc, rows)?;
        match built(alloc, &sheets)? {
            Some(built) => {
                let checked = self.check(alloc, round, &built, rows);
                drop(built);
                checked
            }
            None => bail!("an id twice"),
        }
    }
}

/// Builds so many random sets of rows, and compares each with what the rules say.
pub fn compare(alloc: Global, rounds: u64) -> anyhow::Result<String> {
    let mut dice = Dice::new(7);
    let mut tally = Tally::new(alloc);
    for round in 0..rounds {
        let rows = random_rows(alloc, &mut dice)?;
        tally.take(alloc, round, &rows)?;
    }
    Ok(format!(in alloc;
        "{rounds} built, {} items, {} repaired, {} differ{}",
        tally.items, tally.repaired, tally.differ, tally.differences
    )?)
}
