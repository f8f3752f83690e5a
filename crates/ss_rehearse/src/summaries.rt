//! The summary of a rehearsal.

ghost use Rattle.std.specs.Prelude.{◌≡◌, ◌++◌, IfOk, OnOk};
ghost use Rattle.ss_rehearse.specs.Summaries.{equal_text, summary_of, summary_text};

use crate::comparing::same_trees;
use crate::counting::{count_menu, count_own, count_renamed};
use crate::lines::push_line;
use ss_tree::Tree;
use std::alloc::{AllocError, Global};

/// What became of the trees of two devices.
#[derive(Clone, Copy, Debug)]
pub struct Summary {
    /// The items of the first tree, without `places` and the four roots.
    pub items: u64,
    /// The children of its `menu`.
    pub menu: u64,
    /// Its items whose title begins with `R`.
    pub renamed: u64,
    /// Whether both trees are equal but for times.
    pub equal: bool,
}

/// What became of the trees of the first device and of the second.
#[tactic(auto, unfolding(crate::specs::Summaries::summary_of))]
pub fn summary_of(alloc: Global, first: &Tree, second: &Tree) -> Result<Summary, AllocError>
    ensures { IfOk result (λ summary. summary ≡ summary_of first.now second.now) }
{
    Ok(Summary {
        items: count_own(alloc, first)?,
        menu: count_menu(alloc, first)?,
        renamed: count_renamed(alloc, first)?,
        equal: same_trees(alloc, first, second)?,
    })
}

fn push_equal(out: &mut Vec<u8>, equal: bool) -> Result<(), AllocError>
    ensures { OnOk result (out.new.items ≡ out.old.items ++ equal_text equal) }
{
    if equal {
        out.extend_from_slice(b"equal yes\n")
    } else {
        out.extend_from_slice(b"equal no\n")
    }
}

/// The lines of a summary, with the number of POSTs that each sync sent.
#[tactic(auto, unfolding(crate::specs::Summaries::summary_text))]
pub fn summary_text(alloc: Global, posts: &[u64], summary: &Summary) -> Result<Vec<u8>, AllocError>
    ensures { IfOk result (λ text. text.items ≡ summary_text posts.now summary.now) }
{
    let mut out = Vec::new(alloc);
    push_line(&mut out, "items", &[summary.items])?;
    push_line(&mut out, "posts", posts)?;
    push_line(&mut out, "menu", &[summary.menu])?;
    push_line(&mut out, "renamed", &[summary.renamed])?;
    push_equal(&mut out, summary.equal)?;
    Ok(out)
}
