//! The plan of an upload.

ghost use Rattle.std.specs.Prelude.{◌≡◌, ◌⊎◌, ℕ, List, Some, None, IfOk, MatchResult};
ghost use Rattle.ss_record.specs.declared.readings.Sheet.{Sheet};
ghost use Rattle.ss_tree.specs.Entries.{tree as tree_of};
ghost use Rattle.ss_build.specs.Rows.{readings as told, rows_of};
ghost use Rattle.ss_build.specs.Stand.{HasItsRows};
ghost use Rattle.ss_plan.specs.Plan.{plan};
ghost use Rattle.ss_plan.specs.Refusals.{refusal};
ghost use Rattle.ss_plan.specs.Written.{AreRowsAfter};
ghost use Rattle.ss_plan.specs.declared.limits.PlanFault.TheVariants.{Memory};

use crate::gone::tombstones;
use crate::limits::{Limits, PlanFault};
use crate::records::records;
use crate::refusals::refusal;
use ss_bso::{Part, Parts};
use ss_build::Built;
use ss_record::Reading;
use ss_text::Id;
use ss_tree::Tree;
use std::alloc::{AllocError, Global};

/// What has to be put so that rows of which this was read stand for a tree: in preorder the record of each item whose
/// row is absent or doesn't agree, and then by id a tombstone for each item that isn't in the tree (the rule is this
/// project's).
pub fn changes(
    alloc: Global,
    tree: &Tree,
    readings: &[(Id, Reading)],
) -> Result<Vec<Part>, AllocError>
    ensures parts { IfOk result (λ parts. parts.items ≡ plan tree.now readings.now) }
    ensures stand { IfOk result (λ parts. (sheets after : List Sheet) (stamp : ℕ) → told (rows_of sheets) ≡ readings.now
        → AreRowsAfter sheets parts.items stamp after → HasItsRows (tree_of tree.now) (rows_of after)) }
{
    let upserts = records(alloc, tree, readings)?;
    let removals = tombstones(alloc, tree, readings)?;
    let mut parts = Parts::new(upserts);
    parts.append(removals)?;
    Ok(parts.into_vec())
}

/// The plan of an upload to a server with these limits: what has to be put so that the rows that were built stand for
/// the tree. It is refused exactly where it passes a limit.
pub fn plan(
    alloc: Global,
    tree: &Tree,
    built: &Built,
    limits: &Limits,
) -> Result<Vec<Part>, PlanFault>
    ensures parts { IfOk result (λ parts. parts.items ≡ plan tree.now built.now.readings.items) }
    ensures refused { MatchResult result (λ parts. refusal limits.now (plan tree.now built.now.readings.items)
        ≡ None) (λ e. (e ≡ Memory) ⊎ (refusal limits.now (plan tree.now built.now.readings.items) ≡ Some e)) }
    ensures stand { IfOk result (λ parts. (sheets after : List Sheet) (stamp : ℕ)
        → told (rows_of sheets) ≡ built.now.readings.items → AreRowsAfter sheets parts.items stamp after
        → HasItsRows (tree_of tree.now) (rows_of after)) }
{
    let parts = changes(alloc, tree, &built.readings)?;
    match refusal(alloc, limits, &parts)? {
        Some(fault) => Err(fault),
        None => Ok(parts),
    }
}
