//! Merging.

ghost use Rattle.std.specs.Prelude.{◌≡◌, ◌⊎◌, ◌↔◌, ◌&&◌, not, true, map, IfOk};
ghost use Rattle.ss_record.specs.Ids.{Apart, has, places};
ghost use Rattle.ss_tree.specs.Entries.{tree};
ghost use Rattle.ss_tree.specs.Trees.{IsSame, IsValidTree, node_ids};
ghost use Rattle.ss_dupe.specs.Looks.{Id as Text, is_places};
ghost use Rattle.ss_dupe.specs.Pairs.{ArePairs};
ghost use Rattle.ss_dupe.specs.Plains.{view};
ghost use Rattle.ss_dupe.specs.Renaming.{renamed_sides};
ghost use Rattle.ss_dupe.specs.Sides.{sides_asked};
ghost use Rattle.ss_merge.specs.Survivors.{survives};
ghost use Rattle.ss_merge.specs.Merged.{all_ids, gone_of, entries_merged, merged_tree, origins};
ghost use Rattle.ss_merge.specs.Claims.{AreMerging};

use crate::claims::claims_of;
use crate::ids::all_ids;
use crate::paired::{Paired, read_paired};
use crate::parents::finals_of;
use crate::telling::{gone_of, origins};
use ss_build::build_claims;
use ss_dupe::Plains;
use ss_text::{Id, Ids};
use ss_tree::{Sides, Tree};
use std::alloc::{AllocError, Global};

/// The side whose content a merged item has: `Same` where it differs from the mirror's on neither.
#[derive(Clone, Copy, PartialEq, Eq, Debug)]
pub enum Origin {
    Local,
    Remote,
    Same,
}

/// What came of a merge.
#[derive(Drop, Debug)]
pub struct Merged {
    /// The merged tree; all its times are 0.
    pub tree: Tree,
    /// Each item of the tree but `places`, in preorder, with the side of its content.
    pub from: Vec<(Id, Origin)>,
    /// The remote items that don't survive, by id.
    pub gone: Ids,
    /// The duplicate pairs, by local id: a local id and the remote one that it got.
    pub renamed: Vec<(Id, Id)>,
}

/// The tree of the survivors in their places.
fn tree_of(alloc: Global, plains: &Plains, ids: &[Id]) -> Result<Tree, AllocError>
    requires { AreMerging (view plains.now) ids.now }
    ensures same { IfOk result (λ t. IsSame (tree t) (entries_merged (view plains.now) ids.now)) }
    ensures valid { IfOk result (λ t. IsValidTree (tree t)) }
{
    let finals = finals_of(alloc, plains, ids)?;
    let claims = claims_of(alloc, plains, &finals, ids)?;
    Ok(build_claims(alloc, &claims)?)
}

/// Merges a local and a remote tree that were changed apart since they were the mirror (the rules are this project's,
/// after the outline of Firefox's merger of bookmarks).
pub fn merge(alloc: Global, sides: &Sides) -> Result<Merged, AllocError>
    ensures tree { IfOk result (λ m. IsSame (tree m.tree) (merged_tree m.renamed.items sides.now)) }
    ensures valid { IfOk result (λ m. IsValidTree (tree m.tree)) }
    ensures survivors { IfOk result (λ m. (x : Text) → (has x (node_ids (tree m.tree)) ≡ true) ↔ ((x ≡ places)
        ⊎ (survives (renamed_sides m.renamed.items sides.now) x ≡ true))) }
    ensures from { IfOk result (λ m. m.from.items ≡ origins (renamed_sides m.renamed.items sides.now) m.tree) }
    ensures from_once { IfOk result (λ m. Apart (map (λ p. p.0) m.from.items)) }
    ensures from_all { IfOk result (λ m. (x : Text) → has x (map (λ p. p.0) m.from.items)
        ≡ (has x (node_ids (tree m.tree)) && not (is_places x))) }
    ensures gone { IfOk result (λ m. m.gone ≡ gone_of (renamed_sides m.renamed.items sides.now)
        (all_ids m.renamed.items sides.now)) }
    ensures renamed { IfOk result (λ m. ArePairs (sides_asked sides.now) m.renamed.items) }
{
    let paired = read_paired(alloc, sides)?;
    let ids = all_ids(alloc, &paired.plains)?;
    let tree = tree_of(alloc, &paired.plains, &ids)?;
    let from = origins(alloc, &paired.plains, &tree)?;
    let gone = gone_of(alloc, &paired.plains, &ids)?;
    let Paired { renamed, .. } = paired;
    Ok(Merged {
        tree,
        from,
        gone,
        renamed,
    })
}
