//! What merging means.

ghost use Rattle.std.specs.Prelude.{◌≡◌, ◌⊎◌, ◌↔◌, ◌≤◌, ◌||◌, ℕ, List, Some, length, true};
ghost use Rattle.ss_record.specs.Ids.{has, places};
ghost use Rattle.ss_tree.specs.Trees.{IsValidTree, node_ids};
ghost use Rattle.ss_dupe.specs.Looks.{Id, is_in, is_root};
ghost use Rattle.ss_dupe.specs.Walks.{Meets};
ghost use Rattle.ss_dupe.specs.declared.sides.Side.{Side};
ghost use Rattle.ss_dupe.specs.Sides.{Sides};
ghost use Rattle.ss_merge.specs.Survivors.{survives};
ghost use Rattle.ss_merge.specs.Parents.{chosen, final, is_rooted, nearest_folder};
ghost use Rattle.ss_merge.specs.Merged.{entries_merged};
ghost use Rattle.ss_merge.specs.Claims.{AreMerging};

/// From each survivor the walk of final parents comes to a root.
pub fn final_parents_come_to_a_root()
    ensures { (s : Sides) (ids : List Id) → AreMerging s ids → (x : Id) → survives s x ≡ true
        → Meets (final s (length ids)) is_root x }
{}

/// An id is rooted exactly where its walk of chosen parents comes to a root, in however many steps.
pub fn rooted_is_exact()
    ensures { (s : Sides) (ids : List Id) → AreMerging s ids → (x : Id) → survives s x ≡ true
        → (is_rooted s (length ids) x ≡ true) ↔ Meets (chosen s (length ids)) is_root x }
{}

/// The nearest ancestor that survives as a folder is found whatever the bound of the walk is.
pub fn nearest_is_exact()
    ensures { (s : Sides) (ids : List Id) → AreMerging s ids → (side : Side) (x p : Id) → has x ids ≡ true
        → (nearest_folder s (length ids) side x ≡ Some p) ↔ ((n : ℕ) × (nearest_folder s n side x ≡ Some p)) }
{}

/// A merged tree is valid, and has `places` and the survivors and nothing else.
pub fn merged_trees_are_valid()
    ensures valid { (s : Sides) (ids : List Id) → AreMerging s ids → IsValidTree (entries_merged s ids) }
    ensures ids { (s : Sides) (ids : List Id) → AreMerging s ids → (x : Id)
        → (has x (node_ids (entries_merged s ids)) ≡ true) ↔ ((x ≡ places) ⊎ (survives s x ≡ true)) }
{}
