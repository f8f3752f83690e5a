//! What building means.

ghost use Rattle.std.specs.Prelude.{◌≡◌, ◌↔◌, ℕ, suc, List, length, map, true};
ghost use Rattle.ss_record.specs.declared.readings.Sheet.{Sheet};
ghost use Rattle.ss_record.specs.Ids.{Apart, has};
ghost use Rattle.ss_tree.specs.Trees.{IsValidTree, PlacedItem, steps};
ghost use Rattle.ss_build.specs.Rows.{rows_of};
ghost use Rattle.ss_build.specs.Built.{built, claims, comes_back, ids, proposed_parents};
ghost use Rattle.ss_build.specs.Stand.{IsSameUntimed, StandFor};

/// The tree that is built from rows with distinct ids is valid.
pub fn built_tree_is_valid()
    ensures { (sheets : List Sheet) → Apart (map (λ s. s.id) sheets) → IsValidTree (built (rows_of sheets)) }
{}

/// Rows that stand for a valid tree are built to it.
pub fn rows_are_built_back()
    ensures { (t : List PlacedItem) (sheets : List Sheet) → IsValidTree t → Apart (map (λ s. s.id) sheets) → StandFor t (rows_of sheets) → IsSameUntimed (built (rows_of sheets)) t }
{}

/// An item is told to come back to itself exactly where some number of steps along proposed parents leads from it to it.
pub fn circles_are_bounded()
    ensures { (sheets : List Sheet) → Apart (map (λ s. s.id) sheets) → (x : List ℕ) → has x (ids (claims (rows_of sheets))) ≡ true
        → (comes_back (proposed_parents (claims (rows_of sheets))) (length (claims (rows_of sheets))) x ≡ true) ↔ ((k : ℕ) × (steps (proposed_parents (claims (rows_of sheets))) (suc k) x ≡ x)) }
{}
