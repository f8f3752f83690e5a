//! What a definition of edits means.

ghost use Rattle.std.specs.Prelude.{◌≡◌, ◌↔◌, ℕ, List, true, false, bytes_eq};
ghost use Rattle.ss_record.specs.Ids.{has, places};
ghost use Rattle.ss_tree.specs.declared.entries.Entry.{Entry};
ghost use Rattle.ss_tree.specs.Trees.{node_ids, parent_in, steps};
ghost use Rattle.ss_tree.specs.Entries.{IsTree, tree};
ghost use Rattle.ss_device.specs.Edits.{is_within};

/// An item is told to be within another one exactly where some number of steps up leads from it to that one.
pub fn within_is_exact()
    ensures { (es : List Entry) → IsTree es → (x y : List ℕ) → has x (node_ids (tree es)) ≡ true
        → bytes_eq x places ≡ false → has y (node_ids (tree es)) ≡ true
        → (is_within (tree es) x y ≡ true) ↔ ((k : ℕ) × (steps (parent_in (tree es)) k y ≡ x)) }
{}
