//! What pairing means.

ghost use Rattle.std.specs.Prelude.{◌≡◌, ◌↔◌, List, Some, true};
ghost use Rattle.serde_json.specs.Data.{Members};
ghost use Rattle.serde_json.specs.Find.{get_member};
ghost use Rattle.ss_record.specs.declared.kinds.Kind.{Kind};
ghost use Rattle.ss_record.specs.Ids.{has};
ghost use Rattle.ss_record.specs.Payloads.{payload_members};
ghost use Rattle.ss_tree.specs.Trees.{IsValidTree, PlacedItem};
ghost use Rattle.ss_dupe.specs.Keys.{key_of, telling};
ghost use Rattle.ss_dupe.specs.Looks.{Id};
ghost use Rattle.ss_dupe.specs.Sides.{sides};
ghost use Rattle.ss_dupe.specs.Pairs.{ArePairs, IsPair};
ghost use Rattle.ss_dupe.specs.Renaming.{renamed_id, tree_renamed};

/// Of valid trees, whatever the mirror and the deleted ids are, no id stands in two pairs.
pub fn no_id_is_in_two_pairs()
    ensures one_remote { (m l r : List PlacedItem) (x y : List Id) → IsValidTree l → IsValidTree r → (a b c : Id)
        → IsPair (sides m l r x y) a b → IsPair (sides m l r x y) a c → b ≡ c }
    ensures one_local { (m l r : List PlacedItem) (x y : List Id) → IsValidTree l → IsValidTree r → (a b c : Id)
        → IsPair (sides m l r x y) a c → IsPair (sides m l r x y) b c → a ≡ b }
    ensures apart { (m l r : List PlacedItem) (x y : List Id) → IsValidTree l → IsValidTree r → (a b c : Id)
        → IsPair (sides m l r x y) a b → IsPair (sides m l r x y) c a → ⊥ }
{}

/// The local tree, with the remote ids for its paired items, is valid.
pub fn renamed_trees_are_valid()
    ensures { (m l r : List PlacedItem) (x y : List Id) (pairs : List (Id × Id)) → IsValidTree l → IsValidTree r
        → ArePairs (sides m l r x y) pairs → IsValidTree (tree_renamed (renamed_id pairs) l) }
{}

/// The keys of two items are equal exactly where the items are of one kind, and each member that tells items of that
/// kind apart is the same in both, or absent in both.
pub fn keys_tell_kinds_and_members()
    ensures { (k l : Kind) (x y : Id) (ms ns : Members) → payload_members x ≡ Some ms → payload_members y ≡ Some ns
        → (key_of k x ≡ key_of l y) ↔ ((k ≡ l) × ((name : Id) → has name (telling k) ≡ true
        → get_member name ms ≡ get_member name ns)) }
{}
