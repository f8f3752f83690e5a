//! What merging leaves alone.

ghost use Rattle.std.specs.Prelude.{List};
ghost use Rattle.ss_tree.specs.declared.entries.Entry.{Entry};
ghost use Rattle.ss_tree.specs.Trees.{IsValidTree, PlacedItem};
ghost use Rattle.ss_tree.specs.Entries.{IsTree, tree};
ghost use Rattle.ss_dupe.specs.Looks.{Id};
ghost use Rattle.ss_sync.specs.Equal.{IsMergeOf, IsUntimed};

/// Where the mirror and the server's tree are one, a device's tree that is that tree with all its times 0 is what merging
/// makes of them, whatever was deleted.
pub fn one_tree_is_left_alone()
    ensures { (local : List Entry) (remote : List PlacedItem) (lost gone : List Id) → IsTree local → IsValidTree remote
        → IsUntimed (tree local) remote → IsMergeOf remote (tree local) remote lost gone local }
{}
