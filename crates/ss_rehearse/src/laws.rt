//! What doesn't depend on the order in which the entries of a tree lie: so a rehearsal has one summary.

ghost use Rattle.std.specs.Prelude.{◌≡◌, List, ℕ, map};
ghost use Rattle.ss_record.specs.declared.readings.Sheet.{Sheet};
ghost use Rattle.ss_record.specs.Ids.{Apart};
ghost use Rattle.ss_tree.specs.declared.entries.Entry.{Entry};
ghost use Rattle.ss_tree.specs.Trees.{IsSame, IsValidTree};
ghost use Rattle.ss_tree.specs.Entries.{IsTree, tree};
ghost use Rattle.ss_device.specs.Device.{DeviceView, dead_ids};
ghost use Rattle.ss_plan.specs.Plan.{Readings, plan};
ghost use Rattle.ss_sync.specs.Joined.{IsJoinedTree};
ghost use Rattle.ss_world.specs.declared.events.Edit.{Edit};
ghost use Rattle.ss_rehearse.specs.Alike.{AreAlike, AreEditedAlike};
ghost use Rattle.ss_rehearse.specs.Rehearsals.{IsSummary};
ghost use Rattle.ss_rehearse.specs.Summaries.{summary_of};

/// An edit of devices that are told alike is refused alike, or makes of them devices that are told alike. Their trees
/// are valid, as each device's is.
pub fn devices_are_edited_alike()
    ensures { (now : ℕ) (edit : Edit) (device other : DeviceView) → IsValidTree (tree device.tree)
        → IsValidTree (tree other.tree) → AreAlike device other → AreEditedAlike now edit device other }
{}

/// What merging makes of devices that are told alike, with the same rows, is one tree, whatever trees were built of the
/// rows and whatever pairs were found on the way. No id has two rows.
pub fn devices_are_merged_alike()
    ensures { (device other : DeviceView) (rows : List Sheet) (joined again : List Entry)
        → IsValidTree (tree device.tree) → AreAlike device other → Apart (map (λ s. s.id) rows)
        → IsJoinedTree device.mirror device.tree (dead_ids device.dead) rows joined
        → IsJoinedTree other.mirror other.tree (dead_ids other.dead) rows again → IsSame (tree joined) (tree again) }
{}

/// Trees that are the same have one plan: the same parts in the same order.
pub fn trees_have_one_plan()
    ensures { (first other : List Entry) (readings : Readings) → IsTree first → IsTree other
        → IsSame (tree first) (tree other) → plan first readings ≡ plan other readings }
{}

/// Trees that are the same have one summary: what is counted of them, and whether two of them are equal.
pub fn trees_have_one_summary()
    ensures { (first second other another : List Entry) → IsTree first → IsTree second → IsTree other
        → IsTree another → IsSame (tree first) (tree other) → IsSame (tree second) (tree another)
        → summary_of first second ≡ summary_of other another }
{}

/// Two summaries of rehearsals with as many items and the same seed are equal: the words of a rehearsal have one text.
pub fn rehearsals_have_one_summary()
    ensures { (items seed : ℕ) (text other : List ℕ) → IsSummary items seed text → IsSummary items seed other
        → text ≡ other }
{}
