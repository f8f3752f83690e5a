//! Ways from id to id, with goals on them.

ghost use Rattle.std.specs.Prelude.{◌≡◌, option_map};
ghost use Rattle.ss_dupe.specs.Looks.{is_root, parent_of};
ghost use Rattle.ss_dupe.specs.Plains.{view};
ghost use Rattle.ss_dupe.specs.Sides.{tree_of};
ghost use Rattle.ss_merge.specs.Ways.{HasShape, is_goal_on, next_on};

use crate::survivors::is_merged_folder;
use ss_dupe::{Plains, Side};
use ss_record::is_root;
use ss_seed::Seed;
use ss_text::Id;
use std::collections::HashMap;

/// A way from id to id, and the goals on it.
#[derive(Clone, Copy)]
pub(crate) enum Way<'w, 'a> {
    /// Up a side's tree, to the items that survive as folders.
    Up(&'w Plains<'a>, Side),
    /// Along chosen parents, to the roots.
    Chosen(&'w HashMap<Id, Id, Seed>),
}

/// The parent of an item in a side's tree.
#[tactic(auto, unfolding(ss_dupe::specs::Looks::at))]
fn parent_on<'p>(plains: &'p Plains<'_>, side: Side, id: &Id) -> Option<&'p Id>
    ensures { option_map (λ p. p.now) result ≡ parent_of (tree_of (view plains.now) side) id.now }
{
    match plains.of(side).get(id) {
        Some(seat) => seat.parent.as_ref(),
        None => None,
    }
}

/// The seed of the maps that a way goes by.
pub(crate) fn seed_of(way: &Way) -> Seed {
    match *way {
        Way::Up(plains, _) => plains.seed(),
        Way::Chosen(chosen) => *chosen.hasher(),
    }
}

/// The next id on a way.
pub(crate) fn next<'w>(way: &Way<'w, '_>, id: &Id) -> Option<&'w Id>
    ensures { option_map (λ p. p.now) result ≡ next_on way.now id.now }
{
    match *way {
        Way::Up(plains, side) => parent_on(plains, side, id),
        Way::Chosen(chosen) => chosen.get(id),
    }
}

/// Whether an id is a goal of a way.
#[tactic(auto, unfolding(ss_dupe::specs::Looks::is_root))]
pub(crate) fn is_goal(way: &Way, id: &Id) -> bool
    requires { HasShape way.now }
    ensures { result ≡ is_goal_on way.now id.now }
{
    match *way {
        Way::Up(plains, _) => is_merged_folder(plains, id),
        Way::Chosen(_) => is_root(id),
    }
}
