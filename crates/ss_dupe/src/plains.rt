//! The sides of a merge, read out.

ghost use Rattle.std.specs.Prelude.{◌≡◌, IfOk, OnOk, bytes_eq};
ghost use Rattle.std.specs.HashSet.{contains_by};
ghost use Rattle.ss_record.specs.Ids.{has};
ghost use Rattle.ss_tree.specs.Trees.{IsValidTree};
ghost use Rattle.ss_tree.specs.Entries.{tree};
ghost use Rattle.ss_dupe.specs.Looks.{Id as Text};
ghost use Rattle.ss_dupe.specs.Sides.{sides_asked, is_new, tree_of, deleted_on, other};
ghost use Rattle.ss_dupe.specs.Plains.{AreIds, look_of, view};
ghost use Rattle.ss_dupe.specs.Shapes.{HaveShapes};

use crate::plain::PlainTree;
use crate::sides::Side;
use ss_seed::Seed;
use ss_text::{Id, Ids};
use ss_tree::Sides;
use std::alloc::{AllocError, Global};
use std::collections::HashSet;

/// The sides of a merge, read out.
#[derive(Drop)]
pub struct Plains<'a> {
    pub mirror: PlainTree<'a>,
    pub local: PlainTree<'a>,
    pub remote: PlainTree<'a>,
    pub local_dead: HashSet<Id, Seed>,
    pub remote_dead: HashSet<Id, Seed>,
}

/// The set of some ids.
#[tactic(auto, unfolding(ss_record::specs::Ids::has))]
fn set_of(alloc: Global, ids: &Ids) -> Result<HashSet<Id, Seed>, AllocError>
    ensures { IfOk result (λ set. (x : Text) → contains_by (bytes_eq x) set ≡ has x ids.now) }
{
    let mut set = HashSet::with_hasher(alloc, Seed::random());
    for id in ids.as_slice() {
        set.insert(id.copy(alloc)?)?;
    }
    Ok(set)
}

impl<'a> Plains<'a> {
    /// Reads the trees out.
    pub fn read(alloc: Global, sides: &Sides<'a>) -> Result<Plains<'a>, AllocError>
        ensures same { IfOk result (λ p. view p ≡ sides_asked sides.now) }
        ensures local_ids { IfOk result (λ p. AreIds p.local) }
        ensures remote_ids { IfOk result (λ p. AreIds p.remote) }
        ensures local_tree { OnOk result (IsValidTree (tree sides.now.local.now)) }
        ensures remote_tree { OnOk result (IsValidTree (tree sides.now.remote.now)) }
        ensures shaped { IfOk result (λ p. HaveShapes (view p)) }
    {
        Ok(Plains {
            mirror: PlainTree::read(alloc, sides.mirror)?,
            local: PlainTree::read(alloc, sides.local)?,
            remote: PlainTree::read(alloc, sides.remote)?,
            local_dead: set_of(alloc, sides.local_dead)?,
            remote_dead: set_of(alloc, sides.remote_dead)?,
        })
    }

    /// The seed of what is made for these sides.
    pub fn seed(&self) -> Seed {
        *self.local.seats.hasher()
    }

    /// A side's tree.
    pub fn of(&self, side: Side) -> &PlainTree<'a>
        ensures { look_of result.now ≡ tree_of (view self.now) side }
    {
        match side {
            Side::Local => &self.local,
            Side::Remote => &self.remote,
        }
    }

    /// Whether an item was deleted on a side.
    pub fn is_deleted(&self, side: Side, id: &Id) -> bool
        ensures { result ≡ deleted_on (view self.now) side id.now }
    {
        match side {
            Side::Local => self.local_dead.contains(id),
            Side::Remote => {
                self.remote_dead.contains(id) || (self.mirror.has(id) && !self.remote.has(id))
            }
        }
    }

    /// Whether an item is new on a side.
    #[tactic(auto, unfolding(crate::specs::Sides::is_new))]
    pub fn is_new(&self, side: Side, id: &Id) -> bool
        ensures { result ≡ is_new (view self.now) side id.now }
    {
        self.of(side).has(id)
            && !self.mirror.has(id)
            && !self.of(side.other()).has(id)
            && !self.is_deleted(side.other(), id)
    }
}
