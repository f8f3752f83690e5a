//! A device's bookmarks, with what it remembers of its last sync.

ghost use Rattle.std.specs.Prelude.{◌≡◌, ℕ, List, [], map, IfOk, OnOk};
ghost use Rattle.ss_record.specs.Ids.{Apart};
ghost use Rattle.ss_tree.specs.Entries.{IsTree};
ghost use Rattle.ss_device.specs.Device.{AreById, IsDevice, KnowsMirrorItems, IsNew, dead_ids, row_ids};

use ss_record::Sheet;
use ss_text::{Id, Ids, Stamp};
use ss_tree::Tree;
use std::alloc::{AllocError, Global};
use std::collections::BTreeMap;
use std::marker::Model;

/// A device: its tree, whose times are those of local changes, in hundredths of a second, 0 for none; the ids that were
/// deleted since the last sync, each with its time; the rows as they stood at that sync, the mirror; and its time. Each
/// item of the tree that is built from the mirror is in the tree or among the deleted.
#[derive(Drop, Debug)]
pub struct Device {
    pub(crate) tree: Tree,
    pub(crate) dead: BTreeMap<Id, Stamp>,
    pub(crate) mirror: Vec<Sheet>,
    pub(crate) stamp: Stamp,
}

impl Model for Device {
    ghost use Rattle.ss_device.specs.Device.{DeviceView, IsDevice};

    ghost Value = { DeviceView };

    ghost view = { λ d. record { tree = d.tree; dead = d.dead.entries; mirror = d.mirror.items; stamp = d.stamp } };

    ghost invariant = { λ d. IsDevice (record { tree = d.tree; dead = d.dead.entries; mirror = d.mirror.items; stamp = d.stamp }) };
}

impl Device {
    /// A device that was never synced: the four empty roots, and nothing else.
    pub fn new(alloc: Global) -> Result<Device, AllocError>
        ensures { IfOk result IsNew }
    {
        Ok(Device {
            tree: Tree::new(alloc)?,
            dead: BTreeMap::new(alloc),
            mirror: Vec::new(alloc),
            stamp: Stamp::clamp(0),
        })
    }

    /// The device as a sync leaves it: this tree, nothing deleted, and these rows at this time.
    pub fn synced(alloc: Global, tree: Tree, mirror: Vec<Sheet>, stamp: Stamp) -> Device
        requires by_id { AreById (row_ids mirror.items) }
        requires known { KnowsMirrorItems mirror.items tree [] }
        ensures { result ≡ record { tree = tree; dead = []; mirror = mirror.items; stamp = stamp } }
    {
        Device {
            tree,
            dead: BTreeMap::new(alloc),
            mirror,
            stamp,
        }
    }

    /// The device as its file tells it: its tree; what was deleted since the last sync; and the rows and the time of
    /// that.
    pub fn restored(
        tree: Tree,
        dead: BTreeMap<Id, Stamp>,
        mirror: Vec<Sheet>,
        stamp: Stamp,
    ) -> Device
        requires deaths { AreById (dead_ids dead.entries) }
        requires by_id { AreById (row_ids mirror.items) }
        requires known { KnowsMirrorItems mirror.items tree dead.entries }
        ensures { result ≡ record { tree = tree; dead = dead.entries; mirror = mirror.items; stamp = stamp } }
    {
        Device {
            tree,
            dead,
            mirror,
            stamp,
        }
    }

    pub fn tree(&self) -> &Tree
        ensures tree { result.now ≡ self.now.tree }
        ensures device { IsDevice self.now }
    {
        &self.tree
    }

    /// The rows as they stood at the last sync, by id.
    pub fn mirror(&self) -> &[Sheet]
        ensures rows { result.now ≡ self.now.mirror }
        ensures by_id { AreById (row_ids result.now) }
        ensures apart { Apart (map (λ s. s.id) result.now) }
    {
        self.mirror.as_slice()
    }

    /// The time of the last sync; 0.00 before the first one.
    pub fn stamp(&self) -> Stamp
        ensures { result ≡ self.now.stamp }
    {
        self.stamp
    }

    /// The ids that were deleted since the last sync, by id.
    pub fn dead_ids(&self, alloc: Global) -> Result<Ids, AllocError>
        ensures { IfOk result (λ ids. ids ≡ dead_ids self.now.dead) }
    {
        let mut ids = Vec::with_capacity(alloc, self.dead.len())?;
        for (id, _) in self.dead.iter() {
            ids.push(id.copy(alloc)?)?;
        }
        Ok(Ids::new(ids))
    }
}
