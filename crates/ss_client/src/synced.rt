//! What a device has after a sync.

use ss_device::Device;
use ss_record::Sheet;
use ss_text::Stamp;
use ss_tree::Tree;
use std::alloc::Global;
use std::marker::Model;

/// The merged tree, the rows as the sync leaves them, by id, and its time.
#[derive(Drop)]
pub(crate) struct Synced {
    tree: Tree,
    mirror: Vec<Sheet>,
    stamp: Stamp,
}

impl Model for Synced {
    ghost use Rattle.ss_client.specs.Leaves.{SyncedView, IsReady};

    ghost Value = { SyncedView };

    ghost view = { λ s. record { tree = s.tree; mirror = s.mirror.items; stamp = s.stamp } };

    ghost invariant = { λ s. IsReady (record { tree = s.tree; mirror = s.mirror.items; stamp = s.stamp }) };
}

impl Synced {
    ghost use Rattle.std.specs.Prelude.{◌≡◌, []};
    ghost use Rattle.ss_sync.specs.Rows.{AreById};
    ghost use Rattle.ss_device.specs.Device.{KnowsMirrorItems};

    pub(crate) fn new(tree: Tree, mirror: Vec<Sheet>, stamp: Stamp) -> Synced
        requires by_id { AreById mirror.items }
        requires known { KnowsMirrorItems mirror.items tree [] }
        ensures { result ≡ record { tree = tree; mirror = mirror.items; stamp = stamp } }
    {
        Synced {
            tree,
            mirror,
            stamp,
        }
    }

    pub(crate) fn into_device(self, alloc: Global) -> Device
        ensures { result ≡ record { tree = self.tree; dead = []; mirror = self.mirror; stamp = self.stamp } }
    {
        Device::synced(alloc, self.tree, self.mirror, self.stamp)
    }
}
