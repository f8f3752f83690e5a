//! The device that lines tell.

ghost use Rattle.std.specs.Prelude.{◌≡◌, None, true, IfOk, IfErr, OnOk};
ghost use Rattle.ss_tree.specs.Entries.{tree as tree_of};
ghost use Rattle.ss_device.specs.Device.{AreById, dead_ids, row_ids};
ghost use Rattle.ss_device_file.specs.Files.{TellsDevice, IsUnseatedBy, kept_rows};
ghost use Rattle.ss_device_file.specs.Joining.{HasRoots, IsLostBy, lost_of, synced_with};
ghost use Rattle.ss_device_file.specs.Lines.{AreLines, is_ended};

use crate::faults::DeviceFault;
use crate::grammar::version_in;
use crate::known::lost;
use crate::lines::{Line, Version};
use crate::parts::{Parts, apart, as_map, kept_rows, stamp_in};
use crate::plants::plant;
use crate::walk::check_places;
use ss_device::Device;
use ss_record::Sheet;
use ss_text::{Id, Stamp};
use ss_tree::Tree;
use std::alloc::Global;
use std::collections::BTreeMap;

/// The device of these parts, unless it has lost an item of its mirror.
fn join(
    alloc: Global,
    tree: Tree,
    dead: BTreeMap<Id, Stamp>,
    mirror: Vec<Sheet>,
    stamp: Stamp,
) -> Result<Device, DeviceFault>
    requires deaths { AreById (dead_ids dead.entries) }
    requires by_id { AreById (row_ids mirror.items) }
    requires tree { HasRoots (tree_of tree) }
    ensures joined { IfOk result (λ d. d ≡ record {
      tree = tree;
      dead = dead.entries;
      mirror = mirror.items;
      stamp =
          stamp;
    }) }
    ensures found { OnOk result (lost_of mirror.items (tree_of tree) dead.entries ≡ None) }
    ensures lost { IfErr result (λ fault. IsLostBy (lost_of mirror.items (tree_of tree) dead.entries) fault) }
{
    match lost(alloc, &tree, &dead, &mirror)? {
        Some(id) => Err(DeviceFault::BadTree { id }),
        None => Ok(Device::restored(tree, dead, mirror, stamp)),
    }
}

/// The device of lines that are apart, whose items have this tree.
fn put_together(
    alloc: Global,
    version: Version,
    stamp: Stamp,
    rows: Vec<Sheet>,
    deaths: Vec<(Id, Stamp)>,
    tree: Tree,
) -> Result<Device, DeviceFault>
    requires rows { AreById (row_ids rows.items) }
    requires deaths { AreById (dead_ids deaths.items) }
    requires tree { HasRoots (tree_of tree) }
    ensures joined { IfOk result (λ d. d ≡ record {
      tree = tree;
      dead = deaths.items;
      mirror = kept_rows version
          rows.items;
      stamp = synced_with version rows.items stamp;
    }) }
    ensures found { OnOk result (lost_of (kept_rows version rows.items) (tree_of tree) deaths.items ≡ None) }
    ensures lost { IfErr result (λ fault. IsLostBy (lost_of (kept_rows version rows.items) (tree_of tree) deaths.items)
        fault) }
{
    let count = rows.len();
    let dead = as_map(alloc, deaths)?;
    let mirror = kept_rows(version, rows);
    let stamp = if mirror.len() == count {
        stamp
    } else {
        Stamp::clamp(0)
    };
    join(alloc, tree, dead, mirror, stamp)
}

/// The device that the lines of a whole file tell.
pub fn device_of(alloc: Global, lines: Vec<Line>) -> Result<Device, DeviceFault>
    requires lines { AreLines lines.items }
    requires ended { is_ended lines.items ≡ true }
    ensures told { IfOk result (λ d. TellsDevice lines.items d) }
    ensures unseated { IfErr result (λ fault. IsUnseatedBy lines.items fault) }
{
    let version = version_in(&lines);
    let stamp = stamp_in(&lines);
    let Parts {
        rows,
        items,
        deaths,
    } = apart(alloc, lines)?;
    check_places(alloc, &items)?;
    let tree = plant(alloc, &items)?;
    put_together(alloc, version, stamp, rows, deaths, tree)
}
