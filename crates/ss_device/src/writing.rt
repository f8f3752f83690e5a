//! Writing a device's file.

ghost use Rattle.std.specs.Prelude.{◌≡◌, ◌≢◌, ◌++◌, ◌==◌, ℕ, List, [], Some, true, false, IfOk, OnOk, length};
ghost use Rattle.std.specs.Prelude.{if◌then◌else◌};
ghost use Rattle.std.specs.List.{AllByRecursion, flat_map};
ghost use Rattle.ss_tree.specs.declared.entries.Entry.{Entry};
ghost use Rattle.ss_tree.specs.Entries.{IsTree, entry, is_live, kid_ids, preorder};
ghost use Rattle.ss_device.specs.Forms.{AreItems, IsDeath, HasDeviceForm, IsItem, IsRow};
ghost use Rattle.ss_device.specs.Writing.{dead_line, device_text, node_line, node_lines, row_line};

use crate::device::Device;
use crate::forms::{death_form, item_form, row_form, time_form};
use crate::lines::{push_dead, push_item, push_row, push_synced};
use ss_record::{Sheet, write_record};
use ss_text::{Id, Stamp, Word};
use ss_tree::{Node, Tree};
use std::alloc::{AllocError, Global};
use std::collections::BTreeMap;

fn push_rows(out: &mut Vec<u8>, rows: &[Sheet]) -> Result<(), AllocError>
    ensures lines { OnOk result (out.new.items ≡ out.old.items ++ flat_map row_line rows.now) }
    ensures formed { OnOk result (AllByRecursion IsRow rows.now) }
{
    for row in rows {
        row_form(row);
        push_row(out, row)?;
    }
    Ok(())
}

/// The ids under a node, in their order.
fn children_of(alloc: Global, tree: &Tree, node: Node) -> Result<Vec<Id>, AllocError>
    requires { IsTree tree.now }
    ensures { IfOk result (λ ids. ids.items ≡ kid_ids node tree.now) }
{
    let children = tree.children(alloc, node)?;
    let mut ids = Vec::with_capacity(alloc, children.len())?;
    for child in &children {
        ids.push(tree.item(*child).id().copy(alloc)?)?;
    }
    Ok(ids)
}

/// Appends the line of a node; `places` has none.
fn push_node(alloc: Global, out: &mut Vec<u8>, tree: &Tree, node: Node) -> Result<(), AllocError>
    requires live { is_live node tree.now ≡ true }
    requires kept { IsTree tree.now }
    ensures line { OnOk result (out.new.items ≡ out.old.items ++ node_line tree.now node) }
    ensures formed { OnOk result ((e : Entry) → node ≢ 0 → entry node tree.now ≡ Some e → IsItem tree.now e) }
{
    let Some(above) = tree.parent(node) else {
        return Ok(());
    };
    let children = children_of(alloc, tree, node)?;
    let item = tree.item(node);
    let record = write_record(alloc, item, tree.item(above).id(), &children)?;
    item_form(item, tree.time(node), &record);
    push_item(out, tree.time(node), &record)
}

fn push_nodes(alloc: Global, out: &mut Vec<u8>, tree: &Tree) -> Result<(), AllocError>
    ensures lines { OnOk result (out.new.items ≡ out.old.items ++ node_lines tree.now
        (preorder tree.now (length tree.now) 0)) }
    ensures valid { OnOk result (IsTree tree.now) }
    ensures formed { OnOk result (AreItems tree.now) }
{
    let nodes = tree.walk(alloc)?;
    for node in &nodes {
        push_node(alloc, out, tree, *node)?;
    }
    Ok(())
}

fn push_deaths(out: &mut Vec<u8>, dead: &BTreeMap<Id, Stamp>) -> Result<(), AllocError>
    ensures lines { OnOk result (out.new.items ≡ out.old.items ++ flat_map dead_line dead.now.entries) }
    ensures formed { OnOk result (AllByRecursion IsDeath dead.now.entries) }
{
    for (id, time) in dead.iter() {
        death_form(id, *time);
        push_dead(out, id, *time)?;
    }
    Ok(())
}

/// The bytes of a device's file, in its second version (the format is this project's). What they say of ids, times and
/// texts has its form, so that they are read as this device.
#[tactic(auto, unfolding(crate::specs::Writing::device_text, crate::specs::Writing::device_line, crate::specs::Writing::end_line))]
pub fn write_device(alloc: Global, device: &Device) -> Result<Vec<u8>, AllocError>
    ensures text { IfOk result (λ bytes. bytes.items ≡ device_text device.now) }
    ensures formed { OnOk result (HasDeviceForm device.now) }
{
    let mut out = Vec::from_slice(alloc, b"[\"device\",2]\n")?;
    time_form(device.stamp);
    push_synced(&mut out, device.stamp)?;
    push_rows(&mut out, &device.mirror)?;
    push_nodes(alloc, &mut out, &device.tree)?;
    push_deaths(&mut out, &device.dead)?;
    out.extend_from_slice(b"[\"end\"]\n")?;
    Ok(out)
}
