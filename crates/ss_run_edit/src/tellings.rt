//! What `merge` tells of a merge.

ghost use Rattle.std.specs.Prelude.{◌≡◌, ◌++◌, true, IfOk, IfSome, OnOk, option_and_then};
ghost use Rattle.std.specs.List.{flat_map};
ghost use Rattle.ss_tree.specs.Entries.{IsTree, above, is_live, node_of, tree as by_ids};
ghost use Rattle.ss_tree.specs.Trees.{parent_in};
ghost use Rattle.ss_device.specs.Writing.{quoted_string};
ghost use Rattle.ss_run_edit.specs.Tellings.{gone_line, merge_text, origin_text, plan_line, renamed_line, told_line};

use itoa::Buffer;
use ss_merge::{Merged, Origin};
use ss_record::is_root;
use ss_text::{Id, push_json_text};
use ss_tree::{Node, Tree};
use std::alloc::{AllocError, Global};

fn origin_text(from: Origin) -> &'static [u8]
    ensures { result.now ≡ origin_text from }
{
    match from {
        Origin::Local => b"local",
        Origin::Remote => b"remote",
        Origin::Same => b"same",
    }
}

/// The node above the one of an id.
fn above_of(tree: &Tree, id: &Id) -> Option<Node>
    ensures node { result ≡ option_and_then (above tree.now) (node_of id.now tree.now) }
    ensures live { IfSome result (λ k. is_live k tree.now ≡ true) }
    ensures kept { IsTree tree.now }
{
    match tree.find(id) {
        Some(node) => tree.parent(node),
        None => None,
    }
}

/// Appends the id of an item's parent as a string; that of `places` where there is none.
fn push_parent(out: &mut Vec<u8>, tree: &Tree, id: &Id) -> Result<(), AllocError>
    ensures { OnOk result (out.new.items ≡ out.old.items ++ quoted_string (parent_in (by_ids tree.now) id.now)) }
{
    match above_of(tree, id) {
        Some(above) => push_json_text(out, tree.item(above).id().as_str()),
        None => push_json_text(out, "places"),
    }
}

/// Appends the line of an item; a root has none.
#[tactic(auto, unfolding(crate::specs::Tellings::told_line, crate::specs::Tellings::item_line))]
fn push_told(out: &mut Vec<u8>, tree: &Tree, id: &Id, from: Origin) -> Result<(), AllocError>
    ensures { OnOk result (out.new.items ≡ out.old.items ++ told_line (by_ids tree.now) (id.now, from)) }
{
    if is_root(id) {
        return Ok(());
    }
    out.extend_from_slice(b"[\"item\",")?;
    push_parent(out, tree, id)?;
    out.extend_from_slice(b",")?;
    push_json_text(out, id.as_str())?;
    out.extend_from_slice(b",\"")?;
    out.extend_from_slice(origin_text(from))?;
    out.extend_from_slice(b"\"]\n")?;
    Ok(())
}

/// Appends the line of a pair.
#[tactic(auto, unfolding(crate::specs::Tellings::renamed_line))]
fn push_renamed(out: &mut Vec<u8>, local: &Id, remote: &Id) -> Result<(), AllocError>
    ensures { OnOk result (out.new.items ≡ out.old.items ++ renamed_line (local.now, remote.now)) }
{
    out.extend_from_slice(b"[\"renamed\",")?;
    push_json_text(out, local.as_str())?;
    out.extend_from_slice(b",")?;
    push_json_text(out, remote.as_str())?;
    out.extend_from_slice(b"]\n")?;
    Ok(())
}

/// Appends the line of an item that is gone.
#[tactic(auto, unfolding(crate::specs::Tellings::gone_line))]
fn push_gone(out: &mut Vec<u8>, id: &Id) -> Result<(), AllocError>
    ensures { OnOk result (out.new.items ≡ out.old.items ++ gone_line id.now) }
{
    out.extend_from_slice(b"[\"gone\",")?;
    push_json_text(out, id.as_str())?;
    out.extend_from_slice(b"]\n")?;
    Ok(())
}

/// Appends the line of a plan.
#[tactic(auto, unfolding(crate::specs::Tellings::plan_line))]
fn push_plan(out: &mut Vec<u8>, count: usize) -> Result<(), AllocError>
    ensures { OnOk result (out.new.items ≡ out.old.items ++ plan_line count) }
{
    let mut buffer = Buffer::new();
    out.extend_from_slice(b"[\"plan\",")?;
    out.extend_from_slice(buffer.format(count as u64).as_bytes())?;
    out.extend_from_slice(b"]\n")?;
    Ok(())
}

fn push_items(out: &mut Vec<u8>, tree: &Tree, from: &[(Id, Origin)]) -> Result<(), AllocError>
    ensures { OnOk result (out.new.items ≡ out.old.items ++ flat_map (told_line (by_ids tree.now)) from.now) }
{
    for (id, origin) in from {
        push_told(out, tree, id, *origin)?;
    }
    Ok(())
}

fn push_pairs(out: &mut Vec<u8>, pairs: &[(Id, Id)]) -> Result<(), AllocError>
    ensures { OnOk result (out.new.items ≡ out.old.items ++ flat_map renamed_line pairs.now) }
{
    for (local, remote) in pairs {
        push_renamed(out, local, remote)?;
    }
    Ok(())
}

fn push_all_gone(out: &mut Vec<u8>, ids: &[Id]) -> Result<(), AllocError>
    ensures { OnOk result (out.new.items ≡ out.old.items ++ flat_map gone_line ids.now) }
{
    for id in ids {
        push_gone(out, id)?;
    }
    Ok(())
}

/// What is told of a merge whose upload would have so many parts.
#[tactic(auto, unfolding(crate::specs::Tellings::merge_text, ss_device::specs::Writing::end_line))]
pub(crate) fn merge_text(
    alloc: Global,
    merged: &Merged,
    parts: usize,
) -> Result<Vec<u8>, AllocError>
    ensures { IfOk result (λ out. out.items ≡ merge_text (by_ids merged.now.tree) merged.now.from.items
        merged.now.renamed.items merged.now.gone parts) }
{
    let mut out = Vec::new(alloc);
    push_items(&mut out, &merged.tree, &merged.from)?;
    push_pairs(&mut out, &merged.renamed)?;
    push_all_gone(&mut out, merged.gone.as_slice())?;
    push_plan(&mut out, parts)?;
    out.extend_from_slice(b"[\"end\"]\n")?;
    Ok(out)
}
