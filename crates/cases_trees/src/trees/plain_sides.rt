//! The plain slow program: the rules of merging, one item at a time, over small numbers.

use crate::trees::chances::{Dice, MENU, PLACES, TOOLBAR, UNFILED, is_root, name};
use crate::trees::listing::listed;
use std::alloc::{AllocError, Global};

/// How many names there are.
pub const NAMES: u8 = 13;

/// No number of a name.
const NONE: u8 = 255;

/// An item of a tree; siblings stand in their order in the list of items.
#[derive(Clone, Copy, PartialEq, Eq)]
pub struct Raw {
    pub id: u8,
    pub folder: bool,
    /// 0 where it has none.
    pub title: u8,
    pub parent: u8,
    pub time: u8,
}

/// The trees of a merge, without the roots, and the deleted ids.
#[derive(Drop)]
pub struct Raws {
    pub mirror: Vec<Raw>,
    pub local: Vec<Raw>,
    pub remote: Vec<Raw>,
    pub local_dead: Vec<u8>,
    pub remote_dead: Vec<u8>,
}

/// The item of an id; the four roots are in each tree.
fn find(tree: &[Raw], id: u8) -> Option<Raw> {
    if is_root(id) {
        return Some(Raw {
            id,
            folder: true,
            title: 0,
            parent: PLACES,
            time: 0,
        });
    }
    for raw in tree {
        if raw.id == id {
            return Some(*raw);
        }
    }
    None
}

fn has(tree: &[Raw], id: u8) -> bool {
    find(tree, id).is_some()
}

fn children(alloc: Global, tree: &[Raw], parent: u8) -> Result<Vec<u8>, AllocError> {
    let mut ids = Vec::new(alloc);
    for raw in tree {
        if raw.parent == parent {
            ids.push(raw.id)?;
        }
    }
    Ok(ids)
}

impl Raws {
    fn dead_locally(&self, id: u8) -> bool {
        self.local_dead.contains(&id)
    }

    fn dead_remotely(&self, id: u8) -> bool {
        self.remote_dead.contains(&id) || (has(&self.mirror, id) && !has(&self.remote, id))
    }

    fn is_new_locally(&self, id: u8) -> bool {
        has(&self.local, id)
            && !has(&self.mirror, id)
            && !has(&self.remote, id)
            && !self.dead_remotely(id)
    }

    fn is_new_remotely(&self, id: u8) -> bool {
        has(&self.remote, id)
            && !has(&self.mirror, id)
            && !has(&self.local, id)
            && !self.dead_locally(id)
    }
}

/// How many earlier siblings are new and of the kind and title of an item.
fn rank(raws: &Raws, local: bool, item: Raw) -> u32 {
    let tree = if local { &raws.local } else { &raws.remote };
    let mut rank = 0u32;
    for raw in tree {
        if raw.id == item.id {
            return rank;
        }
        let new = if local {
            raws.is_new_locally(raw.id)
        } else {
            raws.is_new_remotely(raw.id)
        };
        if new
            && raw.parent == item.parent
            && raw.folder == item.folder
            && raw.title == item.title
        {
            rank = rank.wrapping_add(1);
        }
    }
    rank
}

fn is_pair(raws: &Raws, pairs: &[(u8, u8)], local: Raw, remote: Raw) -> bool {
    raws.is_new_locally(local.id)
        && raws.is_new_remotely(remote.id)
        && local.folder == remote.folder
        && local.title == remote.title
        && (local.parent == remote.parent || pairs.contains(&(local.parent, remote.parent)))
        && rank(raws, true, local) == rank(raws, false, remote)
}

/// The pairs, by local id.
fn pairs_of(alloc: Global, raws: &Raws) -> Result<Vec<(u8, u8)>, AllocError> {
    let mut pairs = Vec::new(alloc);
    for _round in 0..NAMES {
        let mut found = Vec::new(alloc);
        for id in 0..NAMES {
            if let Some(local) = find(&raws.local, id) {
                for remote in &raws.remote {
                    if is_pair(raws, &pairs, local, *remote) {
                        found.push((id, remote.id))?;
                    }
                }
            }
        }
        pairs = found;
    }
    Ok(pairs)
}

fn named(pairs: &[(u8, u8)], id: u8) -> u8 {
    for pair in pairs {
        if pair.0 == id {
            return pair.1;
        }
    }
    id
}

fn renamed(alloc: Global, tree: &[Raw], pairs: &[(u8, u8)]) -> Result<Vec<Raw>, AllocError> {
    let mut other = Vec::new(alloc);
    for raw in tree {
        other.push(Raw {
            id: named(pairs, raw.id),
            parent: named(pairs, raw.parent),
            ..*raw
        })?;
    }
    Ok(other)
}

/// What is compared with the mirror.
#[derive(Clone, Copy, PartialEq, Eq)]
enum Facet {
    Content,
    Parent,
    Children,
}

fn differs(
    alloc: Global,
    raws: &Raws,
    facet: Facet,
    tree: &[Raw],
    id: u8,
) -> Result<bool, AllocError> {
    let (Some(now), Some(old)) = (find(tree, id), find(&raws.mirror, id)) else {
        return Ok(true);
    };
    Ok(match facet {
        Facet::Content => now.folder != old.folder || now.title != old.title,
        Facet::Parent => now.parent != old.parent,
        Facet::Children => {
            children(alloc, tree, id)?.as_slice() != children(alloc, &raws.mirror, id)?.as_slice()
        }
    })
}

/// 0 for the local side, 1 for the remote one, 2 where neither differs.
fn taken(alloc: Global, raws: &Raws, facet: Facet, id: u8) -> Result<u8, AllocError> {
    let (Some(local), Some(remote)) = (find(&raws.local, id), find(&raws.remote, id)) else {
        return Ok(if has(&raws.remote, id) { 1 } else { 0 });
    };
    let by_local = differs(alloc, raws, facet, &raws.local, id)?;
    let by_remote = differs(alloc, raws, facet, &raws.remote, id)?;
    Ok(match (by_local, by_remote) {
        (true, true) => { if local.time > remote.time { 0 } else { 1 } }
        (true, false) => 0,
        (false, true) => 1,
        (false, false) => 2,
    })
}

fn tree_on(raws: &Raws, side: u8) -> &[Raw] {
    if side == 1 { &raws.remote } else { &raws.local }
}

fn stays(alloc: Global, raws: &Raws, tree: &[Raw], id: u8, dead: bool) -> Result<bool, AllocError> {
    if !dead {
        return Ok(true);
    }
    let folder = match find(tree, id) {
        Some(raw) => raw.folder,
        None => true,
    };
    Ok(
        !folder
            && (differs(alloc, raws, Facet::Content, tree, id)?
                || differs(alloc, raws, Facet::Parent, tree, id)?),
    )
}

fn survives(alloc: Global, raws: &Raws, id: u8) -> Result<bool, AllocError> {
    if is_root(id) {
        return Ok(true);
    }
    match (has(&raws.local, id), has(&raws.remote, id)) {
        (true, true) => Ok(true),
        (true, false) => stays(alloc, raws, &raws.local, id, raws.dead_remotely(id)),
        (false, true) => stays(alloc, raws, &raws.remote, id, raws.dead_locally(id)),
        (false, false) => Ok(false),
    }
}

/// The item with the taken kind and title.
fn content(alloc: Global, raws: &Raws, id: u8) -> Result<Option<Raw>, AllocError> {
    Ok(find(tree_on(raws, taken(alloc, raws, Facet::Content, id)?), id))
}

fn is_folder(alloc: Global, raws: &Raws, id: u8) -> Result<bool, AllocError> {
    if !survives(alloc, raws, id)? {
        return Ok(false);
    }
    Ok(match content(alloc, raws, id)? {
        Some(raw) => raw.folder,
        None => false,
    })
}

/// The nearest ancestor that survives as a folder.
fn nearest(alloc: Global, raws: &Raws, tree: &[Raw], id: u8) -> Result<u8, AllocError> {
    let mut at = id;
    for _step in 0..NAMES {
        at = match find(tree, at) {
            Some(raw) => raw.parent,
            None => return Ok(NONE),
        };
        if is_folder(alloc, raws, at)? {
            return Ok(at);
        }
    }
    Ok(NONE)
}

fn chosen(alloc: Global, raws: &Raws, id: u8) -> Result<u8, AllocError> {
    nearest(
        alloc,
        raws,
        tree_on(raws, taken(alloc, raws, Facet::Parent, id)?),
        id,
    )
}

fn parent(alloc: Global, raws: &Raws, id: u8) -> Result<u8, AllocError> {
    let mut at = id;
    for _step in 0..NAMES {
        if is_root(at) {
            return chosen(alloc, raws, id);
        }
        at = chosen(alloc, raws, at)?;
    }
    let tree = if has(&raws.remote, id) {
        &raws.remote
    } else {
        &raws.local
    };
    nearest(alloc, raws, tree, id)
}

fn is_child(alloc: Global, raws: &Raws, folder: u8, id: u8) -> Result<bool, AllocError> {
    Ok(!is_root(id) && survives(alloc, raws, id)? && parent(alloc, raws, id)? == folder)
}

fn push_children(
    alloc: Global,
    raws: &Raws,
    folder: u8,
    from: &[u8],
    ids: &mut Vec<u8>,
) -> Result<(), AllocError> {
    for id in from {
        if !ids.contains(id) && is_child(alloc, raws, folder, *id)? {
            ids.push(*id)?;
        }
    }
    Ok(())
}

/// The children of a folder in their order.
fn ordered(alloc: Global, raws: &Raws, folder: u8) -> Result<Vec<u8>, AllocError> {
    let side = taken(alloc, raws, Facet::Children, folder)?;
    let (first, second) = if side == 1 {
        (&raws.remote, &raws.local)
    } else {
        (&raws.local, &raws.remote)
    };
    let mut ids = Vec::new(alloc);
    push_children(
        alloc,
        raws,
        folder,
        &children(alloc, first, folder)?,
        &mut ids,
    )?;
    push_children(
        alloc,
        raws,
        folder,
        &children(alloc, second, folder)?,
        &mut ids,
    )?;
    for id in 0..NAMES {
        push_children(alloc, raws, folder, &[id], &mut ids)?;
    }
    Ok(ids)
}

/// The name of an item's parent.
fn parent_name(alloc: Global, raws: &Raws, id: u8) -> Result<&'static str, AllocError> {
    if is_root(id) {
        return Ok(name(PLACES));
    }
    Ok(name(parent(alloc, raws, id)?))
}

/// The taken title; 0 where there is none.
fn title(alloc: Global, raws: &Raws, id: u8) -> Result<u8, AllocError> {
    match content(alloc, raws, id)? {
        Some(raw) => Ok(raw.title),
        None => Ok(0),
    }
}

/// The side of an item's content.
fn side(alloc: Global, raws: &Raws, id: u8) -> Result<&'static str, AllocError> {
    match taken(alloc, raws, Facet::Content, id)? {
        0 => Ok("local"),
        1 => Ok("remote"),
        _ => Ok("same"),
    }
}

/// The names of ids, each behind a blank.
fn push_names(ids: &[u8], line: &mut String) -> Result<(), AllocError> {
    for id in ids {
        line.push(' ')?;
        line.push_str(name(*id))?;
    }
    Ok(())
}

/// An item with its title, its parent, the side of its content, and its children.
fn push_item(alloc: Global, raws: &Raws, id: u8, line: &mut String) -> Result<(), AllocError> {
    let above = parent_name(alloc, raws, id)?;
    let title = title(alloc, raws, id)?;
    let side = side(alloc, raws, id)?;
    line.push_str(format!(in alloc; "{}={title}<{above} {side}:", name(id))?.as_str())?;
    push_names(&ordered(alloc, raws, id)?, line)?;
    line.push_str(", ")
}

/// The pairs, each as `local=remote`.
fn renamed_text(alloc: Global, pairs: &[(u8, u8)]) -> Result<String, AllocError> {
    let mut texts = Vec::new(alloc);
    for (local, remote) in pairs {
        texts.push(format!(in alloc; "{}={}", name(*local), name(*remote))?)?;
    }
    listed(alloc, "renamed", &texts)
}

/// The items that survive, in the order of the names.
fn items_text(alloc: Global, raws: &Raws) -> Result<String, AllocError> {
    let mut line = String::new(alloc);
    for id in 0..NAMES {
        if survives(alloc, raws, id)? {
            push_item(alloc, raws, id, &mut line)?;
        }
    }
    Ok(line)
}

/// The remote items that don't survive, in the order of the names.
fn gone_text(alloc: Global, raws: &Raws) -> Result<String, AllocError> {
    let mut gone = Vec::new(alloc);
    for id in 0..NAMES {
        if has(&raws.remote, id) && !survives(alloc, raws, id)? {
            gone.push(String::from_str(alloc, name(id))?)?;
        }
    }
    listed(alloc, "gone", &gone)
}

/// The merged tree item by item in the order of the names, what is gone, and what was renamed. The local items take the
/// names of their pairs.
pub fn shown_by_rules(alloc: Global, raws: &mut Raws) -> Result<String, AllocError> {
    let pairs = pairs_of(alloc, raws)?;
    raws.local = renamed(alloc, &raws.local, &pairs)?;
    let items = items_text(alloc, raws)?;
    let gone = gone_text(alloc, raws)?;
    let renamed = renamed_text(alloc, &pairs)?;
    format!(in alloc; "{items}{gone}, {renamed}")
}

/// A folder that is there, or a root.
fn random_parent(dice: &mut Dice, tree: &[Raw]) -> u8 {
    for raw in tree {
        if raw.folder && dice.below(2) == 0 {
            return raw.id;
        }
    }
    match dice.below(3) {
        0 => TOOLBAR,
        1 => UNFILED,
        _ => MENU,
    }
}

/// A tree of some of the ids from a first one on, each under a root or under an earlier folder; mostly an item has
/// one kind.
fn random_tree(
    alloc: Global,
    dice: &mut Dice,
    first: u8,
    last: u8,
) -> Result<Vec<Raw>, AllocError> {
    let mut tree = Vec::new(alloc);
    let start = dice.below(8);
    for step in 0..8u8 {
        let id = ((u16::from(step) * 3 + u16::from(start)) % 8) as u8;
        if first <= id && id <= last && dice.below(5) > 0 {
            let odd = dice.below(8) == 0;
            let parent = random_parent(dice, &tree);
            tree.push(Raw {
                id,
                folder: (id % 2 == 0) != odd,
                title: dice.below(2),
                parent,
                time: dice.below(3),
            })?;
        }
    }
    Ok(tree)
}

fn random_dead(alloc: Global, dice: &mut Dice) -> Result<Vec<u8>, AllocError> {
    let mut ids = Vec::new(alloc);
    for id in 0..8u8 {
        if dice.below(4) == 0 {
            ids.push(id)?;
        }
    }
    Ok(ids)
}

/// Three trees: the mirror often has few ids, so that there are new ones on both sides.
pub fn random_raws(alloc: Global, dice: &mut Dice) -> Result<Raws, AllocError> {
    let first = dice.below(8);
    let mirror = random_tree(alloc, dice, first, 4)?;
    let local = random_tree(alloc, dice, 0, 5)?;
    let remote = random_tree(alloc, dice, 2, 7)?;
    Ok(Raws {
        mirror,
        local,
        remote,
        local_dead: random_dead(alloc, dice)?,
        remote_dead: random_dead(alloc, dice)?,
    })
}
