//! The index of ids.

ghost use Rattle.std.specs.Prelude.{◌≡◌, ℕ, List, Some, None, OnOk, OnErr, bytes_eq, if◌then◌else◌};
ghost use Rattle.std.specs.HashMap.{get};

use crate::entries::Node;
use ss_seed::Seed;
use ss_text::Id;
use std::alloc::{AllocError, Global};
use std::collections::HashMap;

/// Gives an id its node.
pub(crate) fn enter(
    alloc: Global,
    index: &mut HashMap<Id, Node, Seed>,
    id: &Id,
    node: Node,
) -> Result<(), AllocError>
    ensures entered { OnOk result ((x : List ℕ) → get bytes_eq index.new x ≡ (if bytes_eq id.now x then Some node else get bytes_eq index.old x)) }
    ensures unchanged { OnErr result ((x : List ℕ) → get bytes_eq index.new x ≡ get bytes_eq index.old x) }
{
    index.insert(id.copy(alloc)?, node)?;
    Ok(())
}

/// Takes an id out.
pub(crate) fn leave(index: &mut HashMap<Id, Node, Seed>, id: &Id)
    ensures { (x : List ℕ) → get bytes_eq index.new x ≡ (if bytes_eq id.now x then None else get bytes_eq index.old x) }
{
    index.remove(id);
}
