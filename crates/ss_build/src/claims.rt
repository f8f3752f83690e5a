//! Items with the places that their records claim.

ghost use Rattle.std.specs.Prelude.{◌≡◌, ◌++◌, ◌∷◌, [], true, filter_map, if◌then◌else◌, IfOk, OnOk};
ghost use Rattle.std.specs.Option.{option_to_list};
ghost use Rattle.ss_record.specs.Ids.{Apart, has};
ghost use Rattle.ss_text.specs.Names.{is_id};
ghost use Rattle.ss_build.specs.Rows.{claim_of};
ghost use Rattle.ss_build.specs.Built.{empty_root, ids, with_roots};

use crate::places::{Places, ids_of, place, root_words};
use crate::rows::Row;
use ss_record::{Item, Reading, Words};
use ss_text::{Id, Stamp, Word};
use std::alloc::{AllocError, Global};

/// An item with the parent and the children that its record names, and its time in hundredths of a second.
#[derive(Drop, Debug)]
pub struct Claim {
    pub item: Item,
    pub parentid: Option<Word>,
    pub children: Words,
    pub time: Stamp,
}

fn copy_parentid(alloc: Global, parentid: &Option<Word>) -> Result<Option<Word>, AllocError>
    ensures { IfOk result (λ copied. copied ≡ parentid.now) }
{
    match parentid {
        Some(id) => Ok(Some(id.copy(alloc)?)),
        None => Ok(None),
    }
}

/// The item of a row, with the place that its record claims.
#[tactic(auto, unfolding(crate::specs::Rows::claim_of))]
fn claim_of(alloc: Global, row: &Row) -> Result<Option<Claim>, AllocError>
    ensures { IfOk result (λ claim. claim ≡ claim_of row.now) }
{
    match &row.reading {
        Reading::Item {
            item,
            parentid,
            children,
        } => Ok(Some(Claim {
            item: item.copy(alloc)?,
            parentid: copy_parentid(alloc, parentid)?,
            children: children.copy(alloc)?,
            time: row.time,
        })),
        Reading::Tombstone => Ok(None),
        Reading::Skipped => Ok(None),
    }
}

/// Appends an item where there is one.
fn push_some(claims: &mut Vec<Claim>, claim: Option<Claim>) -> Result<(), AllocError>
    ensures { OnOk result (claims.new.items ≡ claims.old.items ++ option_to_list claim) }
{
    match claim {
        Some(claim) => {
            claims.push(claim)?;
            Ok(())
        }
        None => Ok(()),
    }
}

/// The items of the rows.
pub(crate) fn claims_of(alloc: Global, rows: &[Row]) -> Result<Vec<Claim>, AllocError>
    ensures { IfOk result (λ claims. claims.items ≡ filter_map claim_of rows.now) }
{
    let mut claims = Vec::with_capacity(alloc, rows.len())?;
    for row in rows {
        push_some(&mut claims, claim_of(alloc, row)?)?;
    }
    Ok(claims)
}

/// An empty root that claims nothing.
fn empty_root(alloc: Global, root: &Word) -> Result<Claim, AllocError>
    requires { is_id root.now ≡ true }
    ensures { IfOk result (λ claim. claim ≡ empty_root root.now) }
{
    let Some(id) = Id::new(alloc, root.as_str().as_bytes())? else {
        unreachable!();
    };
    Ok(Claim {
        item: Item::empty_folder(alloc, id)?,
        parentid: None,
        children: Words::new(Vec::new(alloc)),
        time: Stamp::clamp(0),
    })
}

/// Appends a root, empty, where it isn't among the ids that were read.
fn add_root(
    alloc: Global,
    claims: &mut Vec<Claim>,
    read: &Places,
    root: &Word,
) -> Result<(), AllocError>
    requires { is_id root.now ≡ true }
    ensures { OnOk result (claims.new.items ≡ (if has root.now read.now.keys then claims.old.items else claims.old.items ++ empty_root root.now ∷ [])) }
{
    if place(read, root) < read.len() {
        return Ok(());
    }
    claims.push(empty_root(alloc, root)?)?;
    Ok(())
}

/// The items with each root that is not among them.
pub(crate) fn add_roots(alloc: Global, mut claims: Vec<Claim>) -> Result<Vec<Claim>, AllocError>
    requires { Apart (ids claims.items) }
    ensures { IfOk result (λ all. all.items ≡ with_roots claims.items) }
{
    let read = ids_of(alloc, &claims)?;
    let roots = root_words(alloc)?;
    for root in &roots {
        add_root(alloc, &mut claims, &read, root)?;
    }
    Ok(claims)
}
