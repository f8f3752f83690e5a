//! The sides of a merge, read out, with the remote ids for the local items of duplicate pairs.

ghost use Rattle.std.specs.Prelude.{◌≡◌, None, IfOk, OnOk, option_map, bytes_eq, map, if◌then◌else◌};
ghost use Rattle.std.specs.HashMap.{get};
ghost use Rattle.std.specs.Map.{lookup};
ghost use Rattle.ss_record.specs.Ids.{Apart, has};
ghost use Rattle.ss_dupe.specs.Looks.{Id as Text, is_in};
ghost use Rattle.ss_dupe.specs.Pairs.{ArePairs};
ghost use Rattle.ss_dupe.specs.Plains.{AreIds, look_of, placed_at, view};
ghost use Rattle.ss_dupe.specs.Renaming.{renamed_sides, renamed_item};
ghost use Rattle.ss_dupe.specs.Shapes.{HaveShapes};
ghost use Rattle.ss_dupe.specs.Sides.{sides_asked};
ghost use Rattle.ss_merge.specs.Links.{AreNames, NamesAnew, TakesIn, by_map, look_by};

use ss_dupe::{PlainTree, Plains, Seat, pair_read};
use ss_seed::Seed;
use ss_text::Id;
use ss_tree::Sides;
use std::alloc::{AllocError, Global};
use std::collections::HashMap;

/// The remote id of each local id that is in a pair.
fn names_of(
    alloc: Global,
    seed: Seed,
    pairs: &[(Id, Id)],
) -> Result<HashMap<Id, Id, Seed>, AllocError>
    requires { Apart (map (λ p. p.0) pairs.now) }
    ensures { IfOk result (λ names. (x : Text) → get bytes_eq names x ≡ lookup (bytes_eq x) pairs.now) }
{
    let mut names = HashMap::with_hasher(alloc, seed);
    for pair in pairs {
        names.insert(pair.0.copy(alloc)?, pair.1.copy(alloc)?)?;
    }
    Ok(names)
}

/// The name that an id gets; it stays where it gets none.
fn name_of(alloc: Global, names: &HashMap<Id, Id, Seed>, id: Id) -> Result<Id, AllocError>
    ensures { IfOk result (λ name. name ≡ by_map (get bytes_eq names.now) id) }
{
    match names.get(&id) {
        Some(name) => Ok(name.copy(alloc)?),
        None => Ok(id),
    }
}

fn name_of_parent(
    alloc: Global,
    names: &HashMap<Id, Id, Seed>,
    parent: Option<Id>,
) -> Result<Option<Id>, AllocError>
    ensures { IfOk result (λ name. name ≡ option_map (by_map (get bytes_eq names.now)) parent) }
{
    match parent {
        Some(id) => Ok(Some(name_of(alloc, names, id)?)),
        None => Ok(None),
    }
}

fn names_of_all(
    alloc: Global,
    names: &HashMap<Id, Id, Seed>,
    ids: Vec<Id>,
) -> Result<Vec<Id>, AllocError>
    ensures { IfOk result (λ found. found.items ≡ map (by_map (get bytes_eq names.now)) ids.items) }
{
    let mut found = Vec::with_capacity(alloc, ids.len())?;
    for id in ids {
        found.push(name_of(alloc, names, id)?)?;
    }
    Ok(found)
}

/// An item in its place, by other names.
fn rename_seat<'a>(
    alloc: Global,
    names: &HashMap<Id, Id, Seed>,
    seat: Seat<'a>,
) -> Result<Seat<'a>, AllocError>
    ensures { IfOk result (λ named. placed_at named ≡ renamed_item (by_map (get bytes_eq names.now))
        (placed_at seat.entry)) }
{
    let Seat {
        id,
        item,
        parent,
        children,
        time,
    } = seat;
    Ok(Seat {
        id: name_of(alloc, names, id)?,
        item,
        parent: name_of_parent(alloc, names, parent)?,
        children: names_of_all(alloc, names, children)?,
        time,
    })
}

/// Moves the item of an id, where there is one, from its tree to that of other names.
fn move_seat<'a>(
    alloc: Global,
    names: &HashMap<Id, Id, Seed>,
    id: &Id,
    rest: &mut HashMap<Id, Seat<'a>, Seed>,
    named: &mut HashMap<Id, Seat<'a>, Seed>,
) -> Result<(), AllocError>
    ensures rest { OnOk result ((x : Text) → get bytes_eq rest.new x ≡
        (if bytes_eq id.now x then None else get bytes_eq rest.old x)) }
    ensures named { OnOk result (TakesIn (by_map (get bytes_eq names.now)) id.now (look_by (get bytes_eq rest.old))
        (look_by (get bytes_eq named.old)) (look_by (get bytes_eq named.new))) }
{
    match rest.remove_entry(id) {
        Some((key, seat)) => {
            let name = name_of(alloc, names, key)?;
            named.insert(name, rename_seat(alloc, names, seat)?)?;
            Ok(())
        }
        None => Ok(()),
    }
}

/// The items of some ids, which are all that there are, by other names.
fn rename_seats<'a>(
    alloc: Global,
    names: &HashMap<Id, Id, Seed>,
    seats: HashMap<Id, Seat<'a>, Seed>,
    ids: &[Id],
) -> Result<HashMap<Id, Seat<'a>, Seed>, AllocError>
    requires ids { (x : Text) → has x ids.now ≡ is_in (look_by (get bytes_eq seats)) x }
    requires names { AreNames (look_by (get bytes_eq seats)) (by_map (get bytes_eq names.now)) }
    ensures { IfOk result (λ named. NamesAnew (look_by (get bytes_eq seats.entry)) (by_map (get bytes_eq names.now))
        (look_by (get bytes_eq named))) }
{
    let mut named = HashMap::with_hasher(alloc, *seats.hasher());
    let mut rest = seats;
    for id in ids {
        move_seat(alloc, names, id, &mut rest, &mut named)?;
    }
    Ok(named)
}

/// A tree that was read out, by other names. Its items and ids are moved there; only the names are copied.
fn rename<'a>(
    alloc: Global,
    names: &HashMap<Id, Id, Seed>,
    plain: PlainTree<'a>,
) -> Result<PlainTree<'a>, AllocError>
    requires ids { AreIds plain }
    requires names { AreNames (look_of plain) (by_map (get bytes_eq names.now)) }
    ensures looks { IfOk result (λ named. NamesAnew (look_of plain.entry) (by_map (get bytes_eq names.now))
        (look_of named)) }
    ensures ids { IfOk result AreIds }
{
    let PlainTree { seats, ids } = plain;
    let seats = rename_seats(alloc, names, seats, &ids)?;
    let ids = names_of_all(alloc, names, ids)?;
    Ok(PlainTree { seats, ids })
}

/// The sides of a merge, read out, in which the local items of the duplicate pairs have the remote ids, and these
/// pairs.
#[derive(Drop)]
pub(crate) struct Paired<'a> {
    pub(crate) plains: Plains<'a>,
    pub(crate) renamed: Vec<(Id, Id)>,
}

/// Reads the trees out, once, pairs the duplicates, and gives the local items of the pairs the remote ids.
pub(crate) fn read_paired<'a>(alloc: Global, sides: &Sides<'a>) -> Result<Paired<'a>, AllocError>
    ensures renamed { IfOk result (λ p. ArePairs (sides_asked sides.now) p.renamed.items) }
    ensures same { IfOk result (λ p. view p.plains ≡ renamed_sides p.renamed.items sides.now) }
    ensures local_ids { IfOk result (λ p. AreIds p.plains.local) }
    ensures remote_ids { IfOk result (λ p. AreIds p.plains.remote) }
    ensures shaped { IfOk result (λ p. HaveShapes (view p.plains)) }
{
    let read = Plains::read(alloc, sides)?;
    let renamed = pair_read(alloc, &read)?;
    let names = names_of(alloc, read.seed(), &renamed)?;
    let Plains {
        mirror,
        local,
        remote,
        local_dead,
        remote_dead,
    } = read;
    let local = rename(alloc, &names, local)?;
    let plains = Plains {
        mirror,
        local,
        remote,
        local_dead,
        remote_dead,
    };
    Ok(Paired { plains, renamed })
}
