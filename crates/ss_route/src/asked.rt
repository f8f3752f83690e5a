//! Which method may be asked of which place.

ghost use Rattle.std.specs.Prelude.{◌≡◌};
ghost use Rattle.ss_route.specs.Asking.{asked_of, asked_in, allowed_methods, name_in, id_in};
ghost use Rattle.ss_route.specs.Refusals.{Settles, comma_list};

use crate::methods::{Method, not_allowed};
use crate::routed::{Stop, code};
use crate::targets::Place;
use ss_query::Info;
use ss_text::{Bytes, Id, Name};
use std::alloc::Global;

/// What may be asked of a collection.
#[derive(Clone, Copy, Debug, PartialEq, Eq)]
pub enum CollectionAct {
    List,
    Post,
    Delete,
}

/// What may be asked of an item.
#[derive(Clone, Copy, Debug, PartialEq, Eq)]
pub enum ItemAct {
    Get,
    Put,
    Delete,
}

/// What a method asks of a place.
#[derive(Drop, Debug)]
pub enum Asked {
    DeleteEverything,
    TellOf(Info),
    OfCollection(CollectionAct, Bytes),
    OfItem(ItemAct, Bytes, Bytes),
}

/// The methods that may be asked of a place.
fn allowed(place: &Place) -> &'static str
    ensures { result.now ≡ comma_list (allowed_methods place.now) }
{
    match place {
        Place::Everything => "DELETE",
        Place::About(_) => "GET",
        Place::Collection(_) => "GET, POST, DELETE",
        Place::Item(_, _) => "GET, PUT, DELETE",
    }
}

/// What a method asks of a place.
#[tactic(auto, unfolding(crate::specs::Asking::asked_in))]
pub fn asked_in(alloc: Global, place: Place, method: Method) -> Result<Asked, Stop>
    ensures { Settles result (asked_in place method) }
{
    match (place, method) {
        (Place::Everything, Method::Delete) => Ok(Asked::DeleteEverything),
        (Place::About(what), Method::Get) => Ok(Asked::TellOf(what)),
        (Place::Collection(collection), Method::Get) => {
            Ok(Asked::OfCollection(CollectionAct::List, collection))
        }
        (Place::Collection(collection), Method::Post) => {
            Ok(Asked::OfCollection(CollectionAct::Post, collection))
        }
        (Place::Collection(collection), Method::Delete) => {
            Ok(Asked::OfCollection(CollectionAct::Delete, collection))
        }
        (Place::Item(collection, id), Method::Get) => {
            Ok(Asked::OfItem(ItemAct::Get, collection, id))
        }
        (Place::Item(collection, id), Method::Put) => {
            Ok(Asked::OfItem(ItemAct::Put, collection, id))
        }
        (Place::Item(collection, id), Method::Delete) => {
            Ok(Asked::OfItem(ItemAct::Delete, collection, id))
        }
        (place, _) => Err(Stop::Refused(not_allowed(alloc, allowed(&place))?)),
    }
}

/// A collection's name.
#[tactic(auto, unfolding(crate::specs::Asking::name_in))]
pub fn name_in(alloc: Global, text: &[u8]) -> Result<Name, Stop>
    ensures { Settles result (name_in text.now) }
{
    match Name::new(alloc, text)? {
        Some(name) => Ok(name),
        None => Err(Stop::Refused(code(13))),
    }
}

/// An item's id.
#[tactic(auto, unfolding(crate::specs::Asking::id_in))]
pub fn id_in(alloc: Global, text: &[u8]) -> Result<Id, Stop>
    ensures { Settles result (id_in text.now) }
{
    match Id::new(alloc, text)? {
        Some(id) => Ok(id),
        None => Err(Stop::Refused(code(8))),
    }
}
