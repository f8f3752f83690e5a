//! Routing.

ghost use Rattle.std.specs.Prelude.{◌≡◌};
ghost use Rattle.ss_query.specs.Parameters.{query_of_text, ids_of_text};
ghost use Rattle.ss_route.specs.Refusals.{Settles, or_refusal, query_refusal, stop_of};
ghost use Rattle.ss_route.specs.Targets.{query_of};
ghost use Rattle.ss_route.specs.Routing.{list_request, post_request, delete_request, put_request, collection_request};
ghost use Rattle.ss_route.specs.Routing.{item_request, request_in, asking, routing_of_message, IsAnswerOfRouting};
ghost use Rattle.ss_route.specs.Routing.{AsksFit};

use crate::asked::{Asked, CollectionAct, ItemAct, asked_in, id_in, name_in};
use crate::bodies::{fields_in, is_in_lines, records_in};
use crate::conditions::condition_in;
use crate::fields::wants_lines;
use crate::manner::Manner;
use crate::methods::{Method, method_in};
use crate::posts::{announced_in, mode_in, names_batch};
use crate::routed::{Routed, Stop, code, said};
use crate::targets::{account_in, named_in, query_of};
use ss_http::Message;
use ss_query::{Query, QueryFault, Request, Said, read_ids, read_query};
use ss_text::{Cond, Id, Ids, Name};
use std::alloc::Global;

/// What a query is told that is refused.
fn query_stop(fault: QueryFault) -> Stop
    ensures { result ≡ stop_of fault }
{
    match fault {
        QueryFault::BadIds => Stop::Refused(said(400, Said::Ids)),
        QueryFault::TooManyIds { .. } => Stop::Refused(code(17)),
        QueryFault::BadStamp => Stop::Refused(said(400, Said::Stamp)),
        QueryFault::BadLimit => Stop::Refused(said(400, Said::Limit)),
        QueryFault::BadOffset => Stop::Refused(said(400, Said::Offset)),
        QueryFault::BadSort => Stop::Refused(said(400, Said::Sort)),
        QueryFault::Memory => Stop::Memory,
    }
}

fn query_in(alloc: Global, target: &[u8]) -> Result<Query, Stop>
    ensures { Settles result (or_refusal query_refusal (query_of_text (query_of target.now))) }
{
    read_query(alloc, query_of(target)).map_err(query_stop)
}

fn ids_in(alloc: Global, target: &[u8]) -> Result<Option<Ids>, Stop>
    ensures { Settles result (or_refusal query_refusal (ids_of_text (query_of target.now))) }
{
    read_ids(alloc, query_of(target)).map_err(query_stop)
}

/// A POST.
#[tactic(auto, unfolding(crate::specs::Routing::post_request))]
fn post_request(
    alloc: Global,
    collection: Name,
    cond: Cond,
    message: &Message,
) -> Result<Request, Stop>
    ensures { Settles result (post_request collection cond message.now) }
{
    let query = query_of(message.target.as_slice());
    let mode = mode_in(alloc, query)?;
    announced_in(names_batch(alloc, query)?, &message.fields)?;
    let lines = is_in_lines(true, &message.fields)?;
    let records = records_in(alloc, lines, message.body.as_slice())?;
    Ok(Request::Post {
        collection,
        records,
        mode,
        cond,
    })
}

/// A DELETE of a collection, or of the items that its query names.
#[tactic(auto, unfolding(crate::specs::Routing::delete_request))]
fn delete_request(
    alloc: Global,
    collection: Name,
    cond: Cond,
    message: &Message,
) -> Result<Request, Stop>
    ensures { Settles result (delete_request collection cond message.now) }
{
    match ids_in(alloc, message.target.as_slice())? {
        Some(ids) => Ok(Request::DeleteIds {
            collection,
            ids,
            cond,
        }),
        None => Ok(Request::DeleteCollection { collection, cond }),
    }
}

/// A GET of a collection.
#[tactic(auto, unfolding(crate::specs::Routing::list_request))]
fn list_request(
    alloc: Global,
    collection: Name,
    cond: Cond,
    message: &Message,
) -> Result<Request, Stop>
    ensures { Settles result (list_request collection cond message.now) }
{
    let query = query_in(alloc, message.target.as_slice())?;
    Ok(Request::List {
        collection,
        query,
        cond,
    })
}

/// A PUT.
#[tactic(auto, unfolding(crate::specs::Routing::put_request))]
fn put_request(
    alloc: Global,
    collection: Name,
    id: Id,
    cond: Cond,
    message: &Message,
) -> Result<Request, Stop>
    ensures { Settles result (put_request collection id cond message.now) }
{
    is_in_lines(false, &message.fields)?;
    let fields = fields_in(alloc, message.body.as_slice())?;
    Ok(Request::Put {
        collection,
        id,
        fields,
        cond,
    })
}

fn collection_request(
    alloc: Global,
    act: CollectionAct,
    collection: Name,
    cond: Cond,
    message: &Message,
) -> Result<Request, Stop>
    ensures { Settles result (collection_request act collection cond message.now) }
{
    match act {
        CollectionAct::List => list_request(alloc, collection, cond, message),
        CollectionAct::Post => post_request(alloc, collection, cond, message),
        CollectionAct::Delete => delete_request(alloc, collection, cond, message),
    }
}

fn item_request(
    alloc: Global,
    act: ItemAct,
    collection: Name,
    id: Id,
    cond: Cond,
    message: &Message,
) -> Result<Request, Stop>
    ensures { Settles result (item_request act collection id cond message.now) }
{
    match act {
        ItemAct::Get => Ok(Request::Get {
            collection,
            id,
            cond,
        }),
        ItemAct::Put => put_request(alloc, collection, id, cond, message),
        ItemAct::Delete => Ok(Request::Delete {
            collection,
            id,
            cond,
        }),
    }
}

/// What is asked, by its names, its condition, its query, its announced sizes, its type and its body.
#[tactic(auto, unfolding(crate::specs::Routing::request_in))]
fn request_in(
    alloc: Global,
    manner: Manner,
    asked: &Asked,
    method: Method,
    message: &Message,
) -> Result<Request, Stop>
    ensures { Settles result (request_in manner asked.now method message.now) }
{
    let fields = &message.fields;
    match asked {
        Asked::DeleteEverything => Ok(Request::DeleteAll {
            cond: condition_in(manner, method.is_get(), fields)?,
        }),
        Asked::TellOf(what) => Ok(Request::Info {
            what: *what,
            cond: condition_in(manner, method.is_get(), fields)?,
        }),
        Asked::OfCollection(act, collection) => {
            let collection = name_in(alloc, collection.as_slice())?;
            let cond = condition_in(manner, method.is_get(), fields)?;
            collection_request(alloc, *act, collection, cond, message)
        }
        Asked::OfItem(act, collection, id) => {
            let collection = name_in(alloc, collection.as_slice())?;
            let id = id_in(alloc, id.as_slice())?;
            let cond = condition_in(manner, method.is_get(), fields)?;
            item_request(alloc, *act, collection, id, cond, message)
        }
    }
}

/// The rules in their order.
#[tactic(auto, unfolding(crate::specs::Routing::asking))]
fn asking(alloc: Global, manner: Manner, message: &Message) -> Result<Routed, Stop>
    ensures { Settles result (asking manner message.now) }
{
    let method = method_in(alloc, message.method.as_slice())?;
    let named = named_in(alloc, message.target.as_slice())?;
    let uid = account_in(named.uid.as_slice())?;
    let asked = asked_in(alloc, named.place, method)?;
    let request = request_in(alloc, manner, &asked, method, message)?;
    Ok(Routed::Ask {
        uid,
        request,
        newlines: wants_lines(&message.fields),
    })
}

/// What a message asks, in a manner of reading conditions, and of which account, or the reply of the first rule that
/// refuses it (SyncStorage API 1.5).
pub fn route(alloc: Global, manner: Manner, message: &Message) -> Routed
    ensures routed { IsAnswerOfRouting result (routing_of_message manner message.now) }
    ensures fit { AsksFit result }
{
    match asking(alloc, manner, message) {
        Ok(routed) => routed,
        Err(Stop::Refused(local)) => Routed::Local(local),
        Err(Stop::Memory) => Routed::Memory,
    }
}
