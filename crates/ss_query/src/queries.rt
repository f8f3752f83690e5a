//! The text of a query.

ghost use Rattle.std.specs.Prelude.{◌≡◌, ◌==◌, IfOk, Some, None, if◌then◌else◌, map, option_map, string_bytes};
ghost use Rattle.std.specs.List.{list_all, slice_split};
ghost use Rattle.ss_text.specs.Names.{is_id};
ghost use Rattle.ss_text.specs.Numbers.{number_of};
ghost use Rattle.ss_query.specs.Parameters.{parameter, ids_in, stamp_in, limit_in, offset_in, sort_in, optional};
ghost use Rattle.ss_query.specs.Parameters.{or_default, ids_of_text, query_of_text, Gives};
ghost use Rattle.ss_query.specs.declared.requests.Sort.TheVariants as order;
ghost use Rattle.ss_query.specs.declared.queries.QueryFault.TheVariants.{Memory};

use crate::requests::{Query, Sort};
use ss_bso::limits::MOST_IDS;
use ss_text::{Id, Ids, Stamp, read_number, read_stamp};
use std::alloc::{AllocError, Global};
use thiserror::Error;

/// Why a text is no query.
#[derive(Clone, Copy, Debug, PartialEq, Eq, Error)]
pub enum QueryFault {
    #[error("ids: not ids between commas")]
    BadIds,
    #[error("ids: {n} of them, and at most 100 are allowed")]
    TooManyIds { n: u64 },
    #[error("newer or older: no time")]
    BadStamp,
    #[error("limit: not 1 to 9 digits of a number other than 0")]
    BadLimit,
    #[error("offset: not 1 to 9 digits")]
    BadOffset,
    #[error("sort: not newest, oldest or index")]
    BadSort,
    #[error("out of memory")]
    Memory,
}

impl From<AllocError> for QueryFault {
    ghost from_gives = { λ _ fault. fault ≡ Memory };

    fn from(_error: AllocError) -> QueryFault {
        QueryFault::Memory
    }
}

/// The value of a query's parameter, decoded as a form; of equal names the first counts.
#[tactic(auto, unfolding(crate::specs::Parameters::parameter))]
pub fn read_parameter(alloc: Global, text: &[u8], name: &str) -> Result<Option<String>, AllocError>
    ensures { IfOk result (λ value. option_map (λ bytes. string_bytes bytes) value ≡ parameter name.now text.now) }
{
    for pair in form_urlencoded::parse(alloc, text) {
        let (key, value) = pair?;
        if key.as_str() == name {
            return Ok(Some(value.into_owned(alloc)?));
        }
    }
    Ok(None)
}

/// The ids of these pieces, where each has the form of an id.
fn ids_of_pieces(alloc: Global, pieces: &[&[u8]]) -> Result<Option<Vec<Id>>, AllocError>
    ensures { IfOk result (λ ids. option_map (λ list. list.items) ids
        ≡ (if list_all is_id (map (λ piece. piece.now) pieces.now) then Some (map (λ piece. piece.now) pieces.now) else None)) }
{
    let mut ids = Vec::with_capacity(alloc, pieces.len())?;
    for piece in pieces {
        match Id::new(alloc, piece)? {
            Some(id) => ids.push(id)?,
            None => return Ok(None),
        }
    }
    Ok(Some(ids))
}

fn pieces_of(alloc: Global, value: &[u8]) -> Result<Vec<&[u8]>, AllocError>
    ensures { IfOk result (λ pieces. map (λ piece. piece.now) pieces.items ≡ slice_split (λ b. b == 0x2c) value.now) }
{
    value.split(|b| *b == b',').collect(alloc)
}

/// The ids between commas.
#[tactic(auto, unfolding(crate::specs::Parameters::ids_in))]
fn ids_in(alloc: Global, value: &[u8]) -> Result<Ids, QueryFault>
    ensures { Gives result (ids_in value.now) }
{
    let pieces = pieces_of(alloc, value)?;
    let ids = ids_of_pieces(alloc, pieces.as_slice())?.ok_or(QueryFault::BadIds)?;
    if ids.len() > MOST_IDS {
        return Err(QueryFault::TooManyIds {
            n: ids.len() as u64,
        });
    }
    Ok(Ids::new(ids))
}

/// The ids that a query names, if it does; the other parameters aren't looked at (SyncStorage API 1.5, DELETE of a
/// collection). Each fault but want of memory comes exactly by its rule.
#[tactic(auto, unfolding(crate::specs::Parameters::ids_of_text))]
pub fn read_ids(alloc: Global, text: &[u8]) -> Result<Option<Ids>, QueryFault>
    ensures { Gives result (ids_of_text text.now) }
{
    match read_parameter(alloc, text, "ids")? {
        Some(value) => Ok(Some(ids_in(alloc, value.as_str().as_bytes())?)),
        None => Ok(None),
    }
}

/// The number that 1 to 9 digits write.
fn number_in(text: &str) -> Option<u32>
    ensures { result ≡ number_of 9 text.now }
{
    match read_number(text.as_bytes(), 9) {
        Some(number) => Some(number as u32),
        None => None,
    }
}

fn stamp_in(value: Option<String>) -> Result<Option<Stamp>, QueryFault>
    ensures { result ≡ optional stamp_in (option_map (λ text. string_bytes text) value) }
{
    match value {
        Some(text) => match read_stamp(text.as_str().as_bytes()) {
            Some(stamp) => Ok(Some(stamp)),
            None => Err(QueryFault::BadStamp),
        },
        None => Ok(None),
    }
}

#[tactic(auto, unfolding(crate::specs::Parameters::limit_in))]
fn limit_in(value: Option<String>) -> Result<Option<u32>, QueryFault>
    ensures { result ≡ optional limit_in (option_map (λ text. string_bytes text) value) }
{
    match value {
        Some(text) => match number_in(text.as_str()) {
            Some(limit) if limit != 0 => Ok(Some(limit)),
            _ => Err(QueryFault::BadLimit),
        },
        None => Ok(None),
    }
}

#[tactic(auto, unfolding(crate::specs::Parameters::offset_in))]
fn offset_in(value: Option<String>) -> Result<u32, QueryFault>
    ensures { result ≡ or_default 0 offset_in (option_map (λ text. string_bytes text) value) }
{
    match value {
        Some(text) => match number_in(text.as_str()) {
            Some(offset) => Ok(offset),
            None => Err(QueryFault::BadOffset),
        },
        None => Ok(0),
    }
}

#[tactic(auto, unfolding(crate::specs::Parameters::sort_in))]
fn sort_in(value: Option<String>) -> Result<Sort, QueryFault>
    ensures { result ≡ or_default order.Newest sort_in (option_map (λ text. string_bytes text) value) }
{
    let text = match &value {
        Some(text) => text.as_str(),
        None => return Ok(Sort::Newest),
    };
    if text == "newest" {
        Ok(Sort::Newest)
    } else if text == "oldest" {
        Ok(Sort::Oldest)
    } else if text == "index" {
        Ok(Sort::Index)
    } else {
        Err(QueryFault::BadSort)
    }
}

/// The query that a text says, read as a form: of equal parameters the first counts, and others than those of a query
/// aren't looked at (SyncStorage API 1.5). The first fault of ids, newer, older, limit, offset and sort, in this
/// order, comes exactly by its rule.
#[tactic(auto, unfolding(crate::specs::Parameters::query_of_text))]
pub fn read_query(alloc: Global, text: &[u8]) -> Result<Query, QueryFault>
    ensures { Gives result (query_of_text text.now) }
{
    let ids = read_ids(alloc, text)?;
    let newer = stamp_in(read_parameter(alloc, text, "newer")?)?;
    let older = stamp_in(read_parameter(alloc, text, "older")?)?;
    let limit = limit_in(read_parameter(alloc, text, "limit")?)?;
    let offset = offset_in(read_parameter(alloc, text, "offset")?)?;
    let sort = sort_in(read_parameter(alloc, text, "sort")?)?;
    let full = read_parameter(alloc, text, "full")?.is_some();
    Ok(Query {
        ids,
        newer,
        older,
        limit,
        offset,
        sort,
        full,
    })
}
