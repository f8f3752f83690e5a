//! Targets: an account, a place in it, and a query.

ghost use Rattle.std.specs.Prelude.{◌≡◌, ◌≤◌, ◌==◌, IfOk, map, option_map, bytes_eq, codes};
ghost use Rattle.std.specs.List.{slice_split};
ghost use Rattle.percent_encoding.specs.Percent.{percent_decode};
ghost use Rattle.ss_route.specs.Refusals.{Settles};
ghost use Rattle.ss_route.specs.Targets.{path_of, query_of, without_empty_end, segments_of, info_of, place_of};
ghost use Rattle.ss_route.specs.Targets.{named_by, named_in, positive_of, uid_of, account_in};

use crate::cuts::{is_same, split_once};
use crate::routed::{Stop, said};
use percent_encoding::percent_decode;
use ss_query::{Info, Said};
use ss_text::{Bytes, read_number};
use std::alloc::{AllocError, Global};

/// A place in an account, as a path names it.
#[derive(Drop, Debug)]
pub enum Place {
    /// The account as a whole.
    Everything,

    /// What is told of the account as a whole.
    About(Info),

    /// A collection.
    Collection(Bytes),

    /// An item, by its collection and its id.
    Item(Bytes, Bytes),
}

/// An account, not looked at yet, and a place in it.
#[derive(Drop, Debug)]
pub struct Named {
    pub uid: Bytes,
    pub place: Place,
}

/// The target up to its first question mark.
fn path_of(target: &[u8]) -> &[u8]
    ensures { result.now ≡ path_of target.now }
{
    split_once(target, b'?').0
}

/// What follows the first question mark of a target.
pub fn query_of(target: &[u8]) -> &[u8]
    ensures { result.now ≡ query_of target.now }
{
    split_once(target, b'?').1
}

fn pieces_of(alloc: Global, path: &[u8]) -> Result<Vec<&[u8]>, AllocError>
    ensures { IfOk result (λ pieces. map (λ piece. piece.now) pieces.items ≡ slice_split (λ b. b == 0x2f) path.now) }
{
    path.split(|b| *b == b'/').collect(alloc)
}

/// The pieces without an empty one at their end.
fn without_empty_end<'a, 'b>(pieces: &'b [&'a [u8]]) -> &'b [&'a [u8]]
    ensures { map (λ piece. piece.now) result.now ≡ without_empty_end (map (λ piece. piece.now) pieces.now) }
{
    let count = pieces.len();
    if count != 0 && pieces[count - 1].is_empty() {
        &pieces[..count - 1]
    } else {
        pieces
    }
}

fn decoded(alloc: Global, piece: &[u8]) -> Result<Bytes, AllocError>
    ensures { IfOk result (λ segment. segment ≡ percent_decode piece.now) }
{
    let mut bytes = Vec::new(alloc);
    percent_decode(piece).append_to(&mut bytes)?;
    Ok(Bytes::new(bytes))
}

fn decoded_all(alloc: Global, pieces: &[&[u8]]) -> Result<Vec<Bytes>, AllocError>
    ensures { IfOk result (λ segments. segments.items ≡ map percent_decode (map (λ piece. piece.now) pieces.now)) }
{
    let mut segments = Vec::with_capacity(alloc, pieces.len())?;
    for piece in pieces {
        segments.push(decoded(alloc, piece)?)?;
    }
    Ok(segments)
}

/// The segments of a path, decoded; None where it begins with no slash.
#[tactic(auto, unfolding(crate::specs::Targets::segments_of))]
fn segments_of(alloc: Global, path: &[u8]) -> Result<Option<Vec<Bytes>>, AllocError>
    ensures { IfOk result (λ segments. option_map (λ list. list.items) segments ≡ segments_of path.now) }
{
    let pieces = pieces_of(alloc, path)?;
    match pieces.as_slice() {
        [first, rest @ ..] if first.is_empty() => {
            Ok(Some(decoded_all(alloc, without_empty_end(rest))?))
        }
        _ => Ok(None),
    }
}

#[tactic(auto, unfolding(crate::specs::Targets::info_of))]
fn info_of(name: &[u8]) -> Option<Info>
    ensures { result ≡ info_of name.now }
{
    if is_same(name, b"collections") {
        return Some(Info::Collections);
    }
    if is_same(name, b"collection_counts") {
        return Some(Info::Counts);
    }
    if is_same(name, b"collection_usage") {
        return Some(Info::Usage);
    }
    if is_same(name, b"quota") {
        return Some(Info::Quota);
    }
    if is_same(name, b"configuration") {
        return Some(Info::Configuration);
    }
    None
}

fn is_storage(segment: &Bytes) -> bool
    ensures { result ≡ bytes_eq segment.now (codes "storage") }
{
    is_same(segment.as_slice(), b"storage")
}

fn is_info(segment: &Bytes) -> bool
    ensures { result ≡ bytes_eq segment.now (codes "info") }
{
    is_same(segment.as_slice(), b"info")
}

/// The place that the segments behind the account name.
#[tactic(auto, unfolding(crate::specs::Targets::place_of))]
fn place_of(alloc: Global, segments: &[Bytes]) -> Result<Option<Place>, AllocError>
    ensures { IfOk result (λ place. place ≡ place_of segments.now) }
{
    match segments {
        [] => Ok(Some(Place::Everything)),
        [first] if is_storage(first) => Ok(Some(Place::Everything)),
        [first, second] if is_storage(first) => Ok(Some(Place::Collection(second.copy(alloc)?))),
        [first, second] if is_info(first) => Ok(info_of(second.as_slice()).map(Place::About)),
        [first, second, third] if is_storage(first) => {
            Ok(Some(Place::Item(second.copy(alloc)?, third.copy(alloc)?)))
        }
        _ => Ok(None),
    }
}

/// The account and the place that segments name.
#[tactic(auto, unfolding(crate::specs::Targets::named_by))]
fn named_by(alloc: Global, segments: &[Bytes]) -> Result<Option<Named>, AllocError>
    ensures { IfOk result (λ named. named ≡ named_by segments.now) }
{
    match segments {
        [version, uid, rest @ ..] if is_same(version.as_slice(), b"1.5") => {
            match place_of(alloc, rest)? {
                Some(place) => Ok(Some(Named {
                    uid: uid.copy(alloc)?,
                    place,
                })),
                None => Ok(None),
            }
        }
        _ => Ok(None),
    }
}

/// The account and the place that a target names.
#[tactic(auto, unfolding(crate::specs::Targets::named_in))]
pub fn named_in(alloc: Global, target: &[u8]) -> Result<Named, Stop>
    ensures { Settles result (named_in target.now) }
{
    if let Some(segments) = segments_of(alloc, path_of(target))? {
        if let Some(named) = named_by(alloc, segments.as_slice())? {
            return Ok(named);
        }
    }
    Err(Stop::Refused(said(404, Said::Path)))
}

/// A number from 1 of at most so many digits, without a leading zero.
#[tactic(auto, unfolding(crate::specs::Targets::positive_of))]
pub fn read_positive(text: &[u8], most: usize) -> Option<u64>
    requires { most ≤ 18 }
    ensures { result ≡ positive_of most text.now }
{
    if text.first() == Some(&b'0') {
        return None;
    }
    read_number(text, most)
}

/// An account's number.
#[tactic(auto, unfolding(crate::specs::Targets::uid_of))]
pub fn read_uid(text: &[u8]) -> Option<u32>
    ensures { result ≡ uid_of text.now }
{
    match read_positive(text, 10) {
        Some(number) if number <= 4_294_967_295 => Some(number as u32),
        _ => None,
    }
}

/// The account of a path.
pub fn account_in(text: &[u8]) -> Result<u32, Stop>
    ensures { Settles result (account_in text.now) }
{
    match read_uid(text) {
        Some(uid) => Ok(uid),
        None => Err(Stop::Refused(said(401, Said::Account))),
    }
}
