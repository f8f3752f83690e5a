//! Items by their places in the list: an index of their ids.

ghost use Rattle.std.specs.Prelude.{◌≡◌, ◌≤◌, IfOk, length, map};
ghost use Rattle.ss_record.specs.Ids.{Apart, roots};
ghost use Rattle.ss_build.specs.Built.{ids};
ghost use Rattle.ss_build.specs.Places.{place};

use crate::claims::Claim;
use indexmap::IndexSet;
use ss_seed::Seed;
use ss_text::{Id, Word};
use std::alloc::{AllocError, Global};

/// The ids of the items, in the order of their list: each has its place as its index.
pub(crate) type Places = IndexSet<Word, Seed>;

pub(crate) fn word_of(alloc: Global, text: &str) -> Result<Word, AllocError>
    ensures { IfOk result (λ word. word ≡ text.now) }
{
    Ok(Word::new(String::from_str(alloc, text)?))
}

/// Ids as words.
pub(crate) fn words_of(alloc: Global, ids: &[Id]) -> Result<Vec<Word>, AllocError>
    ensures { IfOk result (λ words. words.items ≡ ids.now) }
{
    let mut words = Vec::with_capacity(alloc, ids.len())?;
    for id in ids {
        words.push(word_of(alloc, id.as_str())?)?;
    }
    Ok(words)
}

/// The ids of the roots, in the order in which they stand under `places`.
#[tactic(auto, unfolding(ss_record::specs::Ids::roots))]
pub(crate) fn root_words(alloc: Global) -> Result<Vec<Word>, AllocError>
    ensures { IfOk result (λ words. words.items ≡ roots) }
{
    let mut words = Vec::with_capacity(alloc, 4)?;
    words.push(word_of(alloc, "menu")?)?;
    words.push(word_of(alloc, "toolbar")?)?;
    words.push(word_of(alloc, "unfiled")?)?;
    words.push(word_of(alloc, "mobile")?)?;
    Ok(words)
}

/// The index of the ids of some items, no two of which are the same.
pub(crate) fn ids_of(alloc: Global, claims: &[Claim]) -> Result<Places, AllocError>
    requires { Apart (ids claims.now) }
    ensures { IfOk result (λ places. places.keys ≡ ids claims.now) }
{
    let mut places = IndexSet::with_capacity_and_hasher(alloc, claims.len(), Seed::random())?;
    for claim in claims {
        places.insert(word_of(alloc, claim.item.id().as_str())?)?;
    }
    Ok(places)
}

/// The place of an id; the number of items where it isn't there.
pub(crate) fn place(places: &Places, id: &Word) -> usize
    ensures place { result ≡ place id.now places.now.keys }
    ensures bound { result ≤ length places.now.keys }
{
    places.get_index_of(id).unwrap_or(places.len())
}

/// The places of some ids.
pub(crate) fn places_of(
    alloc: Global,
    places: &Places,
    words: &[Word],
) -> Result<Vec<usize>, AllocError>
    ensures { IfOk result (λ found. found.items ≡ map (λ x. place x places.now.keys) words.now) }
{
    let mut found = Vec::with_capacity(alloc, words.len())?;
    for word in words {
        found.push(place(places, word))?;
    }
    Ok(found)
}
