//! What options and positionals say.

ghost use Rattle.std.specs.Prelude.{◌≡◌, ◌≤◌, ◌==◌, Some, None, true, map, length, IfOk, IfErr, IfSome};
ghost use Rattle.std.specs.Option.{option_copied};
ghost use Rattle.ss_route.specs.Targets.{uid_of};
ghost use Rattle.ss_words.specs.Refused.{AsksNothing};
ghost use Rattle.ss_words.specs.Values.{given_value, number_in, optional_number, number_given, accounts_of, uids_of};
ghost use Rattle.ss_text.specs.Names.{id_of};
ghost use Rattle.ss_words.specs.Values.{are_distinct, are_accounts};

use crate::lines::Line;
use crate::names::OptionName;
use crate::refusals::{Cause, WordsFault};
use ss_text::{Id, Word, read_number};
use ss_town::limits::MOST_ACCOUNTS;
use std::alloc::{AllocError, Global};
use std::marker::Model;

/// Numbers of accounts, which contracts see as a list.
#[derive(Drop, Debug)]
pub struct Uids {
    uids: Vec<u32>,
}

impl Model for Uids {
    ghost use Rattle.std.specs.Prelude.{List, ℕ};

    ghost Value = { List ℕ };

    ghost view = { λ u. u.uids.items };
}

impl Uids {
    /// The numbers of a vector, which are moved.
    pub fn new(uids: Vec<u32>) -> Uids
        ensures { result ≡ uids.items }
    {
        Uids { uids }
    }

    pub fn as_slice(&self) -> &[u32]
        ensures { result.now ≡ self.now }
    {
        self.uids.as_slice()
    }
}

/// The value with which an option is given, where it is.
pub(crate) fn given<'a>(
    line: &Line<'a>,
    option: OptionName,
) -> Result<Option<&'a str>, WordsFault<'a>>
    ensures ok { IfOk result (λ value. given_value option line.now ≡ Some (option_copied value)) }
    ensures refused { IfErr result (λ fault. given_value option line.now ≡ None) }
{
    let options = line.options();
    let mut found: Option<&'a str> = None;
    for pair in options {
        if pair.0.text() == option.text() {
            if found.is_some() {
                return Err(WordsFault::at(Cause::Twice, option.text()));
            }
            found = Some(pair.1);
        }
    }
    Ok(found)
}

/// A number of 1 to 12 digits in a range.
#[tactic(auto, unfolding(crate::specs::Values::number_in))]
pub(crate) fn number_in<'a>(word: &'a str, low: u64, high: u64) -> Result<u64, WordsFault<'a>>
    ensures ok { IfOk result (λ number. number_in low high word.now ≡ Some number) }
    ensures range { IfOk result (λ number. (low ≤ number) × (number ≤ high)) }
    ensures refused { IfErr result (λ fault. number_in low high word.now ≡ None) }
{
    match read_number(word.as_bytes(), 12) {
        Some(number) if low <= number && number <= high => Ok(number),
        _ => Err(WordsFault::at(Cause::Number, word)),
    }
}

/// The number of an option, where it is given.
pub(crate) fn number_given<'a>(
    line: &Line<'a>,
    option: OptionName,
    low: u64,
    high: u64,
) -> Result<Option<u64>, WordsFault<'a>>
    ensures ok { IfOk result (λ number. number_given option low high line.now ≡ Some number) }
    ensures range { IfOk result (λ number. IfSome number (λ number. (low ≤ number) × (number ≤ high))) }
    ensures refused { IfErr result (λ fault. number_given option low high line.now ≡ None) }
{
    match given(line, option) {
        Ok(Some(text)) => match number_in(text, low, high) {
            Ok(number) => Ok(Some(number)),
            Err(fault) => Err(fault),
        },
        Ok(None) => Ok(None),
        Err(fault) => Err(fault),
    }
}

/// An account's number: 1 to 4,294,967,295 in digits without a leading zero.
#[tactic(auto, unfolding(ss_route::specs::Targets::uid_of, ss_route::specs::Targets::positive_of))]
pub(crate) fn read_uid(text: &[u8]) -> Option<u32>
    ensures { result ≡ uid_of text.now }
{
    if text.first() == Some(&b'0') {
        return None;
    }
    match read_number(text, 10) {
        Some(number) if number <= 4_294_967_295 => Some(number as u32),
        _ => None,
    }
}

/// The account that a word names.
pub(crate) fn uid_in<'a>(word: &'a str) -> Result<u32, WordsFault<'a>>
    ensures ok { IfOk result (λ uid. uid_of word.now ≡ Some uid) }
    ensures refused { IfErr result (λ fault. uid_of word.now ≡ None) }
{
    match read_uid(word.as_bytes()) {
        Some(uid) => Ok(uid),
        None => Err(WordsFault::at(Cause::Account, word)),
    }
}

/// An id of a record.
pub(crate) fn id_in<'a>(alloc: Global, word: &'a str) -> Result<Id, WordsFault<'a>>
    ensures ok { IfOk result (λ id. id_of word.now ≡ Some id) }
    ensures refused { IfErr result (λ fault. AsksNothing fault → id_of word.now ≡ None) }
{
    match Id::new(alloc, word.as_bytes()) {
        Ok(Some(id)) => Ok(id),
        Ok(None) => Err(WordsFault::at(Cause::Id, word)),
        Err(_) => Err(WordsFault::Memory),
    }
}

/// A copy of a word.
pub(crate) fn copied(alloc: Global, word: &str) -> Result<Word, AllocError>
    ensures { IfOk result (λ copied. copied ≡ word.now) }
{
    Ok(Word::new(String::from_str(alloc, word)?))
}

fn are_distinct(uids: &[u32]) -> bool
    ensures { result ≡ are_distinct uids.now }
{
    match uids {
        [] => true,
        [first, others @ ..] => !others.contains(first) && are_distinct(others),
    }
}

/// The accounts that all these words name.
fn all_uids<'a>(alloc: Global, words: &[&'a str]) -> Result<Vec<u32>, WordsFault<'a>>
    ensures ok { IfOk result (λ uids. uids_of (map (λ word. word.now) words.now) ≡ Some uids.items) }
    ensures refused { IfErr result (λ fault. AsksNothing fault → uids_of (map (λ word. word.now) words.now) ≡ None) }
{
    let mut uids = Vec::new(alloc);
    for word in words {
        let uid = match uid_in(word) {
            Ok(uid) => uid,
            Err(fault) => return Err(fault),
        };
        if uids.push(uid).is_err() {
            return Err(WordsFault::Memory);
        }
    }
    Ok(uids)
}

/// The 1 to 8 accounts that words name, none twice.
#[tactic(auto, unfolding(crate::specs::Values::accounts_of))]
pub(crate) fn accounts_in<'a>(alloc: Global, words: &[&'a str]) -> Result<Uids, WordsFault<'a>>
    ensures fit { IfOk result (λ uids. are_accounts uids ≡ true) }
    ensures ok { IfOk result (λ uids. accounts_of (map (λ word. word.now) words.now) ≡ Some uids) }
    ensures refused { IfErr result (λ fault. AsksNothing fault → accounts_of (map (λ word. word.now) words.now) ≡ None) }
{
    match all_uids(alloc, words) {
        Err(fault) => Err(fault),
        Ok(uids) => {
            if uids.is_empty() {
                Err(WordsFault::missing(Cause::TooFew))
            } else if uids.len() > MOST_ACCOUNTS {
                Err(WordsFault::missing(Cause::TooMany))
            } else if !are_distinct(uids.as_slice()) {
                Err(WordsFault::missing(Cause::SameAccount))
            } else {
                Ok(Uids::new(uids))
            }
        }
    }
}
