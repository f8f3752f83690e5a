//! The bookmarks of a rehearsal.

ghost use Rattle.std.specs.Prelude.{◌≡◌, ◌≤◌, ◌++◌, drop, false, true, codes, decimal, string_bytes, IfOk, OnOk};
ghost use Rattle.serde_json.specs.Data.{object, put, string};
ghost use Rattle.serde_json.specs.View.{members_view, view};
ghost use Rattle.serde_json.specs.Written.{members_have_float};
ghost use Rattle.ss_text.specs.Names.{is_id};
ghost use Rattle.ss_record.specs.declared.kinds.Kind.TheVariants.{Bookmark};
ghost use Rattle.ss_record.specs.Items.{is_fit};
ghost use Rattle.ss_record.specs.Marks.{plain_text};
ghost use Rattle.ss_rehearse.specs.Bookmarks.{address, bookmark, bookmark_id, eleven_digits, members_of, new_title};
ghost use Rattle.ss_rehearse.specs.Bookmarks.{root_of, title};

use itoa::Buffer;
use serde_json::{Map, Value};
use ss_record::{Item, ItemFault, Kind, plain_text, with_member};
use ss_text::{Id, Word};
use std::alloc::{AllocError, Global};

/// Eleven digits that are zeros.
const ZEROS: &[u8] = b"00000000000";

/// Eleven zeros but for so many.
fn zeros_but(count: usize) -> &'static [u8]
    requires { count ≤ 11 }
    ensures { result.now ≡ drop count (codes "00000000000") }
{
    &ZEROS[count..]
}

/// Appends a number of at most 11 digits in 11 digits.
fn push_eleven_digits(out: &mut Vec<u8>, number: u64) -> Result<(), AllocError>
    requires { number ≤ 99999999999 }
    ensures { OnOk result (out.new.items ≡ out.old.items ++ eleven_digits number) }
{
    let mut buffer = Buffer::new();
    let digits = buffer.format(number).as_bytes();
    out.extend_from_slice(zeros_but(digits.len()))?;
    out.extend_from_slice(digits)
}

/// The text of the id of the bookmark of a number.
#[tactic(auto, unfolding(crate::specs::Bookmarks::bookmark_id))]
fn id_text(alloc: Global, number: u64) -> Result<Vec<u8>, AllocError>
    requires { number ≤ 99999999999 }
    ensures { IfOk result (λ text. text.items ≡ bookmark_id number) }
{
    let mut text = Vec::new(alloc);
    text.push(b'b')?;
    push_eleven_digits(&mut text, number)?;
    Ok(text)
}

/// The id of a text that has the form of one.
fn id_of(alloc: Global, text: &[u8]) -> Result<Id, AllocError>
    requires { is_id text.now ≡ true }
    ensures { IfOk result (λ id. id ≡ text.now) }
{
    match Id::new(alloc, text)? {
        Some(id) => Ok(id),
        None => unreachable!(),
    }
}

/// The id of the bookmark of a number.
pub fn bookmark_id(alloc: Global, number: u64) -> Result<Id, AllocError>
    requires { number ≤ 99999999999 }
    ensures { IfOk result (λ id. id ≡ bookmark_id number) }
{
    let text = id_text(alloc, number)?;
    id_of(alloc, text.as_slice())
}

/// The id of `menu`.
pub fn menu(alloc: Global) -> Result<Id, AllocError>
    ensures { IfOk result (λ id. id ≡ codes "menu") }
{
    id_of(alloc, b"menu")
}

/// The root of a bookmark for which this was drawn.
#[tactic(auto, unfolding(crate::specs::Bookmarks::root_of, ss_record::specs::Ids::roots))]
pub fn root_of(alloc: Global, drawn: u64) -> Result<Id, AllocError>
    ensures { IfOk result (λ id. id ≡ root_of drawn) }
{
    let name = match (drawn >> 32) % 4 {
        0 => "menu",
        1 => "toolbar",
        2 => "unfiled",
        _ => "mobile",
    };
    match Id::new(alloc, name.as_bytes())? {
        Some(id) => Ok(id),
        None => unreachable!(),
    }
}

/// A number behind some words.
fn numbered(alloc: Global, words: &str, number: u64) -> Result<String, AllocError>
    ensures { IfOk result (λ text. string_bytes text ≡ words.now ++ decimal number) }
{
    format!(in alloc; "{words}{number}")
}

/// The members of the content of the bookmark of a number, for which this was drawn.
#[tactic(auto, unfolding(crate::specs::Bookmarks::address, crate::specs::Bookmarks::title))]
fn members(alloc: Global, number: u64, drawn: u64) -> Result<Map<String, Value>, AllocError>
    ensures { IfOk result (λ m. members_view m.entries ≡ members_of (address number) (title drawn)) }
{
    let title = numbered(alloc, "T", drawn >> 48)?;
    let address = numbered(alloc, "http://h/", number)?;
    let members = with_member(alloc, Map::new(alloc), "title", Value::String(title))?;
    with_member(alloc, members, "bmkUri", Value::String(address))
}

/// The bookmark with this content, with which it is fit.
fn item_of(alloc: Global, id: Id, content: Word) -> Result<Item, AllocError>
    requires { is_fit (record { id = id; kind = Bookmark; content = content }) ≡ true }
    ensures { IfOk result (λ item. item ≡ record { id = id; kind = Bookmark; content = content }) }
{
    match Item::new(alloc, id, Kind::Bookmark, content) {
        Ok(item) => Ok(item),
        Err(ItemFault::Memory) => Err(AllocError),
        Err(ItemFault::Unfit) => unreachable!(),
    }
}

/// The bookmark of a number, for which this was drawn. Its record reads back as it.
#[tactic(auto, unfolding(crate::specs::Bookmarks::bookmark))]
pub fn bookmark(alloc: Global, number: u64, drawn: u64) -> Result<Item, AllocError>
    requires { number ≤ 99999999999 }
    ensures { IfOk result (λ item. item ≡ bookmark number drawn) }
{
    let id = bookmark_id(alloc, number)?;
    let members = members(alloc, number, drawn)?;
    let content = plain_text(alloc, members)?;
    item_of(alloc, id, content)
}

/// The title that the bookmark of a number gets later.
#[tactic(auto, unfolding(crate::specs::Bookmarks::new_title))]
pub fn new_title(alloc: Global, number: u64) -> Result<Word, AllocError>
    ensures { IfOk result (λ text. text ≡ new_title number) }
{
    Ok(Word::new(numbered(alloc, "R", number)?))
}
