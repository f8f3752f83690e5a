//! New items.

ghost use Rattle.std.specs.Prelude.{◌≡◌, false, codes, string_bytes, IfOk, IfErr};
ghost use Rattle.serde_json.specs.Data.{object, put, string, no_members, member};
ghost use Rattle.serde_json.specs.View.{members_view, view};
ghost use Rattle.serde_json.specs.Written.{compact_text, members_have_float};
ghost use Rattle.ss_record.specs.Items.{is_fit};
ghost use Rattle.ss_record.specs.declared.kinds.Kind.TheVariants.{Bookmark, Folder, Separator};
ghost use Rattle.ss_run_edit.specs.Changes.{new_bookmark, new_folder, new_separator};
ghost use Rattle.ss_run_edit.specs.Items.{MakesItem};

use crate::endings::Ending;
use serde_json::{Map, Value};
use ss_record::{Item, ItemFault, Kind, with_member};
use ss_text::{Id, Word};
use std::alloc::{AllocError, Global};

fn text(alloc: Global, text: &str) -> Result<Value, AllocError>
    ensures { IfOk result (λ v. view v ≡ string text.now) }
{
    Ok(Value::String(String::from_str(alloc, text)?))
}

/// The compact text of an object without floats.
fn content_of(alloc: Global, members: Map<String, Value>) -> Result<Word, AllocError>
    requires { members_have_float (members_view members.entries) ≡ false }
    ensures { IfOk result (λ text. text ≡ compact_text (object (members_view members.entries))) }
{
    let text = Value::Object(members).to_string(alloc)?;
    Ok(Word::new(text))
}

/// The content of a new bookmark.
fn bookmark_content(alloc: Global, title: &str, uri: &str) -> Result<Word, AllocError>
    ensures { IfOk result (λ text. text ≡ compact_text (object (member (codes "bmkUri") (string uri.now)
        (member (codes "title") (string title.now) no_members)))) }
{
    let members = with_member(alloc, Map::new(alloc), "title", text(alloc, title)?)?;
    content_of(
        alloc,
        with_member(alloc, members, "bmkUri", text(alloc, uri)?)?,
    )
}

/// The content of a new folder.
fn folder_content(alloc: Global, title: &str) -> Result<Word, AllocError>
    ensures { IfOk result (λ text. text ≡ compact_text (object (member (codes "title") (string title.now)
        no_members))) }
{
    content_of(
        alloc,
        with_member(alloc, Map::new(alloc), "title", text(alloc, title)?)?,
    )
}

/// The item with this content, where it is fit.
fn item_with(alloc: Global, id: Id, kind: Kind, content: Word) -> Result<Item, Ending>
    ensures { MakesItem (record { id = id; kind = kind; content = content }) result }
{
    match Item::new(alloc, id, kind, content) {
        Ok(item) => Ok(item),
        Err(ItemFault::Unfit) => Err(Ending::Unfit),
        Err(ItemFault::Memory) => Err(Ending::Memory),
    }
}

/// A new bookmark.
pub(crate) fn new_bookmark(alloc: Global, id: Id, title: &str, uri: &str) -> Result<Item, Ending>
    ensures { MakesItem (new_bookmark id title.now uri.now) result }
{
    let content = bookmark_content(alloc, title, uri)?;
    item_with(alloc, id, Kind::Bookmark, content)
}

/// A new folder.
pub(crate) fn new_folder(alloc: Global, id: Id, title: &str) -> Result<Item, Ending>
    ensures { MakesItem (new_folder id title.now) result }
{
    let content = folder_content(alloc, title)?;
    item_with(alloc, id, Kind::Folder, content)
}

/// A new separator.
pub(crate) fn new_separator(alloc: Global, id: Id) -> Result<Item, Ending>
    ensures { MakesItem (new_separator id) result }
{
    let content = Word::new(String::from_str(alloc, "{}")?);
    item_with(alloc, id, Kind::Separator, content)
}
