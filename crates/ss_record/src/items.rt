//! Bookmark items without their places.

ghost use Rattle.std.specs.Prelude.{◌≡◌, Some, ◌&&◌, true, false, not, bytes_eq, string_bytes, codes, if◌then◌else◌};
ghost use Rattle.std.specs.Prelude.{IfOk, OnOk, IsErrOf};
ghost use Rattle.serde_json.specs.View.{members_view};
ghost use Rattle.ss_record.specs.Items.{empty_folder, has_content, is_fit, names_of};
ghost use Rattle.ss_record.specs.Ids.{has};
ghost use Rattle.ss_record.specs.Payloads.{lacks, payload_members};
ghost use Rattle.ss_record.specs.declared.items.ItemFault.TheVariants.{Unfit, Memory};

use crate::ids::{is_places, is_root};
use crate::kinds::Kind;
use crate::marks::plain_text;
use crate::payloads::{is_true, member, members_of};
use serde_json::{Map, Value};
use ss_text::{Id, Word};
use std::alloc::{AllocError, Global};
use std::marker::Model;

/// An item without its place: its id, its kind and its content, a compact JSON object without the members that tell
/// the place. Each item is fit: its record reads back as it, under every parent and with all children.
#[derive(Drop, Debug)]
pub struct Item {
    id: Id,
    kind: Kind,
    content: Word,
}

impl Model for Item {
    ghost use Rattle.std.specs.Prelude.{◌≡◌, true};
    ghost use Rattle.ss_record.specs.Items.{ItemView, is_fit};

    ghost Value = { ItemView };

    ghost view = { λ i. record { id = i.id; kind = i.kind; content = i.content } };

    ghost invariant = { λ i. is_fit (record { id = i.id; kind = i.kind; content = i.content }) ≡ true };
}

/// Why there is no such item.
#[derive(Drop, Debug, PartialEq, Eq)]
pub enum ItemFault {
    /// Its record wouldn't read back as it.
    Unfit,
    /// No memory.
    Memory,
}

impl From<AllocError> for ItemFault {
    ghost from_gives = { λ _ e. e ≡ Memory };

    fn from(_: AllocError) -> ItemFault {
        ItemFault::Memory
    }
}

/// Whether a member of this name tells the place of an item of this kind, and is no content.
#[tactic(auto, unfolding(crate::specs::Items::names_of, crate::specs::Ids::has))]
pub(crate) fn tells_place(kind: Kind, name: &str) -> bool
    ensures { result ≡ has name.now (names_of kind) }
{
    name == "id" || name == "type" || name == "parentid" || (kind.is_folder() && name == "children")
}

fn lacks_place(kind: Kind, members: &Map<String, Value>) -> bool
    ensures { result ≡ lacks (names_of kind) (members_view members.now.entries) }
{
    for (name, _) in members.iter() {
        if tells_place(kind, name.as_str()) {
            return false;
        }
    }
    true
}

/// Whether an item with this content is fit, where it isn't `places`.
#[tactic(auto, unfolding(crate::specs::Items::has_content, crate::specs::Items::are_content))]
fn has_content(alloc: Global, id: &Id, kind: Kind, content: &str) -> Result<bool, AllocError>
    ensures { IfOk result (λ fit. fit ≡ has_content (record { id = id.now; kind = kind; content = content.now })) }
{
    let Some(members) = members_of(alloc, content)? else {
        return Ok(false);
    };
    let in_place = lacks_place(kind, &members) && !is_true(member(&members, "deleted"));
    if !in_place || (is_root(id) && !kind.is_folder()) {
        return Ok(false);
    }
    Ok(plain_text(alloc, members)?.as_str() == content)
}

#[tactic(auto, unfolding(crate::specs::Items::is_fit))]
fn is_fit(alloc: Global, id: &Id, kind: Kind, content: &str) -> Result<bool, AllocError>
    ensures { IfOk result (λ fit. fit ≡ is_fit (record { id = id.now; kind = kind; content = content.now })) }
{
    if is_places(id) {
        Ok(kind.is_folder() && content == "{}")
    } else {
        has_content(alloc, id, kind, content)
    }
}

impl Item {
    /// The item with this content; `Unfit` exactly where its record wouldn't read back as it.
    pub fn new(alloc: Global, id: Id, kind: Kind, content: Word) -> Result<Item, ItemFault>
        ensures ok { IfOk result (λ item. item ≡ record { id = id; kind = kind; content = content }) }
        ensures fit { OnOk result (is_fit (record { id = id; kind = kind; content = content }) ≡ true) }
        ensures unfit { IsErrOf result Unfit → is_fit (record { id = id; kind = kind; content = content }) ≡ false }
    {
        if is_fit(alloc, &id, kind, content.as_str())? {
            Ok(Item { id, kind, content })
        } else {
            Err(ItemFault::Unfit)
        }
    }

    /// An item that is known to be fit.
    pub(crate) fn fit(id: Id, kind: Kind, content: Word) -> Item
        requires { is_fit (record { id = id; kind = kind; content = content }) ≡ true }
        ensures { result ≡ record { id = id; kind = kind; content = content } }
    {
        Item { id, kind, content }
    }

    pub fn id(&self) -> &Id
        ensures id { result.now ≡ self.now.id }
        ensures fit { is_fit self.now ≡ true }
    {
        &self.id
    }

    /// A folder with no content, which is fit whatever its id is.
    pub fn empty_folder(alloc: Global, id: Id) -> Result<Item, AllocError>
        ensures { IfOk result (λ item. item ≡ empty_folder id) }
    {
        let content = Word::new(String::from_str(alloc, "{}")?);
        Ok(Item::fit(id, Kind::Folder, content))
    }

    /// Gives the item another content, with which it is fit.
    pub fn set_content(&mut self, content: Word)
        requires { is_fit (record { id = self.old.id; kind = self.old.kind; content = content }) ≡ true }
        ensures { self.new ≡ record { id = self.old.id; kind = self.old.kind; content = content } }
    {
        self.content = content;
    }

    pub fn kind(&self) -> Kind
        ensures { result ≡ self.now.kind }
    {
        self.kind
    }

    pub fn content(&self) -> &Word
        ensures content { result.now ≡ self.now.content }
        ensures fit { is_fit self.now ≡ true }
    {
        &self.content
    }

    /// The members of the content, as its marked text has them: a number that serde_json would round is a string of
    /// U+0001 and its characters, which `string_of` takes for no string.
    pub fn members(&self, alloc: Global) -> Result<Map<String, Value>, AllocError>
        ensures members { IfOk result (λ members. payload_members self.now.content ≡ Some (members_view members.entries)) }
        ensures fit { is_fit self.now ≡ true }
    {
        match members_of(alloc, self.content().as_str())? {
            Some(members) => Ok(members),
            None => unreachable!(),
        }
    }

    pub fn copy(&self, alloc: Global) -> Result<Item, AllocError>
        ensures { IfOk result (λ copied. copied ≡ self.now) }
    {
        Ok(Item {
            id: self.id.copy(alloc)?,
            kind: self.kind,
            content: self.content.copy(alloc)?,
        })
    }
}
