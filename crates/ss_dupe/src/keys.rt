//! What tells new items apart.

ghost use Rattle.std.specs.Prelude.{◌≡◌, ◌++◌, false, IfOk, OnOk, string_bytes};
ghost use Rattle.std.specs.List.{flat_map};
ghost use Rattle.serde_json.specs.View.{members_view};
ghost use Rattle.serde_json.specs.Written.{members_have_float};
ghost use Rattle.ss_dupe.specs.Keys.{key_of, member_line, telling};

use serde_json::{Map, Value};
use ss_record::{Item, Kind, member};
use ss_text::Word;
use std::alloc::{AllocError, Global};

/// Appends a member's line.
#[tactic(auto, unfolding(crate::specs::Keys::member_line))]
fn push_line(
    alloc: Global,
    key: &mut String,
    members: &Map<String, Value>,
    name: &str,
) -> Result<(), AllocError>
    requires { members_have_float (members_view members.now.entries) ≡ false }
    ensures { OnOk result (string_bytes key.new ≡ string_bytes key.old
        ++ member_line (members_view members.now.entries) name.now) }
{
    key.push_str("\n")?;
    if let Some(value) = member(members, name) {
        key.push_str(value.to_string(alloc)?.as_str())?;
    }
    Ok(())
}

/// Appends the lines of the members that tell items of a kind apart.
fn push_lines(
    alloc: Global,
    key: &mut String,
    members: &Map<String, Value>,
    kind: Kind,
) -> Result<(), AllocError>
    requires { members_have_float (members_view members.now.entries) ≡ false }
    ensures { OnOk result (string_bytes key.new ≡ string_bytes key.old
        ++ flat_map (member_line (members_view members.now.entries)) (telling kind)) }
{
    match kind {
        Kind::Bookmark | Kind::Query => {
            push_line(alloc, key, members, "title")?;
            push_line(alloc, key, members, "bmkUri")
        }
        Kind::Folder => push_line(alloc, key, members, "title"),
        Kind::Livemark => {
            push_line(alloc, key, members, "title")?;
            push_line(alloc, key, members, "feedUri")
        }
        Kind::Separator => Ok(()),
    }
}

/// The kind's name and the lines of the members that tell items of the kind apart.
#[tactic(auto, unfolding(crate::specs::Keys::key_of))]
pub(crate) fn key_of(alloc: Global, item: &Item) -> Result<Word, AllocError>
    ensures { IfOk result (λ key. key ≡ key_of item.now.kind item.now.content) }
{
    let members = item.members(alloc)?;
    let mut key = String::from_str(alloc, item.kind().name())?;
    push_lines(alloc, &mut key, &members, item.kind())?;
    Ok(Word::new(key))
}
