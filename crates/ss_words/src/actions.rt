//! The actions of the command `edit`, with their words.

ghost use Rattle.std.specs.Prelude.{◌≡◌, Some, None, map, IfOk, IfErr};
ghost use Rattle.ss_words.specs.Refused.{AsksNothing};
ghost use Rattle.ss_words.specs.Actions.{new_in, bookmark_in, folder_in, separator_in, rename_in, move_in, delete_in};
ghost use Rattle.ss_words.specs.Actions.{action_named, action_in};

use crate::refusals::{Cause, WordsFault};
use crate::values::{copied, id_in};
use ss_text::{Id, Word};
use std::alloc::Global;

/// What is done to a device.
#[derive(Drop, Debug)]
pub enum Action {
    /// A new device; no input is read.
    New,
    Bookmark {
        parent: Id,
        id: Id,
        title: Word,
        uri: Word,
    },
    Folder {
        parent: Id,
        id: Id,
        title: Word,
    },
    Separator {
        parent: Id,
        id: Id,
    },
    Rename {
        id: Id,
        title: Word,
    },
    Move {
        id: Id,
        parent: Id,
    },
    Delete {
        id: Id,
    },
}

/// The refusal of a list of words that is too short, or too long.
pub(crate) fn wrong_count<'a>(words: &[&'a str], wanted: usize) -> WordsFault<'a>
    ensures { AsksNothing result }
{
    match words.get(wanted) {
        Some(word) => WordsFault::at(Cause::TooMany, word),
        None => WordsFault::missing(Cause::TooFew),
    }
}

fn bookmark_in<'a>(alloc: Global, words: &[&'a str]) -> Result<Action, WordsFault<'a>>
    ensures ok { IfOk result (λ action. bookmark_in (map (λ word. word.now) words.now) ≡ Some action) }
    ensures refused { IfErr result (λ fault. AsksNothing fault → bookmark_in (map (λ word. word.now) words.now) ≡ None) }
{
    match words {
        [parent, id, title, uri] => Ok(Action::Bookmark {
            parent: id_in(alloc, parent)?,
            id: id_in(alloc, id)?,
            title: copied(alloc, title)?,
            uri: copied(alloc, uri)?,
        }),
        _ => Err(wrong_count(words, 4)),
    }
}

fn folder_in<'a>(alloc: Global, words: &[&'a str]) -> Result<Action, WordsFault<'a>>
    ensures ok { IfOk result (λ action. folder_in (map (λ word. word.now) words.now) ≡ Some action) }
    ensures refused { IfErr result (λ fault. AsksNothing fault → folder_in (map (λ word. word.now) words.now) ≡ None) }
{
    match words {
        [parent, id, title] => Ok(Action::Folder {
            parent: id_in(alloc, parent)?,
            id: id_in(alloc, id)?,
            title: copied(alloc, title)?,
        }),
        _ => Err(wrong_count(words, 3)),
    }
}

fn separator_in<'a>(alloc: Global, words: &[&'a str]) -> Result<Action, WordsFault<'a>>
    ensures ok { IfOk result (λ action. separator_in (map (λ word. word.now) words.now) ≡ Some action) }
    ensures refused { IfErr result (λ fault. AsksNothing fault → separator_in (map (λ word. word.now) words.now) ≡ None) }
{
    match words {
        [parent, id] => Ok(Action::Separator {
            parent: id_in(alloc, parent)?,
            id: id_in(alloc, id)?,
        }),
        _ => Err(wrong_count(words, 2)),
    }
}

fn rename_in<'a>(alloc: Global, words: &[&'a str]) -> Result<Action, WordsFault<'a>>
    ensures ok { IfOk result (λ action. rename_in (map (λ word. word.now) words.now) ≡ Some action) }
    ensures refused { IfErr result (λ fault. AsksNothing fault → rename_in (map (λ word. word.now) words.now) ≡ None) }
{
    match words {
        [id, title] => Ok(Action::Rename {
            id: id_in(alloc, id)?,
            title: copied(alloc, title)?,
        }),
        _ => Err(wrong_count(words, 2)),
    }
}

fn move_in<'a>(alloc: Global, words: &[&'a str]) -> Result<Action, WordsFault<'a>>
    ensures ok { IfOk result (λ action. move_in (map (λ word. word.now) words.now) ≡ Some action) }
    ensures refused { IfErr result (λ fault. AsksNothing fault → move_in (map (λ word. word.now) words.now) ≡ None) }
{
    match words {
        [id, parent] => Ok(Action::Move {
            id: id_in(alloc, id)?,
            parent: id_in(alloc, parent)?,
        }),
        _ => Err(wrong_count(words, 2)),
    }
}

fn delete_in<'a>(alloc: Global, words: &[&'a str]) -> Result<Action, WordsFault<'a>>
    ensures ok { IfOk result (λ action. delete_in (map (λ word. word.now) words.now) ≡ Some action) }
    ensures refused { IfErr result (λ fault. AsksNothing fault → delete_in (map (λ word. word.now) words.now) ≡ None) }
{
    match words {
        [id] => Ok(Action::Delete {
            id: id_in(alloc, id)?,
        }),
        _ => Err(wrong_count(words, 1)),
    }
}

fn new_in<'a>(words: &[&'a str]) -> Result<Action, WordsFault<'a>>
    ensures ok { IfOk result (λ action. new_in (map (λ word. word.now) words.now) ≡ Some action) }
    ensures refused { IfErr result (λ fault. new_in (map (λ word. word.now) words.now) ≡ None) }
{
    match words {
        [] => Ok(Action::New),
        _ => Err(wrong_count(words, 0)),
    }
}

fn action_named<'a>(
    alloc: Global,
    name: &'a str,
    words: &[&'a str],
) -> Result<Action, WordsFault<'a>>
    ensures ok { IfOk result (λ action. action_named name.now (map (λ word. word.now) words.now) ≡ Some action) }
    ensures refused { IfErr result (λ fault. AsksNothing fault → action_named name.now (map (λ word. word.now) words.now)
        ≡ None) }
{
    match name {
        "new" => new_in(words),
        "bookmark" => bookmark_in(alloc, words),
        "folder" => folder_in(alloc, words),
        "separator" => separator_in(alloc, words),
        "rename" => rename_in(alloc, words),
        "move" => move_in(alloc, words),
        "delete" => delete_in(alloc, words),
        _ => Err(WordsFault::at(Cause::Action, name)),
    }
}

/// The action that the words behind `edit` name.
#[tactic(auto, unfolding(crate::specs::Actions::action_in))]
pub(crate) fn action_in<'a>(alloc: Global, words: &[&'a str]) -> Result<Action, WordsFault<'a>>
    ensures ok { IfOk result (λ action. action_in (map (λ word. word.now) words.now) ≡ Some action) }
    ensures refused { IfErr result (λ fault. AsksNothing fault → action_in (map (λ word. word.now) words.now) ≡ None) }
{
    match words {
        [] => Err(WordsFault::missing(Cause::TooFew)),
        [name, others @ ..] => action_named(alloc, name, others),
    }
}
