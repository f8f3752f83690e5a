//! The words of a command line as `--help` names them: which is missing, and which numbers are taken.

use ss_text::read_number;
use ss_words::{Name, OptionName};
use std::alloc::{AllocError, Global};

/// Whether a value belongs to an option.
fn has_value(option: OptionName) -> bool {
    !matches!(option, OptionName::Newer | OptionName::Firefox)
}

/// Whether a word begins with a dash, and isn't one.
fn is_dashed(word: &str) -> bool {
    word.starts_with('-') && word != "-"
}

/// The words behind a command's name that are neither an option, nor an option's value, nor the `--` before all others.
pub fn positionals<'a>(alloc: Global, words: &'a [String]) -> Result<Vec<&'a str>, AllocError> {
    let mut found = Vec::new(alloc);
    let mut is_value = false;
    let mut is_behind = false;
    for word in words.iter().skip(1) {
        let word = word.as_str();
        if is_behind {
            found.push(word)?;
        } else if is_value {
            is_value = false;
        } else if word == "--" {
            is_behind = true;
        } else if let Some(option) = OptionName::read(word) {
            is_value = has_value(option);
        } else if !is_dashed(word) {
            found.push(word)?;
        }
    }
    Ok(found)
}

/// The value of an option, where these words have it.
pub fn value_of<'a>(words: &'a [String], option: OptionName) -> Option<&'a str> {
    let mut is_next = false;
    for word in words {
        if is_next {
            return Some(word.as_str());
        }
        match word.as_str().split_once('=') {
            Some((key, value)) if key == option.text() => return Some(value),
            _ => {
                is_next = word.as_str() == option.text();
            }
        }
    }
    None
}

/// How the words of an action of `edit` are written.
fn form_of_action(action: &str) -> &'static str {
    match action {
        "new" => "edit new",
        "bookmark" => "edit bookmark PARENT ID TITLE URI",
        "folder" => "edit folder PARENT ID TITLE",
        "separator" => "edit separator PARENT ID",
        "rename" => "edit rename ID TITLE",
        "move" => "edit move ID PARENT",
        "delete" => "edit delete ID",
        _ => "edit ACTION ..",
    }
}

/// How the words of a command are written, without its options.
pub fn form_of(name: Name, positionals: &[&str]) -> &'static str {
    match (name, positionals) {
        (Name::Answer, _) => "answer UID",
        (Name::Merge, _) => "merge",
        (Name::Rehearse, _) => "rehearse N S",
        (Name::Sync, _) => "sync URL FILE",
        (Name::Serve, _) => "serve ADDRESS FOLDER UID ..",
        (Name::Edit, [action, ..]) => form_of_action(action),
        (Name::Edit, []) => form_of_action(""),
    }
}

/// What an option takes: which numbers, or what kind of name.
pub fn numbers_of(option: OptionName) -> &'static str {
    match option {
        OptionName::Workers => "--workers takes a number from 1 to 16",
        OptionName::Connections => "--connections takes a number from 1 to 1000",
        OptionName::Terms => "--terms takes a number from 0 to 999999999999",
        OptionName::From => "--from takes a number from 1 to 999999",
        OptionName::Journal => "--journal takes the name of a folder",
        _ => "--at takes a number from 0 to 999999999999",
    }
}

/// Whether a word is a number of bookmarks that `rehearse` takes.
fn is_rehearsed(word: &str) -> bool {
    match read_number(word.as_bytes(), 12) {
        Some(number) => 1 <= number && number <= 15_000,
        None => false,
    }
}

/// The numbers that `serve` takes where this word stands as an option's value.
fn numbers_served(words: &[String], word: &str) -> &'static str {
    for option in [
        OptionName::Workers,
        OptionName::Connections,
        OptionName::From,
    ] {
        if value_of(words, option) == Some(word) {
            return numbers_of(option);
        }
    }
    numbers_of(OptionName::Terms)
}

/// The numbers that a command takes where this word stands, which is none of them.
pub fn numbers_taken(
    name: Name,
    positionals: &[&str],
    words: &[String],
    word: &str,
) -> &'static str {
    match (name, positionals) {
        (Name::Rehearse, [first, ..]) if is_rehearsed(first) => {
            "S is a number from 0 to 999999999999"
        }
        (Name::Rehearse, _) => "N is a number from 1 to 15000",
        (Name::Serve, _) => numbers_served(words, word),
        _ => numbers_of(OptionName::At),
    }
}
