//! What is said of words that ask nothing: what is wrong with them, and where the help is.

use crate::positionals::{form_of, numbers_of, numbers_taken, positionals};
use ss_words::{Cause, Name, OptionName, Refusal};
use std::alloc::{AllocError, Global};
use std::fmt::Write;

/// Of a wrong word so many characters are shown.
const MOST_SHOWN: usize = 60;

/// A text as it is shown, up to so many characters: with a question mark in the place of each that can't be printed.
fn cut(alloc: Global, text: &str, most: usize) -> Result<String, AllocError> {
    let mut shown = String::new(alloc);
    for character in text.chars().take(most) {
        shown.push(if character.is_control() {
            '?'
        } else {
            character
        })?;
    }
    if text.chars().nth(most).is_some() {
        shown.push_str(" ..")?;
    }
    Ok(shown)
}

/// A name as it is shown: whole, with a question mark in the place of each character that can't be printed.
pub fn shown(alloc: Global, name: &str) -> Result<String, AllocError> {
    cut(alloc, name, usize::MAX)
}

/// Whether a word asks for a text of the program about itself.
fn asks_for_text(word: &str) -> bool {
    word == "--help" || word == "--version"
}

/// The first of words that comes again.
fn doubled_in<'a>(words: &[&'a str]) -> Option<&'a str> {
    match words {
        [] => None,
        [word, others @ ..] => if others.contains(word) {
            Some(*word)
        } else {
            doubled_in(others)
        },
    }
}

/// The words of a command that were refused.
#[derive(Drop)]
struct WrongWords<'a> {
    name: Name,
    words: &'a [String],
    positionals: Vec<&'a str>,
}

impl<'a> WrongWords<'a> {
    /// How these words are to be written.
    fn form(&self) -> &'static str {
        form_of(self.name, self.positionals.as_slice())
    }

    /// What is missing.
    fn missing(&self, alloc: Global) -> Result<String, AllocError> {
        let form = self.form();
        match form.split(' ').skip(1).nth(self.positionals.len()) {
            Some(name) => format!(in alloc; "{name} is missing: {form}"),
            None => format!(in alloc; "a word is missing: {form}"),
        }
    }

    /// What there is too much of.
    fn too_many(&self, alloc: Global) -> Result<String, AllocError> {
        let form = self.form();
        match self.name {
            Name::Serve => String::from_str(alloc, "more than 8 accounts"),
            Name::Edit => format!(in alloc;
                "one word too many: {form}; a title of several words stands in quotes"
            ),
            _ => format!(in alloc; "one word too many: {form}"),
        }
    }

    /// The account that stands there twice.
    fn doubled(&self, alloc: Global) -> Result<String, AllocError> {
        let doubled = match self.positionals.as_slice() {
            [_address, _folder, accounts @ ..] => doubled_in(accounts),
            _ => None,
        };
        match doubled {
            Some(account) => format!(in alloc; "account {account} stands there twice"),
            None => String::from_str(alloc, "an account stands there twice"),
        }
    }

    /// Where a word that begins with a dash may stand.
    fn dashed(&self, alloc: Global) -> Result<String, AllocError> {
        match self.name {
            Name::Edit => String::from_str(
                alloc,
                "no such option of this command; behind -- words may begin with -, as in: edit -- rename ID -TITLE",
            ),
            _ => String::from_str(
                alloc,
                "no such option of this command; a word that begins with - and is none stands behind --",
            ),
        }
    }

    /// What is wrong.
    fn reason(&self, alloc: Global, refusal: Refusal<'_>) -> Result<String, AllocError> {
        let word = refusal.word.unwrap_or("");
        match refusal.cause {
            Cause::TooFew => self.missing(alloc),
            Cause::TooMany => self.too_many(alloc),
            Cause::SameAccount => self.doubled(alloc),
            Cause::NoOption => self.dashed(alloc),
            Cause::Number => String::from_str(
                alloc,
                numbers_taken(self.name, self.positionals.as_slice(), self.words, word),
            ),
            Cause::NoValue => self.unvalued(alloc, word),
            Cause::Action => String::from_str(
                alloc,
                "no such action: edit takes new, bookmark, folder, separator, rename, move or delete",
            ),
            Cause::Url if word.starts_with("https:") => String::from_str(
                alloc,
                "sync speaks http alone, as http://host:port/1.5/UID",
            ),
            cause => format!(in alloc; "{cause}"),
        }
    }

    /// Which value is missing.
    fn unvalued(&self, alloc: Global, option: &str) -> Result<String, AllocError> {
        match OptionName::read(option) {
            Some(option) => format!(in alloc; "its value is missing: {}", numbers_of(option)),
            None => String::from_str(alloc, "its value is missing"),
        }
    }
}

/// Whether a word has two or more characters and begins with a dash.
fn is_dashed(word: &str) -> bool {
    matches!(word.as_bytes(), [b'-', _, ..])
}

/// Why the words of `dump` and `restore` ask for neither.
pub fn refusal_of_move(words: &[String]) -> Refusal<'_> {
    let (cause, word) = match words {
        [] | [_] | [_, _] => (Cause::TooFew, None),
        [_, folder, _] if is_dashed(folder.as_str()) => (Cause::NoOption, Some(folder.as_str())),
        [_, _, number] => (Cause::Account, Some(number.as_str())),
        [_, .., last] => (Cause::TooMany, Some(last.as_str())),
    };
    Refusal { cause, word }
}

/// What is wrong with the words of a command, or with words that name none.
fn reason(
    alloc: Global,
    name: Option<Name>,
    words: &[String],
    refusal: Refusal<'_>,
) -> Result<String, AllocError> {
    let Some(name) = name else {
        return match refusal.word {
            Some(_) => format!(in alloc; "{}", refusal.cause),
            None => String::from_str(alloc, "no command is named"),
        };
    };
    let positionals = positionals(alloc, words)?;
    let wrong = WrongWords {
        name,
        words,
        positionals,
    };
    wrong.reason(alloc, refusal)
}

/// What is wrong with words, at which word, and where the help is.
pub fn refused(
    alloc: Global,
    words: &[String],
    refusal: Refusal<'_>,
) -> Result<String, AllocError> {
    let mut text = String::from_str(alloc, "syncstore: ")?;
    if let Some(word) = refusal.word {
        write!(text, "`{}`: ", cut(alloc, word, MOST_SHOWN)?)?;
    }
    let name = match words.first() {
        Some(word) => Name::read(word.as_str()),
        None => None,
    };
    match refusal.word {
        Some(word) if asks_for_text(word) => {
            text.push_str("it stands alone, or with the name of one command")?
        }
        _ => text.push_str(reason(alloc, name, words, refusal)?.as_str())?,
    }
    match name {
        Some(name) => write!(text, "; try syncstore {} --help", name.text())?,
        None => text.push_str("; try syncstore --help")?,
    }
    Ok(text)
}
