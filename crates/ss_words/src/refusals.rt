//! Why words ask nothing.

ghost use Rattle.std.specs.Prelude.{◌≡◌};

use std::alloc::AllocError;
use std::convert::From;
use std::fmt::{self, Display, Formatter, Write};

/// What is wrong with the words.
#[derive(Clone, Copy, Debug, PartialEq, Eq)]
pub enum Cause {
    /// No word names a command, or the first one isn't a command's name.
    NoCommand,

    /// A word that begins with a dash is no option of the command.
    NoOption,

    /// A value stands behind an option that has none.
    Valued,

    /// The option's value is missing.
    NoValue,

    /// The option stands there twice.
    Twice,

    /// The option's value, or a positional, is no number of its range.
    Number,

    /// There are too few words.
    TooFew,

    /// There are words too many, or the list of accounts is too long.
    TooMany,

    /// The word names no account: a number from 1 to 4,294,967,295 without a leading zero.
    Account,

    /// An account stands there twice.
    SameAccount,

    /// The word is no action of `edit`.
    Action,

    /// The word is no id of a record.
    Id,

    /// The word is no URL of an account.
    Url,

    /// The word is no IPv4 address with a port, in numbers without a leading zero.
    Address,

    /// The number of the first logs stands there, and no folder that keeps them.
    NoJournal,
}

/// Why words ask nothing, with the word at which that was seen.
#[derive(Clone, Copy, Debug)]
pub struct Refusal<'a> {
    pub cause: Cause,

    /// None where a word is missing, an account is named twice, or there are more than eight.
    pub word: Option<&'a str>,
}

/// Why no command was read.
#[derive(Clone, Copy, Debug)]
pub enum WordsFault<'a> {
    /// The words ask nothing.
    Refused(Refusal<'a>),

    /// Want of memory.
    Memory,
}

impl<'a> WordsFault<'a> {
    ghost use Rattle.ss_words.specs.declared.refusals.Refusal.{Refusal};
    ghost use Rattle.ss_words.specs.Refused.{AsksNothing};

    /// A refusal at this word.
    pub(crate) fn at(cause: Cause, word: &'a str) -> WordsFault<'a>
        ensures { AsksNothing result }
    {
        WordsFault::Refused(Refusal {
            cause,
            word: Some(word),
        })
    }

    /// A refusal for want of a word.
    pub(crate) fn missing(cause: Cause) -> WordsFault<'a>
        ensures { AsksNothing result }
    {
        WordsFault::Refused(Refusal { cause, word: None })
    }
}

impl<'a> From<AllocError> for WordsFault<'a> {
    ghost use Rattle.ss_words.specs.declared.refusals.WordsFault.TheVariants.{Memory};

    ghost from_gives = { λ _ fault. fault ≡ Memory };

    fn from(_: AllocError) -> WordsFault<'a> {
        WordsFault::Memory
    }
}

impl Display for Cause {
    fn fmt<W: Write>(&self, f: &mut Formatter<W>) -> fmt::Result {
        f.write_str(match self {
            Cause::NoCommand => "no such command",
            Cause::NoOption => "no such option of this command",
            Cause::Valued => "the option has no value",
            Cause::NoValue => "the option's value is missing",
            Cause::Twice => "the option stands there twice",
            Cause::Number => "not a number of 1 to 12 digits in the stated range",
            Cause::TooFew => "a word is missing",
            Cause::TooMany => "one word too many",
            Cause::Account =>
                "not an account's number, from 1 to 4294967295 without a leading zero",
            Cause::SameAccount => "the account stands there twice",
            Cause::Action => "no such action of edit",
            Cause::Id => "not an id, of 1 to 64 printable characters of ASCII",
            Cause::Url => "not the URL of an account, as http://host:port/1.5/UID",
            Cause::Address => {
                "not an IPv4 address, a colon and a port without leading zeros, as 127.0.0.1:8000"
            }
            Cause::NoJournal => "it stands only beside --journal",
        })
    }
}

impl<'a> Display for Refusal<'a> {
    fn fmt<W: Write>(&self, f: &mut Formatter<W>) -> fmt::Result {
        match self.word {
            Some(word) => write!(f, "`{word}`: {}", self.cause),
            None => write!(f, "{}", self.cause),
        }
    }
}
