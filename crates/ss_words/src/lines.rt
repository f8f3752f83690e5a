//! The words behind a command's name, read into positionals and options.

ghost use Rattle.std.specs.Prelude.{◌≡◌, Some, None, map, string_bytes, IfOk, IfErr};
ghost use Rattle.std.specs.Option.{option_copied};
ghost use Rattle.ss_words.specs.Refused.{AsksNothing};
ghost use Rattle.ss_words.specs.Lines.{is_dashed, IsLine, Line};
ghost use Rattle.ss_words.specs.Names.{has_value, option_of};
ghost use Rattle.ss_words.specs.Reading.{at, with_positional, with_option, empty_line, key_of, value_in};
ghost use Rattle.ss_words.specs.Reading.{option_reading, dash_reading, between, step};

use crate::names::{Name, OptionName};
use crate::refusals::{Cause, WordsFault};
use std::alloc::{AllocError, Global};
use std::marker::Model;

/// Where in a line a word stands.
#[derive(Clone, Copy, Debug, PartialEq, Eq)]
pub enum Place {
    /// Between two pieces.
    Between,

    /// In the place of this option's value.
    Value(OptionName),

    /// Behind `--`.
    Behind,
}

/// The positionals of a line in order, and its options with their values in order.
#[derive(Drop)]
pub(crate) struct Line<'a> {
    positionals: Vec<&'a str>,
    options: Vec<(OptionName, &'a str)>,
}

impl<'a> Model for Line<'a> {
    ghost use Rattle.std.specs.Prelude.{map};
    ghost use Rattle.ss_words.specs.Lines.{Line};

    ghost Value = { Line };

    ghost view = { λ l. record { positionals = map (λ word. word.now) l.positionals.items; options = map (λ given. (given.0, given.1.now)) l.options.items } };
}

/// Whether a word has two or more characters and begins with a dash.
fn is_dashed(word: &str) -> bool
    ensures { result ≡ is_dashed word.now }
{
    matches!(word.as_bytes(), [b'-', _, ..])
}

impl<'a> Line<'a> {
    fn new(alloc: Global) -> Line<'a>
        ensures { result ≡ empty_line }
    {
        Line {
            positionals: Vec::new(alloc),
            options: Vec::new(alloc),
        }
    }

    /// The positionals, in order.
    pub(crate) fn positionals(&self) -> &[&'a str]
        ensures { map (λ word. word.now) result.now ≡ self.now.positionals }
    {
        self.positionals.as_slice()
    }

    /// The options with their values, in order; the value of an option without one is empty.
    pub(crate) fn options(&self) -> &[(OptionName, &'a str)]
        ensures { map (λ given. (given.0, given.1.now)) result.now ≡ self.now.options }
    {
        self.options.as_slice()
    }

    fn push(&mut self, word: &'a str) -> Result<(), AllocError>
        ensures { IfOk result (λ _. self.new ≡ with_positional self.old word.now) }
    {
        self.positionals.push(word)?;
        Ok(())
    }

    fn give(&mut self, option: OptionName, value: &'a str) -> Result<(), AllocError>
        ensures { IfOk result (λ _. self.new ≡ with_option self.old option value.now) }
    {
        self.options.push((option, value))?;
        Ok(())
    }

    /// Takes an option, with the value that its word has.
    fn take_option(
        &mut self,
        option: OptionName,
        word: &'a str,
        value: Option<&'a str>,
    ) -> Result<Place, WordsFault<'a>>
        ensures ok { IfOk result (λ place. option_reading self.old option (has_value option) (option_copied value.entry)
            ≡ Some (at place self.new)) }
        ensures refused { IfErr result (λ fault. AsksNothing fault → option_reading self.old option (has_value option)
            (option_copied value.entry) ≡ None) }
    {
        match (option.has_value(), value) {
            (true, None) => Ok(Place::Value(option)),
            (true, Some(value)) => {
                self.give(option, value)?;
                Ok(Place::Between)
            }
            (false, None) => {
                self.give(option, "")?;
                Ok(Place::Between)
            }
            (false, Some(_)) => Err(WordsFault::at(Cause::Valued, word)),
        }
    }

    /// Takes a word that begins with a dash.
    fn take_dashed(&mut self, name: Name, word: &'a str) -> Result<Place, WordsFault<'a>>
        ensures ok { IfOk result (λ place. dash_reading name self.old word.now (option_of (key_of word.now))
            ≡ Some (at place self.new)) }
        ensures refused { IfErr result (λ fault. AsksNothing fault → dash_reading name self.old word.now
            (option_of (key_of word.now)) ≡ None) }
    {
        let (key, value) = cut(word);
        match OptionName::read(key) {
            Some(option) if name.takes(option) => self.take_option(option, word, value),
            _ => Err(WordsFault::at(Cause::NoOption, word)),
        }
    }

    /// Takes a word that stands between two pieces.
    fn take_between(&mut self, name: Name, word: &'a str) -> Result<Place, WordsFault<'a>>
        ensures ok { IfOk result (λ place. between name self.old word.now ≡ Some (at place self.new)) }
        ensures refused { IfErr result (λ fault. AsksNothing fault → between name self.old word.now ≡ None) }
    {
        if word == "--" {
            Ok(Place::Behind)
        } else if is_dashed(word) {
            self.take_dashed(name, word)
        } else {
            self.push(word)?;
            Ok(Place::Between)
        }
    }

    /// Takes the next word, which stands at this place.
    fn take(&mut self, name: Name, place: Place, word: &'a str) -> Result<Place, WordsFault<'a>>
        ensures ok { IfOk result (λ next. step name place self.old word.now ≡ Some (at next self.new)) }
        ensures refused { IfErr result (λ fault. AsksNothing fault → step name place self.old word.now ≡ None) }
    {
        match place {
            Place::Between => self.take_between(name, word),
            Place::Value(option) => {
                if is_dashed(word) {
                    return Err(WordsFault::at(Cause::NoValue, option.text()));
                }
                self.give(option, word)?;
                Ok(Place::Between)
            }
            Place::Behind => {
                self.push(word)?;
                Ok(Place::Behind)
            }
        }
    }
}

/// What stands before the first `=` of a word, and where there is one what stands behind it.
fn cut(word: &str) -> (&str, Option<&str>)
    ensures key { result.0.now ≡ key_of word.now }
    ensures value { option_copied result.1 ≡ value_in word.now }
{
    match word.split_once('=') {
        Some((key, value)) => (key, Some(value)),
        None => (word, None),
    }
}

/// The line that the words behind the name of a command write.
pub(crate) fn read_line<'a>(
    alloc: Global,
    name: Name,
    words: &'a [String],
) -> Result<Line<'a>, WordsFault<'a>>
    ensures ok { IfOk result (λ line. IsLine name (map (λ word. string_bytes word) words.now) line) }
    ensures refused { IfErr result (λ fault. AsksNothing fault → (line : Line)
        → IsLine name (map (λ word. string_bytes word) words.now) line → ⊥) }
{
    let mut line = Line::new(alloc);
    let mut place = Place::Between;
    for word in words {
        place = match line.take(name, place, word.as_str()) {
            Ok(next) => next,
            Err(fault) => return Err(fault),
        };
    }
    match place {
        Place::Between | Place::Behind => Ok(line),
        Place::Value(option) => Err(WordsFault::at(Cause::NoValue, option.text())),
    }
}
