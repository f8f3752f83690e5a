//! The words that ask for a dump or a restore.

ghost use Rattle.std.specs.Prelude.{◌≡◌, ◌≢◌, ℕ, List, Some, None, codes, map, string_bytes, IfSome, IfNone, IsTrue};
ghost use Rattle.std.specs.Prelude.{IsFalse};
ghost use Rattle.ss_route.specs.Targets.{uid_of};
ghost use Rattle.ss_words.specs.Lines.{is_dashed};
ghost use Rattle.ss_run_move.specs.Asked.{Asks, AsksBehind, name_of};
ghost use Rattle.ss_run_move.specs.declared.words.Verb.{Verb as VerbView};

use ss_text::read_number;

/// What ends the words of a command that may begin with a dash.
const DASHES: &str = "--";

/// What is asked for.
#[derive(Clone, Copy, Debug, PartialEq, Eq)]
pub enum Verb {
    /// That an account is written as a text.
    Dump,

    /// That an account is filled from such a text.
    Restore,
}

impl Verb {
    /// The command of this name.
    #[tactic(auto, unfolding(crate::specs::Asked::name_of))]
    pub fn read(word: &str) -> Option<Verb>
        ensures is { IfSome result (λ verb. word.now ≡ name_of verb) }
        ensures all { (verb : VerbView) → word.now ≡ name_of verb → result ≡ Some verb }
    {
        match word {
            "dump" => Some(Verb::Dump),
            "restore" => Some(Verb::Restore),
            _ => None,
        }
    }
}

/// What words ask for: a dump or a restore of the account that this folder keeps under this number.
#[derive(Clone, Copy, Debug)]
pub struct MoveCommand<'a> {
    pub verb: Verb,
    pub folder: &'a str,
    pub uid: u32,
}

/// Whether a word ends those that may begin with a dash.
fn is_dashes(word: &str) -> bool
    ensures yes { IsTrue result → word.now ≡ codes "--" }
    ensures no { IsFalse result → word.now ≢ codes "--" }
{
    word == DASHES
}

/// Whether a word has two or more characters and begins with a dash.
fn is_dashed(word: &str) -> bool
    ensures { result ≡ is_dashed word.now }
{
    matches!(word.as_bytes(), [b'-', _, ..])
}

/// An account's number: 1 to 4,294,967,295 in digits without a leading zero.
#[tactic(auto, unfolding(ss_route::specs::Targets::uid_of, ss_route::specs::Targets::positive_of))]
fn uid_in(text: &[u8]) -> Option<u32>
    ensures { result ≡ uid_of text.now }
{
    if text.first() == Some(&b'0') {
        return None;
    }
    match read_number(text, 10) {
        Some(number) if number <= 4_294_967_295 => Some(number as u32),
        _ => None,
    }
}

/// A folder with the account that a word names.
fn of_folder<'a>(folder: &'a str, number: &str) -> Option<(&'a str, u32)>
    ensures folder { IfSome result (λ found. found.0.now ≡ folder.now) }
    ensures account { IfSome result (λ found. uid_of number.now ≡ Some found.1) }
    ensures none { IfNone result (uid_of number.now ≡ None) }
{
    match uid_in(number.as_bytes()) {
        Some(uid) => Some((folder, uid)),
        None => None,
    }
}

/// The folder and the account that the words behind the command's name are.
fn behind(words: &[String]) -> Option<(&str, u32)>
    ensures asks { IfSome result (λ found. AsksBehind (map (λ word. string_bytes word) words.now) found.0.now found.1) }
    ensures none { IfNone result ((folder : List ℕ) (uid : ℕ)
        → AsksBehind (map (λ word. string_bytes word) words.now) folder uid → ⊥) }
{
    match words {
        [folder, number] if !is_dashed(folder.as_str()) => of_folder(
            folder.as_str(),
            number.as_str(),
        ),
        [first, folder, number] if is_dashes(first.as_str()) => of_folder(
            folder.as_str(),
            number.as_str(),
        ),
        [folder, second, number] if !is_dashed(folder.as_str()) && is_dashes(second.as_str()) => {
            of_folder(folder.as_str(), number.as_str())
        }
        [folder, number, third] if !is_dashed(folder.as_str()) && is_dashes(third.as_str()) => {
            of_folder(folder.as_str(), number.as_str())
        }
        _ => None,
    }
}

/// The command of this name that the words behind it make.
fn with_verb(verb: Verb, words: &[String]) -> Option<MoveCommand<'_>>
    ensures verb { IfSome result (λ found. found.verb ≡ verb) }
    ensures asks { IfSome result (λ found. AsksBehind (map (λ word. string_bytes word) words.now) found.folder.now
        found.uid) }
    ensures none { IfNone result ((folder : List ℕ) (uid : ℕ)
        → AsksBehind (map (λ word. string_bytes word) words.now) folder uid → ⊥) }
{
    match behind(words) {
        Some((folder, uid)) => Some(MoveCommand { verb, folder, uid }),
        None => None,
    }
}

/// What the words ask for; None exactly where they ask for neither.
pub fn read_move(words: &[String]) -> Option<MoveCommand<'_>>
    ensures asks { IfSome result (λ found. Asks (map (λ word. string_bytes word) words.now) found.verb found.folder.now
        found.uid) }
    ensures none { IfNone result ((verb : VerbView) (folder : List ℕ) (uid : ℕ)
        → Asks (map (λ word. string_bytes word) words.now) verb folder uid → ⊥) }
{
    match words {
        [name, others @ ..] => match Verb::read(name.as_str()) {
            Some(verb) => with_verb(verb, others),
            None => None,
        },
        _ => None,
    }
}
