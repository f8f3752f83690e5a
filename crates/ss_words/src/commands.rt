//! The commands, and the words that ask them.

ghost use Rattle.std.specs.Prelude.{◌≡◌, ◌≤◌, Some, None, map, string_bytes, IfOk, IfErr, IfSome, IsTrue, IsFalse};
ghost use Rattle.std.specs.Option.{option_copied};
ghost use Rattle.ss_town.specs.Limits.{most_connections, most_workers};
ghost use Rattle.ss_words.specs.Refused.{AsksNothing};
ghost use Rattle.ss_words.specs.Commands.{answer_in, answer_words, edit_in, merge_words, rehearse_words, sync_in};
ghost use Rattle.ss_words.specs.Commands.{sync_words, manner_of, most_from, logs_of, logs_in, serve_in, serve_words};
ghost use Rattle.ss_words.specs.Commands.{command_in, IsAddress, HasAddress, HasNumber, HasRange, AsksOf, Asks};

use crate::actions::{Action, action_in, wrong_count};
use crate::lines::{Line, read_line};
use crate::names::{Name, OptionName};
use crate::refusals::{Cause, WordsFault};
use crate::urls::{Server, read_server};
use crate::values::{Uids, accounts_in, copied, given, number_given, number_in, uid_in};
use ss_route::Manner;
use ss_text::Word;
use ss_town::limits::{MOST_CONNECTIONS, MOST_WORKERS};
use std::alloc::{AllocError, Global};
use std::net::SocketAddrV4;

/// The greatest number of 12 digits.
const MOST: u64 = 999_999_999_999;

/// The greatest number of the first term whose logs are kept.
const MOST_FROM: u64 = 999_999;

/// `answer UID [--at N]`
#[derive(Drop, Debug)]
pub struct AnswerCommand {
    /// The account's number.
    pub uid: u32,

    /// The first reading of the clock, in hundredths of a second, from which it counts upwards; None is the clock that
    /// is handed in.
    pub at: Option<u64>,
}

/// `edit ACTION .. [--at N]`
#[derive(Drop, Debug)]
pub struct EditCommand {
    pub action: Action,

    /// The time of the change, in hundredths of a second; None is the reading of the clock that is handed in.
    pub at: Option<u64>,
}

/// `rehearse N S`
#[derive(Drop, Debug)]
pub struct RehearseCommand {
    /// How many items: 1 to 15,000.
    pub items: u64,

    /// What the random choices begin from: up to 999,999,999,999.
    pub seed: u64,
}

/// `sync URL FILE [--newer]`
#[derive(Drop, Debug)]
pub struct SyncCommand {
    pub server: Server,

    /// The name of the device's file.
    pub file: Word,

    /// Whether only what is newer is fetched.
    pub newer: bool,
}

/// The folder that keeps the logs of a server's terms, and the number of the first term.
#[derive(Drop, Debug)]
pub struct LogFolder {
    /// The name of the folder, which isn't empty.
    pub folder: Word,

    /// 1 to 999,999, 1 where nothing is said.
    pub from: u64,
}

/// `serve ADDRESS FOLDER UID .. [--workers N] [--connections N] [--terms N] [--firefox] [--journal FOLDER [--from N]]`
#[derive(Drop, Debug)]
pub struct ServeCommand {
    /// An IPv4 address, a colon and a port, whose numbers have no leading zero.
    pub address: Word,

    /// The folder that holds `<uid>.db` for each account.
    pub folder: Word,

    /// 1 to 8 accounts, none twice.
    pub uids: Uids,

    /// 1 to 16, 4 where nothing is said.
    pub workers: u64,

    /// Of one term: 1 to 1,000, 100 where nothing is said.
    pub connections: u64,

    /// 0, which is the default, means without end.
    pub terms: u64,

    /// How conditions are read: as browsers mean them with `--firefox`, else by the letter of the API.
    pub manner: Manner,

    /// Where the logs of terms are kept, if they are.
    pub logs: Option<LogFolder>,
}

/// What words ask.
#[derive(Drop, Debug)]
pub enum Command {
    Answer(AnswerCommand),
    Edit(EditCommand),
    Merge,
    Rehearse(RehearseCommand),
    Sync(SyncCommand),
    Serve(ServeCommand),
}

#[tactic(auto, unfolding(crate::specs::Commands::answer_in))]
fn answer_in<'a>(line: &Line<'a>) -> Result<Command, WordsFault<'a>>
    ensures ok { IfOk result (λ command. answer_in line.now ≡ Some command) }
    ensures range { IfOk result HasRange }
    ensures refused { IfErr result (λ fault. answer_in line.now ≡ None) }
{
    let at = number_given(line, OptionName::At, 0, MOST)?;
    match line.positionals() {
        [uid] => Ok(Command::Answer(AnswerCommand {
            uid: uid_in(uid)?,
            at,
        })),
        words => Err(wrong_count(words, 1)),
    }
}

#[tactic(auto, unfolding(crate::specs::Commands::edit_in))]
fn edit_in<'a>(alloc: Global, line: &Line<'a>) -> Result<Command, WordsFault<'a>>
    ensures ok { IfOk result (λ command. edit_in line.now ≡ Some command) }
    ensures range { IfOk result HasRange }
    ensures refused { IfErr result (λ fault. AsksNothing fault → edit_in line.now ≡ None) }
{
    let at = number_given(line, OptionName::At, 0, MOST)?;
    let action = action_in(alloc, line.positionals())?;
    Ok(Command::Edit(EditCommand { action, at }))
}

fn merge_in<'a>(line: &Line<'a>) -> Result<Command, WordsFault<'a>>
    ensures ok { IfOk result (λ command. merge_words line.now.positionals ≡ Some command) }
    ensures range { IfOk result HasRange }
    ensures refused { IfErr result (λ fault. merge_words line.now.positionals ≡ None) }
{
    match line.positionals() {
        [] => Ok(Command::Merge),
        words => Err(wrong_count(words, 0)),
    }
}

fn rehearse_in<'a>(line: &Line<'a>) -> Result<Command, WordsFault<'a>>
    ensures ok { IfOk result (λ command. rehearse_words line.now.positionals ≡ Some command) }
    ensures range { IfOk result HasRange }
    ensures refused { IfErr result (λ fault. rehearse_words line.now.positionals ≡ None) }
{
    match line.positionals() {
        [items, seed] => Ok(Command::Rehearse(RehearseCommand {
            items: number_in(items, 1, 15_000)?,
            seed: number_in(seed, 0, MOST)?,
        })),
        words => Err(wrong_count(words, 2)),
    }
}

#[tactic(auto, unfolding(crate::specs::Commands::sync_in))]
fn sync_in<'a>(alloc: Global, line: &Line<'a>) -> Result<Command, WordsFault<'a>>
    ensures ok { IfOk result (λ command. sync_in line.now ≡ Some command) }
    ensures range { IfOk result HasRange }
    ensures refused { IfErr result (λ fault. AsksNothing fault → sync_in line.now ≡ None) }
{
    let newer = given(line, OptionName::Newer)?.is_some();
    match line.positionals() {
        [url, file] => Ok(Command::Sync(SyncCommand {
            server: read_server(alloc, url)?,
            file: copied(alloc, file)?,
            newer,
        })),
        words => Err(wrong_count(words, 2)),
    }
}

/// The numbers of a server: of its workers, of the connections of one term, and of its terms.
#[derive(Clone, Copy)]
struct Sizes {
    workers: u64,
    connections: u64,
    terms: u64,
}

/// How a server reads conditions, by the option `--firefox`.
fn manner_of(firefox: Option<&str>) -> Manner
    ensures { result ≡ manner_of (option_copied firefox.entry) }
{
    match firefox {
        None => Manner::Profile,
        Some(_) => Manner::Browser,
    }
}

/// A folder of logs, by what `--journal` and `--from` say.
fn log_folder<'a>(
    alloc: Global,
    folder: &'a str,
    from: Option<u64>,
) -> Result<LogFolder, WordsFault<'a>>
    requires { IfSome from (λ from. (1 ≤ from) × (from ≤ most_from)) }
    ensures ok { IfOk result (λ logs. logs_of (Some folder.now) from ≡ Some (Some logs)) }
    ensures range { IfOk result HasNumber }
    ensures refused { IfErr result (λ fault. AsksNothing fault → logs_of (Some folder.now) from ≡ None) }
{
    if folder.is_empty() {
        return Err(WordsFault::at(Cause::NoValue, OptionName::Journal.text()));
    }
    Ok(LogFolder {
        folder: copied(alloc, folder)?,
        from: from.unwrap_or(1),
    })
}

/// Where the logs of terms are kept, by `--journal` and `--from`.
#[tactic(auto, unfolding(crate::specs::Commands::logs_in))]
fn logs_in<'a>(alloc: Global, line: &Line<'a>) -> Result<Option<LogFolder>, WordsFault<'a>>
    ensures ok { IfOk result (λ logs. logs_in line.now ≡ Some logs) }
    ensures range { IfOk result (λ logs. IfSome logs HasNumber) }
    ensures refused { IfErr result (λ fault. AsksNothing fault → logs_in line.now ≡ None) }
{
    let from = number_given(line, OptionName::From, 1, MOST_FROM)?;
    match (given(line, OptionName::Journal)?, from) {
        (Some(folder), from) => Ok(Some(log_folder(alloc, folder, from)?)),
        (None, Some(_)) => Err(WordsFault::at(Cause::NoJournal, OptionName::From.text())),
        (None, None) => Ok(None),
    }
}

fn serve_words<'a>(
    alloc: Global,
    sizes: Sizes,
    manner: Manner,
    logs: Option<LogFolder>,
    words: &[&'a str],
) -> Result<Command, WordsFault<'a>>
    requires workers { (1 ≤ sizes.workers) × (sizes.workers ≤ most_workers) }
    requires connections { (1 ≤ sizes.connections) × (sizes.connections ≤ most_connections) }
    requires terms { sizes.terms ≤ 999999999999 }
    requires logs { IfSome logs HasNumber }
    ensures ok { IfOk result (λ command. serve_words sizes.workers sizes.connections sizes.terms
        manner logs (map (λ word. word.now) words.now) ≡ Some command) }
    ensures range { IfOk result HasRange }
    ensures refused { IfErr result (λ fault. AsksNothing fault → serve_words sizes.workers sizes.connections sizes.terms
        manner logs (map (λ word. word.now) words.now) ≡ None) }
{
    match words {
        [address, folder, uids @ ..] => Ok(Command::Serve(ServeCommand {
            address: copied(alloc, address)?,
            folder: copied(alloc, folder)?,
            uids: accounts_in(alloc, uids)?,
            workers: sizes.workers,
            connections: sizes.connections,
            terms: sizes.terms,
            manner,
            logs,
        })),
        _ => Err(WordsFault::missing(Cause::TooFew)),
    }
}

#[tactic(auto, unfolding(crate::specs::Commands::serve_in))]
fn serve_in<'a>(alloc: Global, line: &Line<'a>) -> Result<Command, WordsFault<'a>>
    ensures ok { IfOk result (λ command. serve_in line.now ≡ Some command) }
    ensures range { IfOk result HasRange }
    ensures refused { IfErr result (λ fault. AsksNothing fault → serve_in line.now ≡ None) }
{
    let workers = number_given(line, OptionName::Workers, 1, MOST_WORKERS)?;
    let connections = number_given(line, OptionName::Connections, 1, MOST_CONNECTIONS)?;
    let terms = number_given(line, OptionName::Terms, 0, MOST)?;
    let manner = manner_of(given(line, OptionName::Firefox)?);
    let logs = logs_in(alloc, line)?;
    let sizes = Sizes {
        workers: workers.unwrap_or(4),
        connections: connections.unwrap_or(100),
        terms: terms.unwrap_or(0),
    };
    serve_words(alloc, sizes, manner, logs, line.positionals())
}

fn command_in<'a>(alloc: Global, name: Name, line: &Line<'a>) -> Result<Command, WordsFault<'a>>
    ensures ok { IfOk result (λ command. command_in name line.now ≡ Some command) }
    ensures range { IfOk result HasRange }
    ensures refused { IfErr result (λ fault. AsksNothing fault → command_in name line.now ≡ None) }
{
    match name {
        Name::Answer => answer_in(line),
        Name::Edit => edit_in(alloc, line),
        Name::Merge => merge_in(line),
        Name::Rehearse => rehearse_in(line),
        Name::Sync => sync_in(alloc, line),
        Name::Serve => serve_in(alloc, line),
    }
}

/// Whether a text is an IPv4 address, a colon and a port, as they are written: a port that is read may have zeros at its
/// front.
fn is_address(alloc: Global, text: &str) -> Result<bool, AllocError>
    ensures yes { IfOk result (λ is. IsTrue is → IsAddress text.now) }
    ensures no { IfOk result (λ is. IsFalse is → IsAddress text.now → ⊥) }
{
    match SocketAddrV4::parse_ascii(text.as_bytes()) {
        Ok(address) => Ok(address.to_string(alloc)?.as_str() == text),
        Err(_) => Ok(false),
    }
}

/// Whether the address of a server is one.
fn has_address(alloc: Global, command: &Command) -> Result<bool, AllocError>
    ensures yes { IfOk result (λ has. IsTrue has → HasAddress command.now) }
    ensures no { IfOk result (λ has. IsFalse has → HasAddress command.now → ⊥) }
{
    match command {
        Command::Serve(serve) => is_address(alloc, serve.address.as_str()),
        Command::Answer(_)
        | Command::Edit(_)
        | Command::Merge
        | Command::Rehearse(_)
        | Command::Sync(_) => Ok(true),
    }
}

/// What the words behind the name of a command ask.
fn read_named<'a>(alloc: Global, name: Name, words: &'a [String]) -> Result<Command, WordsFault<'a>>
    ensures range { IfOk result HasRange }
    ensures ok { IfOk result (λ command. AsksOf name (map (λ word. string_bytes word) words.now) command) }
    ensures refused { IfErr result (λ fault. AsksNothing fault → (command : Command)
        → AsksOf name (map (λ word. string_bytes word) words.now) command → ⊥) }
{
    let line = match read_line(alloc, name, words) {
        Ok(line) => line,
        Err(fault) => return Err(fault),
    };
    let command = match command_in(alloc, name, &line) {
        Ok(command) => command,
        Err(fault) => return Err(fault),
    };
    if has_address(alloc, &command)? {
        Ok(command)
    } else {
        match line.positionals().first() {
            Some(word) => Err(WordsFault::at(Cause::Address, word)),
            None => Err(WordsFault::missing(Cause::Address)),
        }
    }
}

/// What the words ask; the first is the command's name. `Refused` comes exactly where they ask nothing.
pub fn read_command<'a>(alloc: Global, words: &'a [String]) -> Result<Command, WordsFault<'a>>
    ensures range { IfOk result HasRange }
    ensures asks { IfOk result (λ command. Asks (map (λ word. string_bytes word) words.now) command) }
    ensures refused { IfErr result (λ fault. AsksNothing fault → (command : Command)
        → Asks (map (λ word. string_bytes word) words.now) command → ⊥) }
{
    match words {
        [] => Err(WordsFault::missing(Cause::NoCommand)),
        [first, others @ ..] => match Name::read(first.as_str()) {
            Some(name) => read_named(alloc, name, others),
            None => Err(WordsFault::at(Cause::NoCommand, first.as_str())),
        },
    }
}
