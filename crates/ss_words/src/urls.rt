//! The URL of an account, as a client is given it.

ghost use Rattle.std.specs.Prelude.{◌≡◌, option_map, Some, None, IfOk, IfErr, IfSome};
ghost use Rattle.url.specs.Parts.{Parts};
ghost use Rattle.ss_words.specs.Refused.{AsksNothing};
ghost use Rattle.ss_words.specs.Urls.{behind_version, without_slash, uid_in_path, server_in, server_of, HasHost};
ghost use Rattle.ss_route.specs.Targets.{uid_of};

use crate::refusals::{Cause, WordsFault};
use crate::values::{copied, read_uid};
use ss_text::Word;
use std::alloc::{AllocError, Global};
use url::{ParseError, Url};

/// The longest host, in bytes.
const LONGEST_HOST: usize = 1024;

/// A server, and an account of it.
#[derive(Drop, Debug)]
pub struct Server {
    pub uid: u32,

    /// As the URL Standard writes it.
    pub host: Word,
    pub port: u16,
}

/// What stands behind the version of the API in a path.
fn behind_version(path: &str) -> Option<&str>
    ensures { option_map (λ rest. rest.now) result ≡ behind_version path.now }
{
    path.strip_prefix("/1.5/")
}

/// A text without one slash at its end.
fn without_slash(text: &[u8]) -> &[u8]
    ensures { result.now ≡ without_slash text.now }
{
    match text {
        [front @ .., b'/'] => front,
        _ => text,
    }
}

/// The account of the path `/1.5/<uid>`, with or without a slash at its end.
fn uid_in_path(path: &str) -> Option<u32>
    ensures { result ≡ uid_in_path path.now }
{
    match behind_version(path) {
        Some(rest) => read_uid(without_slash(rest.as_bytes())),
        None => None,
    }
}

/// The server of a URL that was read.
fn server_in(alloc: Global, url: &Url) -> Result<Option<Server>, AllocError>
    ensures server { IfOk result (λ server. server ≡ server_in url.now) }
    ensures host { IfOk result (λ server. IfSome server HasHost) }
{
    let Some(host) = url.host_str() else {
        return Ok(None);
    };
    if url.scheme() != "http" || url.query().is_some() || host.len() > LONGEST_HOST {
        return Ok(None);
    }
    match uid_in_path(url.path()) {
        None => Ok(None),
        Some(uid) => Ok(Some(Server {
            uid,
            host: copied(alloc, host)?,
            port: url.port().unwrap_or(80),
        })),
    }
}

/// The server that a URL names.
#[tactic(auto, unfolding(crate::specs::Urls::server_of))]
pub(crate) fn read_server<'a>(alloc: Global, word: &'a str) -> Result<Server, WordsFault<'a>>
    ensures ok { IfOk result (λ server. server_of word.now ≡ Some server) }
    ensures host { IfOk result HasHost }
    ensures refused { IfErr result (λ fault. AsksNothing fault → server_of word.now ≡ None) }
{
    match Url::parse(alloc, word) {
        Ok(url) => match server_in(alloc, &url) {
            Ok(Some(server)) => Ok(server),
            Ok(None) => Err(WordsFault::at(Cause::Url, word)),
            Err(_) => Err(WordsFault::Memory),
        },
        Err(ParseError::OutOfMemory | ParseError::Overflow) => Err(WordsFault::Memory),
        Err(_) => Err(WordsFault::at(Cause::Url, word)),
    }
}
