//! The cases: each is a term over a fresh account, or two, one after the other.

ghost use Rattle.std.specs.Prelude.{All};
ghost use Rattle.ss_links.specs.Links.{IsUnusedLink, link_tells};

use crate::hostile::account::{Setting, accounts, again};
use crate::hostile::links::{bytes, fronts, link, pieces, sound};
use crate::hostile::telling::{cut, ended_line};
use crate::hostile::term::{Ended, serve};
use ss_links::MemLink;
use ss_serve::TermEnd;
use std::alloc::Global;
use std::sync::Wait;
use std::thread::Threads;

/// The calls of a link from which a PUT comes in two pieces, and then a GET: two reads, a response, a read, a response,
/// the read that finds the end; and one that is never made.
pub const CALLS: u64 = 7;

/// Messages that are refused as soon as their head is there.
pub const REFUSED: [(&str, &str); 2] = [
    (
        "two lengths",
        "PUT /1.5/7/storage/forms/a HTTP/1.1\r\nContent-Length: 1\r\nContent-Length: 2\r\n\r\n{}",
    ),
    (
        "a coded body",
        "PUT /1.5/7/storage/forms/a HTTP/1.1\r\nTransfer-Encoding: chunked\r\n\r\n2\r\n{}\r\n0\r\n\r\n",
    ),
];

const HEAD: &str = "PUT /1.5/7/storage/forms/a HTTP/1.1\r\nContent-Length: 15\r\n\r\n";

const GET: &str = "GET /1.5/7/storage/forms/a HTTP/1.1\r\n\r\n";

/// What a browser sends.
const BROWSER: &str =
    "PUT /1.5/7/storage/meta/global HTTP/1.1\r\nHost: sync.example\r\nUser-Agent: Firefox\r\nAccept: application/json;q=0.9,*/*;q=0.2\r\nAccept-Encoding: gzip, deflate\r\nAuthorization: Hawk id=\"seven\", mac=\"4T8=\"\r\nContent-Type: text/plain\r\nX-If-Unmodified-Since: 0\r\nContent-Length: 37\r\nConnection: keep-alive\r\n\r\n{\"id\":\"global\",\"payload\":\"{\\\"v\\\":5}\"}";

/// An account whose keeper never fails, with room in its journal.
const SOUND: Setting = Setting {
    commit: 0,
    most: 1_000,
};

/// Serves these links over a fresh account, and tells what became of them behind a title.
fn show<R: Threads + Wait + Sync>(
    rt: &R,
    alloc: Global,
    title: &str,
    links: Vec<MemLink>,
    setting: Setting,
) -> anyhow::Result<String>
    requires unused { All (λ link. IsUnusedLink (link_tells link)) links.items }
{
    let ended = serve(rt, alloc, links, accounts(alloc, setting)?)?;
    let line = ended_line(alloc, title, &ended);
    drop(ended);
    line
}

/// The call of a link with this number fails; a second link then asks for what the first one put.
pub fn failing_call<R: Threads + Wait + Sync>(
    rt: &R,
    alloc: Global,
    call: u64,
) -> anyhow::Result<String> {
    let texts = [HEAD, "{\"payload\":\"x\"}", GET];
    let first = link(alloc, pieces(alloc, &texts)?, call)?;
    let links = vec![in alloc; first, sound(alloc, &[GET])?]?;
    let title = format!(in alloc; "call {call} of the first link fails")?;
    show(rt, alloc, title.as_str(), links, SOUND)
}

/// A browser's request ends after each of its bytes but the last, over a link of its own each time.
pub fn cut_anywhere<R: Threads + Wait + Sync>(rt: &R, alloc: Global) -> anyhow::Result<String> {
    let links = fronts(alloc, BROWSER)?;
    let title = format!(in alloc;
        "each front of a browser's request of {} bytes",
        BROWSER.len()
    )?;
    let ended = serve(rt, alloc, links, accounts(alloc, SOUND)?)?;
    let line = cut(alloc, title.as_str(), &ended);
    drop(ended);
    line
}

/// The same request comes whole, byte by byte, and a GET of what it put behind it.
pub fn whole<R: Threads + Wait + Sync>(rt: &R, alloc: Global) -> anyhow::Result<String> {
    let mut pieces = bytes(alloc, BROWSER)?;
    let get = "GET /1.5/7/storage/meta/global HTTP/1.1\r\n\r\n";
    pieces.push(Vec::from_slice(alloc, get.as_bytes())?)?;
    let links = vec![in alloc; link(alloc, pieces, 0)?]?;
    show(rt, alloc, "the request byte by byte", links, SOUND)
}

/// A text that is no message; a second link is then served.
pub fn refused<R: Threads + Wait + Sync>(
    rt: &R,
    alloc: Global,
    title: &str,
    text: &str,
) -> anyhow::Result<String> {
    let links = vec![in alloc; sound(alloc, &[text, GET])?, sound(alloc, &[GET])?]?;
    show(rt, alloc, title, links, SOUND)
}

/// As many bytes as a head may have, without the end of a line.
pub fn endless<R: Threads + Wait + Sync>(rt: &R, alloc: Global) -> anyhow::Result<String> {
    let pieces = vec![in alloc; vec![in alloc; b'a'; 16_384]?]?;
    let links = vec![in alloc; link(alloc, pieces, 0)?]?;
    show(
        rt,
        alloc,
        "16384 bytes without an end of a line",
        links,
        SOUND,
    )
}

/// The keeper's commit with this number fails; a GET follows each of three PUTs.
pub fn failing_commit<R: Threads + Wait + Sync>(
    rt: &R,
    alloc: Global,
    commit: u64,
) -> anyhow::Result<String> {
    let texts = [
        HEAD,
        "{\"payload\":\"x\"}",
        GET,
        HEAD,
        "{\"payload\":\"y\"}",
        GET,
        HEAD,
        "{\"payload\":\"z\"}",
        GET,
    ];
    let links = vec![in alloc; sound(alloc, &texts)?]?;
    let title = format!(in alloc; "commit {commit} of the keeper fails")?;
    show(
        rt,
        alloc,
        title.as_str(),
        links,
        Setting {
            commit,
            most: 1_000,
        },
    )
}

/// A term whose account has room for two entries, and is called three times.
fn filled<R: Threads + Wait + Sync>(rt: &R, alloc: Global) -> anyhow::Result<Ended> {
    let texts = [HEAD, "{\"payload\":\"x\"}", GET, GET];
    let links = vec![in alloc; sound(alloc, &texts)?]?;
    let setting = Setting { commit: 0, most: 2 };
    Ok(serve(rt, alloc, links, accounts(alloc, setting)?)?)
}

/// A term of these links behind another one, over its account, whose journal begins again.
fn next<R: Threads + Wait + Sync>(
    rt: &R,
    alloc: Global,
    links: Vec<MemLink>,
    ended: Ended,
) -> anyhow::Result<Ended>
    requires unused { All (λ link. IsUnusedLink (link_tells link)) links.items }
{
    let TermEnd {
        accounts,
        links: _,
        clocks: _,
        ended: _,
    } = ended;
    Ok(serve(rt, alloc, links, again(alloc, accounts)?)?)
}

/// A journal has no room for a third call.
pub fn full<R: Threads + Wait + Sync>(rt: &R, alloc: Global) -> anyhow::Result<String> {
    let ended = filled(rt, alloc)?;
    let line = ended_line(alloc, "a journal with room for two", &ended);
    drop(ended);
    line
}

/// Such a term, and what is answered in the next one.
pub fn full_before<R: Threads + Wait + Sync>(rt: &R, alloc: Global) -> anyhow::Result<String> {
    let links = vec![in alloc; sound(alloc, &[GET])?]?;
    let ended = next(rt, alloc, links, filled(rt, alloc)?)?;
    let line = ended_line(alloc, "the term after such a one", &ended);
    drop(ended);
    line
}
