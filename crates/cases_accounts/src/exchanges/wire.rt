//! What a response tells, in a line, and what no account answers by itself.

ghost use Rattle.std.specs.Prelude.{IfOk};
ghost use Rattle.ss_query.specs.Fit.{IsFitRequest};
ghost use Rattle.ss_route.specs.Sending.{IsSentRequest};

use anyhow::bail;
use ss_http::{Buffer, Heard, Message, read_message, read_response};
use ss_outside::SureSource;
use ss_query::{Body, Info, Query, Reply, Request, Said, Sort};
use ss_route::{Manner, Routed, heard_of, render, route, write_request};
use ss_text::{Cond, Name, Stamp};
use std::alloc::{AllocError, Global};

/// The fields of a head that are told, by the word they are told with.
const TOLD: &[(&str, &str)] = &[
    ("X-Weave-Timestamp: ", "at"),
    ("X-Last-Modified: ", "time"),
    ("X-Weave-Records: ", "records"),
    ("X-Weave-Next-Offset: ", "next"),
    ("Allow: ", "allow"),
];

/// Adds what a line of a head tells.
fn add(alloc: Global, out: &mut String, line: &str) -> anyhow::Result<()> {
    for (name, word) in TOLD {
        if let Some(value) = line.strip_prefix(*name) {
            out.push_str(format!(in alloc; " {word}={value}")?.as_str())?;
        }
    }
    Ok(())
}

/// The status of a response, and unless it is quiet some fields and the body.
pub fn response_line(alloc: Global, response: &[u8], is_quiet: bool) -> anyhow::Result<String> {
    let text = String::from_utf8_lossy(alloc, response)?;
    let Some((head, body)) = text.as_str().split_once("\r\n\r\n") else {
        bail!("a response without a head");
    };
    let Some(status) = head.strip_prefix("HTTP/1.1 ") else {
        bail!("another version");
    };
    let mut out = String::from_str(alloc, status.split(' ').next().unwrap_or(""))?;
    if is_quiet {
        return Ok(out);
    }
    for line in head.split("\r\n") {
        add(alloc, &mut out, line)?;
    }
    if head.contains("\r\nContent-Type: application/newlines\r\n") {
        out.push_str(" in lines")?;
    }
    if !body.is_empty() {
        out.push_str(" ")?;
        out.push_str(body)?;
    }
    Ok(out)
}

/// A client's question for the limits of the server.
fn limits() -> Request
    ensures sent { IsSentRequest result }
    ensures fit { IsFitRequest result }
{
    Request::Info {
        what: Info::Configuration,
        cond: Cond::Free,
    }
}

/// A client's question for a later page of the bookmarks.
fn later_page(alloc: Global) -> Result<Request, AllocError>
    ensures sent { IfOk result (λ request. IsSentRequest request) }
    ensures fit { IfOk result (λ request. IsFitRequest request) }
{
    let Some(collection) = Name::new(alloc, "bookmarks".as_bytes())? else {
        unreachable!();
    };
    Ok(Request::List {
        collection,
        query: Query {
            ids: None,
            newer: None,
            older: None,
            limit: Some(1000),
            offset: 3000,
            sort: Sort::Oldest,
            full: true,
        },
        cond: Cond::IfUnmodified(Stamp::clamp(1234)),
    })
}

/// A source of bytes in one piece.
fn source_of(alloc: Global, bytes: Vec<u8>) -> Result<SureSource, AllocError> {
    let mut pieces = Vec::new(alloc);
    pieces.push(bytes)?;
    Ok(SureSource::new(pieces))
}

/// The message that a server reads of a source.
fn message_in(alloc: Global, source: &mut SureSource) -> anyhow::Result<Message> {
    let mut buffer = Buffer::new(alloc)?;
    match read_message(alloc, &mut buffer, source) {
        Ok(message) => Ok(message),
        Err(_) => bail!("no message"),
    }
}

/// The message that a server reads of bytes.
fn message_of(alloc: Global, bytes: Vec<u8>) -> anyhow::Result<Message> {
    let mut source = source_of(alloc, bytes)?;
    message_in(alloc, &mut source)
}

/// Tells what a message asks.
fn tell_message(rt: &HostRuntime, message: &Message) -> anyhow::Result<()> {
    let routed = route(rt.alloc(), Manner::Profile, message);
    match &routed {
        Routed::Ask { uid, request, .. } => tell_asked(rt, *uid, request),
        Routed::Local(_) | Routed::Memory => bail!("a request that isn't routed"),
    }
}

/// Tells what a server reads of a written request.
fn tell_read(rt: &HostRuntime, bytes: Vec<u8>) -> anyhow::Result<()> {
    let alloc = rt.alloc();
    print!(rt; "{}", String::from_utf8_lossy(alloc, bytes.as_slice())?)?;
    let message = message_of(alloc, bytes)?;
    tell_message(rt, &message)
}

/// Tells what a request of account `uid` asks.
fn tell_asked(rt: &HostRuntime, uid: u32, request: &Request) -> anyhow::Result<()> {
    match request {
        Request::Info {
            what: Info::Configuration,
            cond: Cond::Free,
        } => println!(rt; "asks {uid} for the limits")?,
        Request::List {
            collection,
            query,
            cond: Cond::IfUnmodified(time),
        } => println!(rt;
            "asks {uid} for {}, limit {:?}, offset {}, full {}, unless changed since {}",
            collection.as_str(),
            query.limit,
            query.offset,
            query.full,
            time.get()
        )?,
        _ => bail!("another request"),
    }
    Ok(())
}

/// Tells what a client hears.
fn tell_heard(rt: &HostRuntime, word: &str, heard: &Heard) -> anyhow::Result<()> {
    let alloc = rt.alloc();
    let next = match &heard.next {
        Some(next) => String::from_utf8_lossy(alloc, next.as_slice())?,
        None => String::from_str(alloc, "none")?,
    };
    let body = String::from_utf8_lossy(alloc, heard.body.as_slice())?;
    let time = match heard.modified {
        Some(time) => time.get(),
        None => 0,
    };
    println!(rt;
        "{word} {} time={time} next={next} last={} {body}",
        heard.status, heard.last
    )?;
    Ok(())
}

/// What a client hears of a reply, read from its bytes.
fn read_of(alloc: Global, reply: &Reply) -> anyhow::Result<Heard> {
    let mut source = source_of(alloc, render(alloc, reply, false, true)?)?;
    match read_response(alloc, &mut source) {
        Ok(heard) => Ok(heard),
        Err(_) => bail!("a response that isn't read"),
    }
}

/// Tells what a client hears of a reply, read from its bytes, and what it is said to hear.
fn tell_reply(rt: &HostRuntime, reply: &Reply) -> anyhow::Result<()> {
    let alloc = rt.alloc();
    tell_heard(rt, "heard", &read_of(alloc, reply)?)?;
    tell_heard(
        rt,
        "said to be heard",
        &heard_of(alloc, reply, false, true)?,
    )
}

/// Tells the response to which a reply is rendered where a journal is full.
fn tell_refused(rt: &HostRuntime, full: &Reply) -> anyhow::Result<()> {
    let alloc = rt.alloc();
    let response = render(alloc, full, false, false)?;
    println!(rt;
        "a full journal: {}",
        response_line(alloc, response.as_slice(), false)?
    )?;
    Ok(())
}

/// Tells the response where a journal is full.
fn tell_full(rt: &HostRuntime) -> anyhow::Result<()> {
    let full = Reply {
        status: 503,
        moment: Stamp::clamp(1000),
        modified: None,
        count: None,
        next: None,
        body: Body::Said(Said::Term),
    };
    tell_refused(rt, &full)
}

/// Tells what a client hears of a reply with all its fields.
fn tell_put(rt: &HostRuntime) -> anyhow::Result<()> {
    let put = Reply {
        status: 200,
        moment: Stamp::clamp(1001),
        modified: Stamp::new(1000),
        count: Some(2),
        next: Some(7),
        body: Body::At(Stamp::clamp(1000)),
    };
    tell_reply(rt, &put)
}

/// Tells what no account answers by itself: a full journal, and both sides of a client's wire.
pub fn tell(rt: &HostRuntime) -> anyhow::Result<()> {
    tell_full(rt)?;
    tell_put(rt)?;
    let alloc = rt.alloc();
    tell_read(rt, write_request(alloc, 7, "sync.example:8000", &limits())?)?;
    let page = later_page(alloc)?;
    tell_read(rt, write_request(alloc, 7, "sync.example", &page)?)
}
