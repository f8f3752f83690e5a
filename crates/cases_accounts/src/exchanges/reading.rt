//! Exchanges as text. A line `exchange TITLE` begins one; then come lines on what is kept at first, `failing CALL` and
//! `once`, and `manner browser` where conditions are read as browsers mean them; and then a line for each message,
//! before which lines `field NAME: VALUE` tell its fields. `times COUNT` before a message repeats it.

use crate::exchanges::bodies::body;
use crate::exchanges::exchange::{Exchange, Timed};
use crate::exchanges::kept::Gathered;
use crate::words::number;
use anyhow::bail;
use ss_http::{FieldLines, Message};
use ss_route::Manner;
use ss_text::Bytes;
use std::alloc::Global;

/// The target that a word tells: behind the account's number, or a whole one behind `=`; `#` stands for the turn of a line
/// that is repeated.
fn target_of(alloc: Global, word: &str, turn: u64) -> anyhow::Result<Bytes> {
    let target = match word.strip_prefix("=") {
        Some(whole) => String::from_str(alloc, whole)?,
        None => format!(in alloc; "/1.5/7{word}")?,
    };
    let target = target
        .as_str()
        .replace(alloc, "#", turn.to_string(alloc)?.as_str())?;
    Ok(Bytes::from_slice(alloc, target.as_str().as_bytes())?)
}

/// The body that a text tells.
fn body_of(alloc: Global, text: &str, turn: u64) -> anyhow::Result<Bytes> {
    let body = body(alloc, text, turn)?;
    Ok(Bytes::from_slice(alloc, body.as_str().as_bytes())?)
}

/// A message with these fields, by what tells its method, its target and its body.
fn with_fields(
    alloc: Global,
    method: &str,
    rest: &str,
    fields: Vec<(Bytes, Bytes)>,
    turn: u64,
) -> anyhow::Result<Message> {
    let (target, text) = rest.split_once(' ').unwrap_or((rest, ""));
    Ok(Message {
        method: Bytes::from_slice(alloc, method.as_bytes())?,
        target: target_of(alloc, target, turn)?,
        fields: FieldLines::new(fields),
        body: body_of(alloc, text, turn)?,
        last: false,
    })
}

/// The message of a line: a reading, a method, a target and a body.
fn message(
    alloc: Global,
    manner: Manner,
    line: &str,
    fields: Vec<(Bytes, Bytes)>,
    turn: u64,
    is_quiet: bool,
) -> anyhow::Result<Timed> {
    let Some((now, rest)) = line.split_once(' ') else {
        bail!("no reading");
    };
    let Some((method, rest)) = rest.split_once(' ') else {
        bail!("no method");
    };
    Ok(Timed {
        now: number(now)?,
        manner,
        message: with_fields(alloc, method, rest, fields, turn)?,
        is_quiet,
    })
}

/// The field of a line.
fn field(alloc: Global, text: &str) -> anyhow::Result<(Bytes, Bytes)> {
    let Some((name, value)) = text.split_once(": ") else {
        bail!("no field");
    };
    Ok((
        Bytes::from_slice(alloc, name.as_bytes())?,
        Bytes::from_slice(alloc, value.as_bytes())?,
    ))
}

/// An exchange as it is read.
#[derive(Drop)]
struct Reader {
    title: String,
    kept: Gathered,
    failing: Option<u64>,
    is_once: bool,
    manner: Manner,
    fields: Vec<(Bytes, Bytes)>,
    messages: Vec<Timed>,
}

impl Reader {
    fn new(alloc: Global, title: &str) -> anyhow::Result<Reader> {
        Ok(Reader {
            title: String::from_str(alloc, title)?,
            kept: Gathered::new(alloc),
            failing: None,
            is_once: false,
            manner: Manner::Profile,
            fields: Vec::new(alloc),
            messages: Vec::new(alloc),
        })
    }

    fn finish(self, alloc: Global) -> Exchange {
        let Reader {
            title,
            kept,
            failing,
            is_once,
            manner: _,
            fields,
            messages,
        } = self;
        drop(fields);
        Exchange {
            title,
            kept: kept.into_kept(alloc),
            failing,
            is_once,
            messages,
        }
    }

    /// Repeats a message that has no fields, and tells only the statuses of its answers.
    fn repeat(&mut self, alloc: Global, text: &str) -> anyhow::Result<()> {
        let Some((count, line)) = text.split_once(' ') else {
            bail!("how often?");
        };
        for turn in 0..number(count)? {
            let fields = Vec::new(alloc);
            self.messages
                .push(message(alloc, self.manner, line, fields, turn, true)?)?;
        }
        Ok(())
    }

    fn take(&mut self, alloc: Global, line: &str) -> anyhow::Result<()> {
        if self.kept.take(alloc, line)? {
            return Ok(());
        }
        match line.split_once(' ') {
            Some(("failing", call)) => {
                self.failing = Some(number(call)?);
                self.is_once = true;
            }
            Some(("manner", "browser")) => self.manner = Manner::Browser,
            Some(("field", text)) => self.fields.push(field(alloc, text)?)?,
            Some(("times", text)) => self.repeat(alloc, text)?,
            None => self.is_once = true,
            Some(_) => {
                let fields = std::mem::replace(&mut self.fields, Vec::new(alloc));
                self.messages
                    .push(message(alloc, self.manner, line, fields, 0, false)?)?;
            }
        }
        Ok(())
    }
}

/// Adds an exchange that was read, where one was.
fn add(alloc: Global, exchanges: &mut Vec<Exchange>, reader: Option<Reader>) -> anyhow::Result<()> {
    if let Some(done) = reader {
        exchanges.push(done.finish(alloc))?;
    }
    Ok(())
}

/// Takes a line, which begins an exchange or belongs to the one that is read; an empty one is passed over.
fn take_line(
    alloc: Global,
    exchanges: &mut Vec<Exchange>,
    reader: &mut Option<Reader>,
    line: &str,
) -> anyhow::Result<()> {
    if let Some(title) = line.strip_prefix("exchange ") {
        let next = Some(Reader::new(alloc, title)?);
        return add(alloc, exchanges, std::mem::replace(reader, next));
    }
    if line.is_empty() {
        return Ok(());
    }
    match reader {
        Some(reader) => reader.take(alloc, line),
        None => bail!("a line before the first exchange"),
    }
}

/// The exchanges that lines tell.
pub fn read(alloc: Global, lines: &[String]) -> anyhow::Result<Vec<Exchange>> {
    let mut exchanges = Vec::new(alloc);
    let mut reader = None;
    for line in lines {
        take_line(alloc, &mut exchanges, &mut reader, line.as_str())?;
    }
    add(alloc, &mut exchanges, reader)?;
    Ok(exchanges)
}
