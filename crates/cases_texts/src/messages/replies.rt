//! Cases of ss_hearing: `hear AWAITED STATUS MODIFIED NEXT BODY` tells the answer in a reply to what is awaited, with
//! its status, its time in hundredths of a second, the offset of the next page, and its body. A dash stands for no
//! time, and for no offset.

use anyhow::bail;
use ss_hearing::{Awaited, hear};
use ss_http::Heard;
use ss_text::{Bytes, Stamp};
use std::alloc::Global;

/// What is awaited, by its name.
fn awaited_of(name: &str) -> anyhow::Result<Awaited> {
    Ok(match name {
        "Configuration" => Awaited::Configuration,
        "FirstPage" => Awaited::FirstPage,
        "LaterPage" => Awaited::LaterPage,
        "AllIds" => Awaited::AllIds,
        "Staging" => Awaited::Staging,
        "Writing" => Awaited::Writing,
        _ => bail!("nothing is awaited so: {name}"),
    })
}

/// The time that a word tells.
fn modified_of(word: &str) -> anyhow::Result<Option<Stamp>> {
    match word {
        "-" => Ok(None),
        number => Ok(Stamp::new(number.parse::<u64>()?)),
    }
}

/// The offset that a word tells.
fn next_of(alloc: Global, word: &str) -> anyhow::Result<Option<Bytes>> {
    match word {
        "-" => Ok(None),
        text => Ok(Some(Bytes::from_slice(alloc, text.as_bytes())?)),
    }
}

/// What is heard, by its words.
fn heard_of(
    alloc: Global,
    status: &str,
    modified: &str,
    next: &str,
    body: &str,
) -> anyhow::Result<Heard> {
    Ok(Heard {
        status: status.parse::<u16>()?,
        modified: modified_of(modified)?,
        next: next_of(alloc, next)?,
        body: Bytes::from_slice(alloc, body.as_bytes())?,
        last: false,
    })
}

/// What a case tells.
pub fn reply_line(alloc: Global, text: &str) -> anyhow::Result<String> {
    let mut words = Vec::new(alloc);
    for word in text.splitn(5, ' ') {
        words.push(word)?;
    }
    match words.as_slice() {
        [awaited, status, modified, next, body] => {
            let heard = heard_of(alloc, status, modified, next, body)?;
            let answer = hear(alloc, awaited_of(awaited)?, &heard)?;
            Ok(format!(in alloc; "{answer:?}")?)
        }
        _ => bail!("no reply"),
    }
}
