//! Messages, responses and what a client hears. The cases are the worked bytes of ss_http and ss_hearing, one in each
//! line.

mod members;
mod messages;
mod replies;
mod requests;
mod responses;
mod sources;
mod telling;

use anyhow::bail;
use std::alloc::Global;

/// What a case tells: its kind, and what stands behind that.
pub fn case_line(alloc: Global, kind: &str, text: &str) -> anyhow::Result<String> {
    match kind {
        "message" | "long" | "wide" | "pieces" | "field" => messages::message_line(
            alloc, kind, text,
        ),
        "response" | "memory" | "heard" => responses::response_line(alloc, kind, text),
        "request" => requests::request_line(alloc, text),
        "hear" => replies::reply_line(alloc, text),
        _ => bail!("no kind of case: {kind}"),
    }
}
