//! A server with one account in memory.

use crate::accounts::{Response, Served};
use crate::syncs::twists::Twist;
use crate::syncs::wire::{Answer, Answers};
use ss_http::{FieldLines, Message};
use ss_route::Manner;
use ss_text::Bytes;
use std::alloc::{AllocError, Global};

/// Serves account 7. Its clock stands until it is set.
#[derive(Drop)]
pub struct Server {
    served: Served,
    now: u64,
    // Whether each response is its link's last.
    closes: bool,
    // Before how many POSTs another device puts a record.
    meddles: u64,
    twist: Option<Twist>,
    // What was asked since the last sync began, with the status of its answer and the number of its records.
    asked: Vec<String>,
}

/// A message without fields.
fn plain_message(
    alloc: Global,
    method: &str,
    target: &str,
    body: &str,
) -> Result<Message, AllocError> {
    Ok(Message {
        method: Bytes::from_slice(alloc, method.as_bytes())?,
        target: Bytes::from_slice(alloc, target.as_bytes())?,
        fields: FieldLines::new(Vec::new(alloc)),
        body: Bytes::from_slice(alloc, body.as_bytes())?,
        last: false,
    })
}

/// What a message asks under which condition, and how it was answered.
fn line(alloc: Global, message: &Message, response: &Response) -> anyhow::Result<String> {
    let method = String::from_utf8_lossy(alloc, message.method.as_slice())?;
    let target = String::from_utf8_lossy(alloc, message.target.as_slice())?;
    let mut line = format!(in alloc; "{method} {target}")?;
    if let Some(time) = message.fields.first("X-If-Unmodified-Since") {
        let time = String::from_utf8_lossy(alloc, time)?;
        line.push_str(format!(in alloc; ", if unmodified since {time}")?.as_str())?;
    }
    line.push_str(format!(in alloc; ": {}", response.status)?.as_str())?;
    if let Some(count) = response.count {
        line.push_str(format!(in alloc; ", {count} records")?.as_str())?;
    }
    Ok(line)
}

impl Server {
    pub fn new(alloc: Global) -> anyhow::Result<Server> {
        Ok(Server {
            served: Served::fresh(alloc, Manner::Profile)?,
            now: 1000,
            closes: false,
            meddles: 0,
            twist: None,
            asked: Vec::new(alloc),
        })
    }

    /// Begins anew with an account in which nothing is kept. The clock stays.
    pub fn empty(&mut self, alloc: Global) -> anyhow::Result<()> {
        self.served = Served::fresh(alloc, Manner::Profile)?;
        self.forget(alloc);
        Ok(())
    }

    /// Forgets what was asked.
    pub fn forget(&mut self, alloc: Global) {
        self.asked = Vec::new(alloc);
    }

    /// Begins anew, and serves as at first.
    pub fn reset(&mut self, alloc: Global) -> anyhow::Result<()> {
        self.now = 1000;
        self.closes = false;
        self.meddles = 0;
        self.twist = None;
        self.empty(alloc)
    }

    pub fn set_clock(&mut self, now: u64) {
        self.now = now;
    }

    pub fn close_links(&mut self) {
        self.closes = true;
    }

    /// Another device puts a record before each of so many POSTs.
    pub fn meddle(&mut self, times: u64) {
        self.meddles = times;
    }

    pub fn twist(&mut self, twist: Option<Twist>) {
        self.twist = twist;
    }

    pub fn asked(&self) -> &[String] {
        self.asked.as_slice()
    }

    /// The response to a message.
    fn respond(&mut self, alloc: Global, message: &Message) -> Result<Response, AllocError> {
        self.served.respond(alloc, self.now, message, self.closes)
    }

    /// Asks something beside a sync, and tells it.
    pub fn tell(
        &mut self,
        alloc: Global,
        method: &str,
        target: &str,
        body: &str,
    ) -> anyhow::Result<String> {
        let message = plain_message(alloc, method, target, body)?;
        let response = self.respond(alloc, &message)?;
        line(alloc, &message, &response)
    }

    /// Another device puts a record before a POST, where it still does.
    fn put_another(&mut self, alloc: Global, message: &Message) -> anyhow::Result<()> {
        if self.meddles > 0 && message.method.as_slice() == b"POST".as_slice() {
            self.meddles -= 1;
            let target = "/1.5/7/storage/bookmarks/another";
            let _ = self.tell(alloc, "PUT", target, "{\"payload\":\"another\"}")?;
        }
        Ok(())
    }

    /// Notes what a message asks, and gives the bytes of its response.
    fn respond_noted(&mut self, alloc: Global, message: &Message) -> anyhow::Result<Vec<u8>> {
        let response = self.respond(alloc, message)?;
        self.asked.push(line(alloc, message, &response)?)?;
        Ok(response.bytes)
    }

    /// The answer to a message.
    fn answer_message(&mut self, alloc: Global, message: &Message) -> anyhow::Result<Answer> {
        self.put_another(alloc, message)?;
        let answer = Answer {
            bytes: self.respond_noted(alloc, message)?,
            last: self.closes,
        };
        match &self.twist {
            Some(twist) => Ok(twist.turn(alloc, self.asked.len() as u64, answer)?),
            None => Ok(answer),
        }
    }

    /// The answer to the bytes of a request.
    fn answer_to(&mut self, alloc: Global, request: Vec<u8>) -> anyhow::Result<Answer> {
        let message = self.served.message(alloc, request)?;
        let answer = self.answer_message(alloc, &message);
        drop(message);
        answer
    }
}

impl Answers for Server {
    fn answer(&mut self, alloc: Global, request: Vec<u8>) -> Option<Answer> {
        match self.answer_to(alloc, request) {
            Ok(answer) => Some(answer),
            Err(fault) => {
                drop(fault);
                None
            }
        }
    }
}
