//! An account in memory behind a server's reader and its routing.

ghost use Rattle.ss_query.specs.Fit.{IsFitRequest};
ghost use Rattle.ss_route.specs.Routing.{AsksFit};

use anyhow::bail;
use ss_account::Account;
use ss_bso::{Kept, Plain};
use ss_http::{Buffer, Message, read_message};
use ss_keeper::SureKeeper;
use ss_outside::SureSource;
use ss_query::Request;
use ss_route::{Local, Manner, Routed, not_listed, render, render_local, route};
use ss_text::Stamp;
use std::alloc::{AllocError, Global};

/// The account that is served.
pub const UID: u32 = 7;

/// A response, with its status and the number of its records where it is a list.
#[derive(Drop)]
pub struct Response {
    pub bytes: Vec<u8>,
    pub status: u16,
    pub count: Option<u64>,
}

/// Account 7, as a server reads messages to it, in a manner of reading conditions.
#[derive(Drop)]
pub struct Served {
    account: Account<SureKeeper>,
    buffer: Buffer,
    manner: Manner,
}

/// The account that is opened with what is kept.
fn opened(alloc: Global, kept: Kept) -> anyhow::Result<Account<SureKeeper>> {
    match Account::open(alloc, SureKeeper::new(kept)) {
        Ok(account) => Ok(account),
        Err((keeper, _)) => {
            drop(keeper);
            bail!("no account")
        }
    }
}

/// The reply of an account, as its response.
fn asked(
    alloc: Global,
    account: &mut Account<SureKeeper>,
    now: u64,
    request: &Request,
    last: bool,
) -> Result<Response, AllocError>
    requires fit { IsFitRequest request.now }
{
    let reply = account.step(alloc, now, request);
    let (status, count) = (reply.status, reply.count);
    let rendered = render(alloc, &reply, false, last);
    drop(reply);
    Ok(Response {
        bytes: rendered?,
        status,
        count,
    })
}

/// The response that no account is asked for.
fn local(alloc: Global, local: &Local, now: u64, last: bool) -> Result<Response, AllocError> {
    Ok(Response {
        bytes: render_local(alloc, local, Stamp::clamp(now), last)?,
        status: local.status,
        count: None,
    })
}

impl Served {
    /// An account in which nothing is kept.
    pub fn fresh(alloc: Global, manner: Manner) -> anyhow::Result<Served> {
        Ok(Served {
            buffer: Buffer::new(alloc)?,
            account: opened(alloc, Kept::fresh(alloc))?,
            manner,
        })
    }

    /// The message of a request that a client wrote whole.
    pub fn message(&mut self, alloc: Global, request: Vec<u8>) -> anyhow::Result<Message> {
        let mut pieces = Vec::new(alloc);
        pieces.push(request)?;
        let mut source = SureSource::new(pieces);
        match read_message(alloc, &mut self.buffer, &mut source) {
            Ok(message) => Ok(message),
            Err(fault) => bail!("no message: {fault}"),
        }
    }

    /// The response to what a message asks, at a reading of the clock, and whether it is its link's last.
    fn respond_to(
        &mut self,
        alloc: Global,
        now: u64,
        routed: &Routed,
        last: bool,
    ) -> Result<Response, AllocError>
        requires fit { AsksFit routed.now }
    {
        match routed {
            Routed::Memory => Err(AllocError),
            Routed::Ask { uid, request, .. } if *uid == UID => {
                asked(alloc, &mut self.account, now, request, last)
            }
            Routed::Ask { .. } => local(alloc, &not_listed(), now, last),
            Routed::Local(said) => local(alloc, said, now, last),
        }
    }

    /// The response to a message at a reading of the clock, and whether it is its link's last.
    pub fn respond(
        &mut self,
        alloc: Global,
        now: u64,
        message: &Message,
        last: bool,
    ) -> Result<Response, AllocError> {
        let routed = route(alloc, self.manner, message);
        let response = self.respond_to(alloc, now, &routed, last);
        drop(routed);
        response
    }

    /// The account reads its clock.
    pub fn tick(&mut self, now: u64) {
        self.account.tick(now);
    }

    /// The account is opened anew with what its keeper tells.
    pub fn reopen(&mut self, alloc: Global) -> anyhow::Result<()> {
        match self.account.told(alloc) {
            Ok(kept) => self.account = opened(alloc, kept)?,
            Err(_) => bail!("the keeper doesn't tell"),
        }
        Ok(())
    }

    /// The account as plain data.
    pub fn plain(&self, alloc: Global) -> Result<Plain, AllocError> {
        self.account.plain(alloc)
    }
}
