//! Syncs against worked replies. A line `run newer` or `run whole` starts one of a new device; each line `reply
//! STATUS TIME NEXT BODY`, where `-` stands for what a reply doesn't tell, is a reply to its request.

use crate::words::number;
use anyhow::bail;
use ss_client::{Do, Fetch, Machine, Summary, SyncFault};
use ss_device::Device;
use ss_http::Heard;
use ss_text::{Bytes, Stamp};
use std::alloc::Global;

/// The sync that is under way, if one is.
#[derive(Drop)]
pub struct Runs {
    machine: Option<Machine>,
}

fn time(text: &str) -> anyhow::Result<Option<Stamp>> {
    match text {
        "-" => Ok(None),
        _ => Ok(Stamp::new(number(text)?)),
    }
}

fn next(alloc: Global, text: &str) -> anyhow::Result<Option<Bytes>> {
    match text {
        "-" => Ok(None),
        _ => Ok(Some(Bytes::from_slice(alloc, text.as_bytes())?)),
    }
}

/// What is heard of a reply of these words.
fn heard(
    alloc: Global,
    status: &str,
    modified: &str,
    offset: &str,
    body: &str,
) -> anyhow::Result<Heard> {
    Ok(Heard {
        status: status.parse::<u16>()?,
        modified: time(modified)?,
        next: next(alloc, offset)?,
        body: Bytes::from_slice(alloc, body.as_bytes())?,
        last: false,
    })
}

fn done(alloc: Global, summary: &Summary) -> anyhow::Result<String> {
    Ok(format!(in alloc;
        "{} items, {} posts, {} fetches, at {}",
        summary.items,
        summary.posts,
        summary.fetches,
        summary.stamp.get()
    )?)
}

/// The collection's times when something changed for the first time up to the fourth.
fn changing(alloc: Global, times: [Stamp; 4]) -> anyhow::Result<String> {
    let mut told = String::from_str(alloc, "changing")?;
    for time in times {
        told.push(' ')?;
        told.push_str(time.get().to_string(alloc)?.as_str())?;
    }
    Ok(told)
}

fn stopped(alloc: Global, fault: &SyncFault) -> anyhow::Result<String> {
    let told = match fault {
        SyncFault::Refused { status, id } => format!(in alloc; "refused {status}, {id:?}"),
        SyncFault::Changing {
            first,
            second,
            third,
            fourth,
        } => return changing(alloc, [*first, *second, *third, *fourth]),
        SyncFault::BadReply { number } => format!(in alloc; "reply {number}"),
        SyncFault::Plan(fault) => format!(in alloc; "plan {fault:?}"),
        SyncFault::Memory => String::from_str(alloc, "memory"),
    };
    Ok(told?)
}

/// What comes next: the number of the request, or how the run ends.
fn told(alloc: Global, next: &Do) -> anyhow::Result<String> {
    match next {
        Do::Send(machine, _) => Ok(format!(in alloc; "request {}", machine.number())?),
        Do::Done(_, summary) => done(alloc, summary),
        Do::Stop(_, fault) => stopped(alloc, fault),
    }
}

impl Runs {
    pub fn new() -> Runs {
        Runs { machine: None }
    }

    /// Makes this the machine of the run that is under way.
    fn keep(&mut self, machine: Machine) {
        drop(self.machine.replace(machine));
    }

    /// Starts a run of a device.
    fn start(&mut self, alloc: Global, device: Device, fetch: Fetch) {
        let (machine, request) = Machine::start(alloc, device, fetch);
        drop(request);
        self.keep(machine);
    }

    /// Keeps the machine of a run that goes on.
    fn go_on(&mut self, next: Do) {
        match next {
            Do::Send(machine, request) => {
                drop(request);
                self.keep(machine);
            }
            Do::Done(device, _) => drop(device),
            Do::Stop(device, fault) => {
                drop(device);
                drop(fault);
            }
        }
    }

    /// Starts a run of a new device, and tells it.
    fn run(&mut self, alloc: Global, fetch: &str) -> anyhow::Result<Option<String>> {
        let fetch = if fetch == "newer" {
            Fetch::Newer
        } else {
            Fetch::Whole
        };
        let device = Device::new(alloc)?;
        self.start(alloc, device, fetch);
        Ok(Some(String::from_str(alloc, "request 1")?))
    }

    /// What comes of a reply.
    fn hear(&mut self, alloc: Global, reply: &Heard) -> anyhow::Result<String> {
        let Some(machine) = self.machine.take() else {
            bail!("no run that awaits a reply");
        };
        let next = machine.next(alloc, reply);
        let told = told(alloc, &next);
        self.go_on(next);
        told
    }

    /// What comes of a line, if it is about a sync.
    pub fn outcome(&mut self, alloc: Global, words: &[&str]) -> anyhow::Result<Option<String>> {
        match words {
            ["run", fetch] => self.run(alloc, fetch),
            ["reply", status, modified, offset, body] => {
                let reply = heard(alloc, status, modified, offset, body)?;
                let told = self.hear(alloc, &reply);
                drop(reply);
                Ok(Some(told?))
            }
            _ => Ok(None),
        }
    }
}
