//! The command `sync` over the real things, and what is said of how it ended.

use crate::explain::{explain_empty, explain_memory, explain_words, say};
use crate::refusals::shown;
use ss_client::SyncFault;
use ss_device_file::{DeviceFault, read_device};
use ss_links::{FileStore, Store, TcpDial};
use ss_outside::StdSink;
use ss_plan::PlanFault;
use ss_run_sync::{Ending, Trouble, run_sync};
use ss_words::{Command, Server, SyncCommand, read_command};
use std::alloc::{AllocError, Global};
use std::io::ErrorKind;
use std::net::{Net, ToSocketAddrs};
use std::time::Duration;

/// So long a second look at a server that wasn't reached waits for it.
const LOOK_SECONDS: u64 = 3;

/// What a second look finds of a server, the link to which failed.
#[derive(Clone, Copy)]
enum Seen {
    NoName,
    Reached,
    Refuses,
    Silent,
    NoWay,
}

impl Seen {
    /// What that says of the link.
    fn text(self) -> &'static str {
        match self {
            Seen::NoName => "its name isn't found",
            Seen::Reached =>
                "it is reached, so the link broke off, or an answer took longer than 30 seconds",
            Seen::Refuses => "nobody listens there",
            Seen::Silent => "it doesn't answer",
            Seen::NoWay => "no way leads there",
        }
    }
}

/// Looks why a server isn't reached, or whether it is.
fn look(system: &HostRuntime, server: &Server) -> Seen {
    let Ok(addresses) = (server.host.as_str(), server.port).to_socket_addrs(system) else {
        return Seen::NoName;
    };
    let mut seen = Seen::NoName;
    for address in addresses {
        seen = match system.connect_timeout(address, Duration::from_secs(LOOK_SECONDS)) {
            Ok(_) => return Seen::Reached,
            Err(error) => match error.kind() {
                ErrorKind::ConnectionRefused => Seen::Refuses,
                ErrorKind::TimedOut | ErrorKind::WouldBlock => Seen::Silent,
                _ => Seen::NoWay,
            },
        };
    }
    seen
}

/// What a second look at a file says, which is no device's.
fn fault_of_device(
    system: &HostRuntime,
    alloc: Global,
    name: &str,
    file: &str,
) -> Result<String, AllocError> {
    let mut store = FileStore::new(system);
    let fault = match store.load(alloc, name) {
        Ok(Some(bytes)) => match read_device(alloc, bytes.as_slice()) {
            Err(fault) => fault,
            Ok(_) => return format!(in alloc; "{file} was no device's file"),
        },
        _ => return format!(in alloc; "{file} is no device's file"),
    };
    match fault {
        DeviceFault::BadLine { number } => format!(in alloc;
            "{file} is no device's file: line {number} isn't the next line of one"
        ),
        DeviceFault::BadTree { id } => format!(in alloc;
            "{file} is no device's file: the item `{}` isn't where it belongs",
            id.as_str()
        ),
        DeviceFault::Memory => format!(in alloc; "{file} is no device's file"),
    }
}

/// What a second look at a file says, which could not be read or written.
fn fault_of_file(
    system: &HostRuntime,
    alloc: Global,
    name: &str,
    file: &str,
) -> Result<String, AllocError> {
    let mut store = FileStore::new(system);
    match store.load(alloc, name) {
        Ok(_) => format!(in alloc;
            "{file} can't be written: look whether its folder is there, may be written and has room"
        ),
        Err(_) => format!(in alloc;
            "{file} can't be read: look whether it is a file that may be read"
        ),
    }
}

/// What is said of a link or a file that failed.
fn reason_of_trouble(
    system: &HostRuntime,
    alloc: Global,
    command: &SyncCommand,
    trouble: Trouble,
) -> Result<String, AllocError> {
    let (host, port) = (command.server.host.as_str(), command.server.port);
    let name = command.file.as_str();
    let file = shown(alloc, name)?;
    let file = file.as_str();
    match trouble {
        Trouble::Wire => format!(in alloc;
            "the link to {host}:{port} failed: {}",
            look(system, &command.server).text()
        ),
        Trouble::Device => fault_of_device(system, alloc, name, file),
        Trouble::Store => fault_of_file(system, alloc, name, file),
        Trouble::Memory => format!(in alloc; "no memory was found; {file} is as before"),
    }
}

/// What is said of a sync that stopped.
fn reason_of_stop(
    alloc: Global,
    command: &SyncCommand,
    fault: &SyncFault,
) -> Result<String, AllocError> {
    let (host, port) = (command.server.host.as_str(), command.server.port);
    let file = shown(alloc, command.file.as_str())?;
    let file = file.as_str();
    match fault {
        SyncFault::Refused { .. } => format!(in alloc;
            "{host}:{port} refused a request or a record; {file} is as before"
        ),
        SyncFault::Changing { .. } => format!(in alloc;
            "the bookmarks at {host}:{port} changed four times meanwhile; {file} is as before, so sync again"
        ),
        SyncFault::Memory | SyncFault::Plan(PlanFault::Memory) => format!(in alloc;
            "no memory was found; {file} is as before"
        ),
        SyncFault::Plan(_) => format!(in alloc;
            "{host}:{port} doesn't take so much; {file} is as before"
        ),
        SyncFault::BadReply { .. } => format!(in alloc;
            "a reply of {host}:{port} is none of a storage server, or ended early; {file} is as before"
        ),
    }
}

/// The sync that words ask; None too where no memory is found for it.
fn sync_asked(alloc: Global, words: &[String]) -> Option<SyncCommand> {
    match read_command(alloc, words) {
        Ok(Command::Sync(command)) => Some(command),
        _ => None,
    }
}

/// Says on standard error how a sync with these words ended, where it isn't done.
fn explain(system: &HostRuntime, alloc: Global, words: &[String], ending: &Ending) {
    let reason = match ending {
        Ending::Synced(_) => return,
        Ending::OtherWords => return explain_words(system, alloc, words),
        Ending::Unprinted => String::from_str(alloc, "writing the output failed"),
        Ending::Stopped(fault) => match sync_asked(alloc, words) {
            Some(command) => reason_of_stop(alloc, &command, fault),
            None => Err(AllocError),
        },
        Ending::Failed(trouble) => match sync_asked(alloc, words) {
            Some(command) => reason_of_trouble(system, alloc, &command, *trouble),
            None => Err(AllocError),
        },
    };
    match reason {
        Ok(reason) => say(system, format!(in alloc; "syncstore: {reason}")),
        Err(_) => explain_memory(system),
    }
}

/// Whether words ask a sync of a file whose name is empty.
fn names_no_file(alloc: Global, words: &[String]) -> bool {
    match sync_asked(alloc, words) {
        Some(command) => command.file.as_str().is_empty(),
        None => false,
    }
}

/// Runs the command `sync` over the network and the files of the system, and answers its status.
pub fn sync(system: &HostRuntime, words: &[String]) -> u8 {
    if names_no_file(system.alloc(), words) {
        explain_empty(system, "FILE", "sync");
        return 1;
    }
    let mut dial = TcpDial::new(system);
    let mut store = FileStore::new(system);
    let mut output = StdSink::new(system.stdout());
    let ending = run_sync(system.alloc(), words, &mut dial, &mut store, &mut output);
    explain(system, system.alloc(), words, &ending);
    ending.status()
}
