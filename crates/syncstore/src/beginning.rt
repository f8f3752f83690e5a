//! What is looked at before a server begins, so that nothing is made where it can't.

use crate::explain::{explain_empty, explain_memory, explain_trouble};
use crate::limits::tell_limits;
use ss_http::Buffer;
use ss_real_site::RealSite;
use ss_site::{Site, SiteFault};
use ss_words::{Command, ServeCommand, WordsFault, read_command};
use std::alloc::{AllocError, Global};
use std::fs;

/// Whether the address of a server can be listened at; else the status. The folder isn't made before that is known.
fn try_address(
    system: &HostRuntime,
    site: &mut RealSite<'_, HostRuntime>,
    command: &ServeCommand,
) -> Result<(), u8> {
    match site.listen(system.alloc(), command.address.as_str()) {
        Ok(port) => {
            site.shut(port);
            Ok(())
        }
        Err(SiteFault::Fault) => {
            explain_trouble(system, system.alloc(), command, site.trouble());
            Err(2)
        }
        Err(SiteFault::Memory) => {
            explain_memory(system);
            Err(8)
        }
    }
}

/// The buffers that so many connections read into at once.
fn buffers(alloc: Global, count: u64) -> Result<Vec<Buffer>, AllocError> {
    let mut buffers = Vec::new(alloc);
    for _ in 0..count {
        buffers.push(Buffer::new(alloc)?)?;
    }
    Ok(buffers)
}

/// Whether memory is found for what the workers of a server read at once, which is given back; else the status.
fn try_memory(system: &HostRuntime, command: &ServeCommand) -> Result<(), u8> {
    if buffers(system.alloc(), command.workers).is_err() {
        let _ = eprintln!(system;
            "syncstore: no memory was found for {} connections",
            command.workers
        );
        return Err(8);
    }
    Ok(())
}

/// Whether the word for a server's folder names one; else the status.
fn try_folder(system: &HostRuntime, command: &ServeCommand) -> Result<(), u8> {
    if command.folder.as_str().is_empty() {
        explain_empty(system, "FOLDER", "serve");
        return Err(1);
    }
    Ok(())
}

/// Whether the logs of the first term have no files yet; else the status. Where that can't be seen it is known as the
/// first is saved.
fn try_logs(system: &HostRuntime, command: &ServeCommand) -> Result<(), u8> {
    let Some(logs) = &command.logs else {
        return Ok(());
    };
    for uid in command.uids.as_slice() {
        let (folder, from) = (logs.folder.as_str(), logs.from);
        let Ok(path) = format!(in system.alloc(); "{folder}/{uid}-{from}") else {
            explain_memory(system);
            return Err(8);
        };
        if let Ok(true) = fs::exists(system, path.as_str()) {
            let _ = eprintln!(system;
                "syncstore: {path}: a log is there already, and is not written over; --from tells the number of the first term"
            );
            return Err(7);
        }
    }
    Ok(())
}

/// Looks whether a server can begin, and tells of limits that its accounts may meet; else says why not, and answers the
/// status. Of words that ask for no server nothing is said here.
pub fn prepare(
    system: &HostRuntime,
    site: &mut RealSite<'_, HostRuntime>,
    words: &[String],
) -> Result<(), u8> {
    match read_command(system.alloc(), words) {
        Ok(Command::Serve(command)) => {
            try_folder(system, &command)?;
            try_logs(system, &command)?;
            try_memory(system, &command)?;
            try_address(system, site, &command)?;
            tell_limits(system, command.uids.as_slice().len() as u64);
            Ok(())
        }
        Ok(_) | Err(WordsFault::Refused(_)) => Ok(()),
        Err(WordsFault::Memory) => {
            explain_memory(system);
            Err(8)
        }
    }
}
