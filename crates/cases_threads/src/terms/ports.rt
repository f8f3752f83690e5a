//! A port in memory, through its bound.

use ss_links::{Accepted, Closable, Port, PortFault, SureLink, SurePort};
use ss_outside::{Sink, Source};
use std::alloc::{AllocError, Global};

/// Reads up to four bytes of a port's next link, answers them, and closes the link.
fn serve<P: Port>(port: &mut P) -> Result<Accepted<P::Link>, PortFault>
where
    P::Link: Drop,
{
    let mut link = match port.accept()? {
        Accepted::Link(link) => link,
        other => return Ok(other),
    };
    let mut buffer = [0u8; 4];
    if let Ok(count) = link.read(&mut buffer) {
        let _ = link.write(&buffer[..count]);
    }
    link.close();
    Ok(Accepted::Link(link))
}

/// A line on a link that was served, on the end of the port, or on its fault.
fn line(
    alloc: Global,
    served: &Result<Accepted<SureLink>, PortFault>,
) -> Result<String, AllocError> {
    match served {
        Ok(Accepted::Link(link)) => {
            let written = link.written().unwrap_or(b"untold");
            let text = String::from_utf8_lossy(alloc, written)?;
            let closed = if link.is_closed() { "closed" } else { "open" };
            let failed = if link.has_failed() {
                "failed"
            } else {
                "never failed"
            };
            format!(in alloc; "\n  wrote {text}, {closed}, {failed}")
        }
        Ok(Accepted::Rest) => String::from_str(alloc, "\n  the port rests"),
        Ok(Accepted::End) => String::from_str(alloc, "\n  the port has ended"),
        Err(fault) => format!(in alloc; "\n  {fault:?}"),
    }
}

/// What is told of a port that is asked three times.
fn asked(alloc: Global, port: &mut SurePort) -> anyhow::Result<String> {
    let first = line(alloc, &serve(port))?;
    let second = line(alloc, &serve(port))?;
    let third = line(alloc, &serve(port))?;
    Ok(format!(in alloc; "asked three times{first}{second}{third}")?)
}

/// What is told of a port with one link, from which this text comes, that rests after it.
pub fn port_line(alloc: Global, text: &str) -> anyhow::Result<String> {
    let pieces = vec![in alloc; Vec::from_slice(alloc, text.as_bytes())?]?;
    let mut port = SurePort::new(vec![in alloc; SureLink::new(alloc, pieces, 8)?]?).resting();
    let told = asked(alloc, &mut port);
    drop(port);
    told
}
