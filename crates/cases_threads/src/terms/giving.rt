//! A site in memory that gives ports and clocks. Its line has the first reading of its clocks, and how many links each
//! of its ports gives.

use crate::terms::case::Planned;
use crate::terms::terms::port;
use ss_links::{Accepted, MemPort, Port};
use ss_outside::Clock;
use ss_site::{CountedPort, MemSite, Site, SiteFault};
use std::alloc::{AllocError, Global};

/// A port with so many links, from which nothing comes.
fn idle_port(alloc: Global, count: u64) -> Result<MemPort, AllocError> {
    let mut links = Vec::new(alloc);
    for _ in 0..count {
        links.push(Planned {
            pieces: Vec::new(alloc),
            failing: 0,
        })?;
    }
    port(alloc, links, 0, false)
}

/// The ports of a line, each by how many links it gives.
fn ports(alloc: Global, words: &str) -> anyhow::Result<Vec<MemPort>> {
    let mut ports = Vec::new(alloc);
    for word in words.split(' ') {
        ports.push(idle_port(alloc, word.parse::<u64>()?)?)?;
    }
    Ok(ports)
}

/// How many links a port gives before it ends: at most 9.
fn count(port: &mut CountedPort<MemPort>) -> u64 {
    for _ in 0..9 {
        match port.accept() {
            Ok(Accepted::Link(link)) => drop(link),
            _ => break,
        }
    }
    port.links()
}

/// A line on the port that is given, or on why there is none.
fn line(
    alloc: Global,
    given: Result<CountedPort<MemPort>, SiteFault>,
) -> Result<String, AllocError> {
    match given {
        Ok(mut port) => {
            let links = count(&mut port);
            drop(port);
            format!(in alloc; "\n  {links} links")
        }
        Err(fault) => format!(in alloc; "\n  no port, {fault:?}"),
    }
}

/// The first two readings of a site's next clock.
fn readings(alloc: Global, site: &mut MemSite<u8>) -> Result<String, AllocError> {
    let mut clock = site.clock();
    let first = clock.now();
    let second = clock.now();
    drop(clock);
    format!(in alloc; "{first} {second}")
}

/// The readings of two clocks of a site, and a line on each of so many ports.
fn lines(alloc: Global, site: &mut MemSite<u8>, ports: usize) -> Result<String, AllocError> {
    let first = readings(alloc, site)?;
    let second = readings(alloc, site)?;
    let mut text = format!(in alloc; "two clocks read {first} and {second}")?;
    for _ in 0..ports {
        let port = site.listen(alloc, "a");
        text.push_str(line(alloc, port)?.as_str())?;
    }
    Ok(text)
}

/// What is told of the ports and the clocks of a site, of which one port more is asked than it has.
pub fn giving_line(alloc: Global, line: &str) -> anyhow::Result<String> {
    let (first, words) = line.split_once(' ').unwrap_or((line, ""));
    let first = first.parse::<u64>()?;
    let ports = ports(alloc, words)?;
    let asked = ports.len().saturating_add(1);
    let mut site = MemSite::new(alloc, ports, first, Vec::new(alloc), Vec::new(alloc))?;
    let text = lines(alloc, &mut site, asked);
    drop(site);
    Ok(text?)
}
