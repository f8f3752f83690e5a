//! Accepting links, and giving them to workers.

ghost use Rattle.std.specs.Prelude.{◌≡◌, ◌≤◌, ◌<◌, ◌+◌, All, vec_len, vec_capacity};
ghost use Rattle.crossbeam_channel.specs.Claims.{view, IsSeatAt};
ghost use Rattle.crossbeam_channel.specs.Ends.{sends_on};
ghost use Rattle.ss_links.specs.Links.{IsUnusedLink};
ghost use Rattle.ss_serve.specs.Accepting.{HasCause, HasGiven, AreUnusedLinks};

use crate::channel::{Job, Links, Put, Tally};
use crossbeam_channel::{Pass, RuledSender};
use ss_links::{Accepted, Closable, Port, PortFault};
use std::sync::Wait;

/// Why no more links are accepted.
#[derive(Drop, Debug, Clone, Copy, PartialEq, Eq)]
pub(crate) enum Stopped {
    /// There are as many as were wanted.
    Connections,
    /// The port ended.
    PortEnded,
    /// The port rests.
    Rested,
    /// The port failed.
    Port,
    /// The port found no memory.
    Memory,
}

// Puts a link, or keeps it where the channel does not take it.
fn offer<L: Closable + Drop, R: Wait>(
    rt: &R,
    sender: &RuledSender<Job<L>, Tally, Links<L>>,
    place: &mut Pass<Job<L>, Tally>,
    left: &mut Vec<L>,
    link: L,
)
    requires seat { IsSeatAt (sends_on sender.now) place.old }
    requires parts { 0 < (view place.old).parts }
    requires new { IsUnusedLink (L.Told.told link) }
    requires left { All (λ l. IsUnusedLink (L.Told.told l)) left.old.items }
    requires room { vec_len left.old < vec_capacity left.old }
    ensures seat { IsSeatAt (sends_on sender.now) place.new }
    ensures parts { (view place.new).parts ≡ (view place.old).parts }
    ensures taken { (view place.new).taken ≡ (view place.old).taken }
    ensures more { (view place.new).put + vec_len left.new ≡ (view place.old).put + vec_len left.old + 1 }
    ensures least { vec_len left.new ≤ vec_len left.old + 1 }
    ensures left { All (λ l. IsUnusedLink (L.Told.told l)) left.new.items }
    ensures room { vec_capacity left.new ≡ vec_capacity left.old }
{
    match sender.send_as::<Put<L>, R>(rt, place, Job::Link(link)) {
        Ok(()) => {}
        Err(error) => match error.into_inner() {
            Job::Link(link) => left.push_reserved(link),
            Job::Stop => unreachable!(),
        },
    }
}

// Tells so many workers to stop.
fn send_stops<L: Closable + Drop, R: Wait>(
    rt: &R,
    sender: &RuledSender<Job<L>, Tally, Links<L>>,
    place: &mut Pass<Job<L>, Tally>,
    count: usize,
)
    requires seat { IsSeatAt (sends_on sender.now) place.old }
    requires parts { 0 < (view place.old).parts }
    ensures seat { IsSeatAt (sends_on sender.now) place.new }
    ensures same { view place.new ≡ view place.old }
{
    for _ in 0..count {
        let _ = sender.send_as::<Put<L>, R>(rt, place, Job::Stop);
    }
}

// Accepts up to so many links.
fn accept_links<L: Closable + Drop, P: Port<Link = L>, R: Wait>(
    rt: &R,
    port: &mut P,
    sender: &RuledSender<Job<L>, Tally, Links<L>>,
    place: &mut Pass<Job<L>, Tally>,
    left: &mut Vec<L>,
    connections: u32,
) -> Stopped
    requires seat { IsSeatAt (sends_on sender.now) place.old }
    requires parts { 0 < (view place.old).parts }
    requires left { All (λ l. IsUnusedLink (L.Told.told l)) left.old.items }
    requires room { vec_len left.old + connections ≤ vec_capacity left.old }
    ensures seat { IsSeatAt (sends_on sender.now) place.new }
    ensures parts { (view place.new).parts ≡ (view place.old).parts }
    ensures taken { (view place.new).taken ≡ (view place.old).taken }
    ensures given { HasGiven ((view place.old).put + vec_len left.old) ((view place.new).put + vec_len left.new) connections (P.counts port.old) (P.counts port.new) }
    ensures left { All (λ l. IsUnusedLink (L.Told.told l)) left.new.items }
    ensures cause { HasCause result connections (P.counts port.old) (P.counts port.new) }
{
    for _ in 0..connections {
        match port.accept() {
            Err(PortFault::Fault) => return Stopped::Port,
            Err(PortFault::Memory) => return Stopped::Memory,
            Ok(Accepted::End) => return Stopped::PortEnded,
            Ok(Accepted::Rest) => return Stopped::Rested,
            Ok(Accepted::Link(link)) => offer(rt, sender, place, left, link),
        }
    }
    Stopped::Connections
}

/// Accepts up to so many links, and then tells so many workers to stop. Each link goes into the channel, or to `left` where
/// the channel does not take it: the two have so many more as the port gave.
pub(crate) fn accept_all<L: Closable + Drop, P: Port<Link = L>, R: Wait>(
    rt: &R,
    port: &mut P,
    sender: &RuledSender<Job<L>, Tally, Links<L>>,
    place: &mut Pass<Job<L>, Tally>,
    left: &mut Vec<L>,
    connections: u32,
    workers: usize,
) -> Stopped
    requires seat { IsSeatAt (sends_on sender.now) place.old }
    requires parts { 0 < (view place.old).parts }
    requires left { AreUnusedLinks L.Told.told left.old.items }
    requires room { vec_len left.old + connections ≤ vec_capacity left.old }
    ensures seat { IsSeatAt (sends_on sender.now) place.new }
    ensures parts { (view place.new).parts ≡ (view place.old).parts }
    ensures taken { (view place.new).taken ≡ (view place.old).taken }
    ensures given { HasGiven ((view place.old).put + vec_len left.old) ((view place.new).put + vec_len left.new) connections (P.counts port.old) (P.counts port.new) }
    ensures left { AreUnusedLinks L.Told.told left.new.items }
    ensures cause { HasCause result connections (P.counts port.old) (P.counts port.new) }
{
    let stopped = accept_links(rt, port, sender, place, left, connections);
    send_stops(rt, sender, place, workers);
    stopped
}
