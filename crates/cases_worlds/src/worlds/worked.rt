//! Worked plays.

use crate::worlds::checks::{is_of_device, is_one_tree};
use crate::worlds::items::{id, item, name, word};
use crate::worlds::playing::{add, bookmarks, deliver, happen, is_idle, new_devices, posts, start};
use crate::worlds::plays::{Play, Way};
use crate::worlds::uploads;
use anyhow::bail;
use ss_bso::{Failures, Field, Fields, Parts, Records};
use ss_client::Fetch;
use ss_device::Device;
use ss_query::{Mode, Query, Request, Sort};
use ss_text::{Cond, Ids};
use ss_world::{Edit, Event, WorldFault};
use std::alloc::Global;

/// What rows and a device are after an event.
pub fn tell(alloc: Global, play: &Play, n: u32) -> anyhow::Result<String> {
    let rows = bookmarks(alloc, play)?;
    let Some(device) = play.device(n) else {
        bail!("no device");
    };
    let tree = if is_one_tree(alloc, &rows)? {
        "one tree"
    } else {
        "no tree"
    };
    let whose = if is_of_device(alloc, &rows, device)? {
        "the device's"
    } else {
        "not the device's"
    };
    let state = if is_idle(play, n) { "idle" } else { "syncing" };
    Ok(format!(in alloc;
        "{} rows, {tree}, {whose}; it is {state}, at {}, and remembers {} rows",
        rows.len(),
        device.stamp().get(),
        device.mirror().len()
    )?)
}

/// Delivers a device's requests, each a hundredth of a second after the one before, until it is idle, at most 100; what
/// it asked.
pub fn finish(alloc: Global, play: &mut Play, n: u32, from: u64) -> anyhow::Result<String> {
    let mut deliveries: u64 = 0;
    let mut uploads: u64 = 0;
    let mut records: usize = 0;
    for _ in 0..100 {
        if is_idle(play, n) {
            break;
        }
        if let Some(count) = posts(alloc, play, n)? {
            uploads = uploads.saturating_add(1);
            records = records.saturating_add(count);
        }
        deliver(alloc, play, n, from.saturating_add(deliveries))?;
        deliveries = deliveries.saturating_add(1);
    }
    Ok(format!(in alloc; "{deliveries} deliveries, {uploads} POSTs of {records} records")?)
}

/// A device gets three bookmarks.
fn add_three(alloc: Global, play: &mut Play) -> anyhow::Result<()> {
    for text in ["b1", "b2", "b3"] {
        add(alloc, play, 0, text)?;
    }
    Ok(())
}

/// A device syncs three bookmarks.
fn three(alloc: Global, play: &mut Play) -> anyhow::Result<String> {
    add_three(alloc, play)?;
    start(alloc, play, 0)?;
    let asked = finish(alloc, play, 0, 998)?;
    let told = tell(alloc, play, 0)?;
    Ok(format!(in alloc; "three bookmarks: {asked}: {told}")?)
}

/// A device with three bookmarks is about to send its POST.
fn fetch_none(alloc: Global, play: &mut Play) -> anyhow::Result<()> {
    add_three(alloc, play)?;
    start(alloc, play, 0)?;
    deliver(alloc, play, 0, 998)?;
    deliver(alloc, play, 0, 999)
}

/// A request of device 0 comes to the account, and the reply is lost.
fn lose_reply(alloc: Global, play: &mut Play, now: u64) -> anyhow::Result<()> {
    happen(alloc, play, &Event::LoseReply { device: 0, now })
}

/// The reply of the POST is lost.
fn lost(alloc: Global, play: &mut Play) -> anyhow::Result<String> {
    fetch_none(alloc, play)?;
    lose_reply(alloc, play, 1000)?;
    let told = tell(alloc, play, 0)?;
    Ok(format!(in alloc; "its POST's reply is lost: {told}")?)
}

/// The device whose POST's reply was lost syncs again.
fn lost_again(alloc: Global, play: &mut Play) -> anyhow::Result<String> {
    start(alloc, play, 0)?;
    let asked = finish(alloc, play, 0, 1100)?;
    let told = tell(alloc, play, 0)?;
    Ok(format!(in alloc; "it syncs again: {asked}: {told}")?)
}

/// Two devices fetch the empty collection, and both send their POST.
fn both(alloc: Global, play: &mut Play) -> anyhow::Result<String> {
    for (device, text) in [(0, "b1"), (1, "b2")] {
        add(alloc, play, device, text)?;
        start(alloc, play, device)?;
        deliver(alloc, play, device, 998)?;
        deliver(alloc, play, device, 999)?;
    }
    deliver(alloc, play, 0, 1000)?;
    deliver(alloc, play, 1, 1001)?;
    let told = tell(alloc, play, 1)?;
    Ok(format!(in alloc;
        "two devices fetched nothing and both POST, the second one's is 412: {told}"
    )?)
}

/// The second device goes on.
fn both_again(alloc: Global, play: &mut Play) -> anyhow::Result<String> {
    let asked = finish(alloc, play, 1, 1002)?;
    let told = tell(alloc, play, 1)?;
    Ok(format!(in alloc; "it fetches again: {asked}: {told}")?)
}

/// What others may not ask.
fn touching(alloc: Global) -> anyhow::Result<Vec<Request>> {
    let cond = Cond::Free;
    let fields = Fields {
        payload: Field::Set(word(alloc, "{}")?),
        sortindex: Field::Keep,
        ttl: Field::Keep,
    };
    let mut all = Vec::new(alloc);
    all.push(Request::DeleteAll { cond })?;
    all.push(Request::DeleteCollection {
        collection: name(alloc, "bookmarks")?,
        cond,
    })?;
    all.push(Request::DeleteIds {
        collection: name(alloc, "bookmarks")?,
        ids: Ids::new(Vec::new(alloc)),
        cond,
    })?;
    all.push(Request::Delete {
        collection: name(alloc, "bookmarks")?,
        id: id(alloc, "b1")?,
        cond,
    })?;
    all.push(Request::Put {
        collection: name(alloc, "bookmarks")?,
        id: id(alloc, "b1")?,
        fields,
        cond,
    })?;
    all.push(post(alloc, "bookmarks")?)?;
    Ok(all)
}

/// A POST of no records that begins a batch.
pub fn post(alloc: Global, collection: &str) -> anyhow::Result<Request> {
    let records = Records {
        parts: Parts::new(Vec::new(alloc)),
        failed: Failures::new(Vec::new(alloc)),
    };
    Ok(Request::Post {
        collection: name(alloc, collection)?,
        records,
        mode: Mode::Begin,
        cond: Cond::Free,
    })
}

/// A PUT of a record.
pub fn put(alloc: Global, collection: &str, text: &str) -> anyhow::Result<Request> {
    let fields = Fields {
        payload: Field::Set(word(alloc, text)?),
        sortindex: Field::Keep,
        ttl: Field::Keep,
    };
    Ok(Request::Put {
        collection: name(alloc, collection)?,
        id: id(alloc, "z")?,
        fields,
        cond: Cond::Free,
    })
}

/// A GET of a whole collection.
pub fn list(alloc: Global, collection: &str) -> anyhow::Result<Request> {
    let query = Query {
        ids: None,
        newer: None,
        older: None,
        limit: None,
        offset: 0,
        sort: Sort::Newest,
        full: true,
    };
    Ok(Request::List {
        collection: name(alloc, collection)?,
        query,
        cond: Cond::Free,
    })
}

/// Whether an event is refused since it touches the bookmarks.
fn touches(alloc: Global, play: &mut Play, event: &Event) -> anyhow::Result<bool> {
    let fault = play.step(alloc, event)?;
    Ok(matches!(fault, Some(WorldFault::Touches)))
}

/// Whether a request of others is refused since it touches the bookmarks.
fn is_refused(alloc: Global, play: &mut Play, request: Request) -> anyhow::Result<bool> {
    let event = Event::Other { now: 1000, request };
    touches(alloc, play, &event)
}

/// How many requests of others are refused of these.
fn count_refused(alloc: Global, play: &mut Play, requests: Vec<Request>) -> anyhow::Result<u32> {
    let mut refused: u32 = 0;
    for request in requests {
        if is_refused(alloc, play, request)? {
            refused = refused.saturating_add(1);
        }
    }
    Ok(refused)
}

/// Others ask what they may; each of these is done.
fn ask_all(alloc: Global, play: &mut Play, requests: Vec<Request>) -> anyhow::Result<()> {
    for request in requests {
        happen(alloc, play, &Event::Other { now: 1000, request })?;
    }
    Ok(())
}

/// What others may ask.
fn permitted(alloc: Global) -> anyhow::Result<Vec<Request>> {
    let mut all = Vec::new(alloc);
    all.push(list(alloc, "bookmarks")?)?;
    all.push(put(alloc, "forms", "{}")?)?;
    all.push(post(alloc, "forms")?)?;
    Ok(all)
}

/// What others ask of the bookmarks, and what else.
fn others(alloc: Global, play: &mut Play) -> anyhow::Result<String> {
    let refused = count_refused(alloc, play, touching(alloc)?)?;
    ask_all(alloc, play, permitted(alloc)?)?;
    Ok(format!(in alloc;
        "others write or delete bookmarks: {refused} Touches of 6; they read them and write forms: each done"
    )?)
}

/// How an event is answered.
fn answer(alloc: Global, play: &mut Play, event: &Event) -> anyhow::Result<String> {
    match play.step(alloc, event)? {
        None => Ok(String::from_str(alloc, "done")?),
        Some(fault) => Ok(format!(in alloc; "{fault:?}")?),
    }
}

/// The events of a device, in the order of their definition.
fn events(alloc: Global, device: u32) -> anyhow::Result<Vec<Event>> {
    let fetch = Fetch::Newer;
    let edit = Edit::Delete {
        id: id(alloc, "gone")?,
    };
    Ok(vec![in alloc;
        Event::Deliver { device, now: 1 },
        Event::LoseRequest { device },
        Event::LoseReply { device, now: 2 },
        Event::Anew { device },
        Event::Change {
            device,
            now: 3,
            edit
        },
        Event::Start { device, fetch },
    ]?)
}

/// How events are answered, in their order.
fn answers(
    alloc: Global,
    play: &mut Play,
    title: &str,
    events: &[Event],
) -> anyhow::Result<String> {
    let mut line = format!(in alloc; "{title}:")?;
    for event in events.iter() {
        let answer = answer(alloc, play, event)?;
        line.push_str(" ")?;
        line.push_str(answer.as_str())?;
    }
    Ok(line)
}

/// Events of a device that syncs.
fn busy(alloc: Global) -> anyhow::Result<Vec<Event>> {
    let (device, fetch) = (0, Fetch::Whole);
    let edit = Edit::Delete {
        id: id(alloc, "gone")?,
    };
    Ok(vec![in alloc;
        Event::Start { device, fetch },
        Event::Change {
            device,
            now: 4,
            edit
        },
        Event::LoseRequest { device },
    ]?)
}

/// How the events of a device, in the order of their definition, are answered.
fn answers_of(alloc: Global, play: &mut Play, title: &str, device: u32) -> anyhow::Result<String> {
    let events = events(alloc, device)?;
    answers(alloc, play, title, &events)
}

/// How events of a device that syncs are answered.
fn answers_of_busy(alloc: Global, play: &mut Play) -> anyhow::Result<String> {
    let events = busy(alloc)?;
    answers(alloc, play, "a device that syncs", &events)
}

/// How events of an idle device, of one that syncs and of one that isn't there are answered.
fn refusals(alloc: Global, play: &mut Play) -> anyhow::Result<Vec<String>> {
    let mut lines = Vec::new(alloc);
    lines.push(answers_of(alloc, play, "an idle device", 0)?)?;
    lines.push(answers_of_busy(alloc, play)?)?;
    lines.push(answers_of(alloc, play, "no device", 1)?)?;
    Ok(lines)
}

/// A worked play, which begins anew, or the long upload.
#[derive(Clone, Copy)]
enum Part {
    Three,
    Lost,
    Both,
    Others,
    Refusals,
    Upload,
}

impl Part {
    /// The devices that it begins with.
    fn devices(self, alloc: Global) -> anyhow::Result<Vec<Device>> {
        match self {
            Part::Both => new_devices(alloc, 2),
            Part::Upload => uploads::devices(alloc),
            _ => new_devices(alloc, 1),
        }
    }
}

fn lost_twice(alloc: Global, play: &mut Play) -> anyhow::Result<Vec<String>> {
    Ok(vec![in alloc; lost(alloc, play)?, lost_again(alloc, play)?]?)
}

fn both_twice(alloc: Global, play: &mut Play) -> anyhow::Result<Vec<String>> {
    Ok(vec![in alloc; both(alloc, play)?, both_again(alloc, play)?]?)
}

/// What a part tells of a play that begins.
fn told_by(alloc: Global, play: &mut Play, part: Part) -> anyhow::Result<Vec<String>> {
    match part {
        Part::Three => Ok(vec![in alloc; three(alloc, play)?]?),
        Part::Lost => lost_twice(alloc, play),
        Part::Both => both_twice(alloc, play),
        Part::Others => Ok(vec![in alloc; others(alloc, play)?]?),
        Part::Refusals => refusals(alloc, play),
        Part::Upload => Ok(vec![in alloc; uploads::upload(alloc, play)?]?),
    }
}

fn told_of(alloc: Global, way: Way, part: Part) -> anyhow::Result<Vec<String>> {
    let mut play = Play::fresh(alloc, way, part.devices(alloc)?)?;
    let told = told_by(alloc, &mut play, part);
    drop(play);
    told
}

/// Puts lines behind others, in their order.
fn append(lines: &mut Vec<String>, more: Vec<String>) -> anyhow::Result<()> {
    for line in more {
        lines.push(line)?;
    }
    Ok(())
}

/// The lines of the worked plays and of the long upload.
pub fn worked_lines(alloc: Global, way: Way) -> anyhow::Result<Vec<String>> {
    let mut lines = Vec::new(alloc);
    for part in [
        Part::Three,
        Part::Lost,
        Part::Both,
        Part::Others,
        Part::Refusals,
        Part::Upload,
    ] {
        append(&mut lines, told_of(alloc, way, part)?)?;
    }
    Ok(lines)
}
