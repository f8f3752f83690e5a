//! Lists of drawn events: edits, syncs, lost requests and replies, devices and servers that are started anew, and other
//! requests. Each is played in a world, and the first ones over bytes too.

use crate::worlds::checks::is_of_device;
use crate::worlds::comparing::are_same;
use crate::worlds::draws::Draw;
use crate::worlds::items::{id, item, word};
use crate::worlds::playing::{add, bookmarks, is_idle, new_devices};
use crate::worlds::plays::{Play, Way};
use crate::worlds::watching::Watch;
use crate::worlds::worked::{list, post, put, tell};
use anyhow::bail;
use ss_client::Fetch;
use ss_query::Request;
use ss_route::Manner;
use ss_text::Cond;
use ss_world::{Edit, Event};
use std::alloc::Global;

const LISTS: u64 = 2000;

/// The first so many of them are played over bytes too.
const OVER_BYTES: u64 = 200;

const EVENTS: u64 = 40;

const DEVICES: u32 = 2;

/// Every so many lists begin with a device whose upload takes several POSTs.
const LARGE: u64 = 20;

const MANY: u64 = 150;

const PLACES: [&str; 9] = [
    "menu", "toolbar", "unfiled", "mobile", "f0", "f1", "f2", "f3", "b0",
];

fn place(draw: &mut Draw) -> &'static str {
    match PLACES.get(draw.below(9) as usize) {
        Some(place) => place,
        None => "menu",
    }
}

/// The id of a folder or of a bookmark.
fn thing(alloc: Global, draw: &mut Draw) -> anyhow::Result<String> {
    if draw.below(3) == 0 {
        Ok(format!(in alloc; "f{}", draw.below(4))?)
    } else {
        Ok(format!(in alloc; "b{}", draw.below(12))?)
    }
}

fn edit(alloc: Global, draw: &mut Draw) -> anyhow::Result<Edit> {
    let parent = id(alloc, place(draw))?;
    let text = thing(alloc, draw)?;
    Ok(match draw.below(8) {
        0 => Edit::Rename {
            id: id(alloc, text.as_str())?,
            title: word(alloc, place(draw))?,
        },
        1 | 2 => Edit::Move {
            id: id(alloc, text.as_str())?,
            parent,
        },
        3 => Edit::Delete {
            id: id(alloc, text.as_str())?,
        },
        _ => Edit::Add {
            parent,
            item: item(alloc, text.as_str())?,
        },
    })
}

fn other(alloc: Global, draw: &mut Draw) -> anyhow::Result<Request> {
    match draw.below(5) {
        0 => put(alloc, "forms", "x"),
        1 => list(alloc, "bookmarks"),
        2 => post(alloc, "forms"),
        3 => put(alloc, "bookmarks", "{}"),
        _ => Ok(Request::DeleteAll { cond: Cond::Free }),
    }
}

/// A reading of the clock: mostly a little later than the last one, now and then long after it, or before it.
fn reading(draw: &mut Draw, clock: &mut u64) -> u64 {
    match draw.below(40) {
        0 => draw.below(*clock),
        1 => {
            *clock = clock.saturating_add(800_000);
            *clock
        }
        _ => {
            *clock = clock.saturating_add(draw.below(50));
            *clock
        }
    }
}

fn event(alloc: Global, draw: &mut Draw, clock: &mut u64) -> anyhow::Result<Event> {
    let device = match draw.below(20) {
        0 => DEVICES,
        n => (n % 2) as u32,
    };
    let now = reading(draw, clock);
    Ok(match draw.below(32) {
        0 | 1 | 2 | 3 => Event::Start {
            device,
            fetch: if draw.below(2) == 0 {
                Fetch::Whole
            } else {
                Fetch::Newer
            },
        },
        4 => Event::LoseRequest { device },
        5 | 6 => Event::LoseReply { device, now },
        7 => Event::Anew { device },
        8 | 9 | 10 | 11 | 12 => Event::Change {
            device,
            now,
            edit: edit(alloc, draw)?,
        },
        13 | 14 => Event::Other {
            now,
            request: other(alloc, draw)?,
        },
        15 => Event::Tick { now },
        16 => Event::Reopen,
        _ => Event::Deliver { device, now },
    })
}

/// A device begins a sync, and what it had under way is given up.
fn begin(alloc: Global, watch: &mut Watch, play: &mut Play, device: u32) -> anyhow::Result<()> {
    watch.step(alloc, play, Event::Anew { device })?;
    let fetch = Fetch::Newer;
    watch.step(alloc, play, Event::Start { device, fetch })
}

/// A device's requests come to the account, at most so many, until it has none under way.
fn deliver_all(
    alloc: Global,
    watch: &mut Watch,
    play: &mut Play,
    device: u32,
    now: u64,
) -> anyhow::Result<()> {
    for _ in 0..20 {
        if !is_idle(play, device) {
            watch.step(alloc, play, Event::Deliver { device, now })?;
        }
    }
    Ok(())
}

/// A device syncs while nothing else happens.
fn sync(
    alloc: Global,
    watch: &mut Watch,
    play: &mut Play,
    device: u32,
    now: u64,
) -> anyhow::Result<()> {
    begin(alloc, watch, play, device)?;
    deliver_all(alloc, watch, play, device, now)?;
    if !is_idle(play, device) {
        bail!("a sync that doesn't end");
    }
    Ok(())
}

/// Whether the rows stand for the tree of each device.
fn do_agree(alloc: Global, play: &Play) -> anyhow::Result<bool> {
    let rows = bookmarks(alloc, play)?;
    for n in 0..DEVICES {
        let Some(device) = play.device(n) else {
            bail!("no device");
        };
        if !is_of_device(alloc, &rows, device)? {
            return Ok(false);
        }
    }
    Ok(true)
}

/// Plays a list of events; whether the devices agree after a sync of each.
fn play_list(
    alloc: Global,
    watch: &mut Watch,
    play: &mut Play,
    number: u64,
) -> anyhow::Result<bool> {
    if number.checked_rem(LARGE) == Some(0) {
        add_many(alloc, play)?;
    }
    let clock = play_events(alloc, watch, play, number)?;
    sync_all(alloc, watch, play, clock.saturating_add(800_000))?;
    do_agree(alloc, play)
}

/// Device 0 gets as many bookmarks as an upload of several POSTs has.
fn add_many(alloc: Global, play: &mut Play) -> anyhow::Result<()> {
    for k in 0..MANY {
        let text = format!(in alloc; "x{k}")?;
        add(alloc, play, 0, text.as_str())?;
    }
    Ok(())
}

/// The events of a list happen, or are refused; what the clock read last.
fn play_events(
    alloc: Global,
    watch: &mut Watch,
    play: &mut Play,
    number: u64,
) -> anyhow::Result<u64> {
    let mut draw = Draw::new(number);
    let mut clock: u64 = 1000;
    for _ in 0..EVENTS {
        watch.step(alloc, play, event(alloc, &mut draw, &mut clock)?)?;
    }
    Ok(clock)
}

/// Both devices sync, and the first one again.
fn sync_all(alloc: Global, watch: &mut Watch, play: &mut Play, now: u64) -> anyhow::Result<()> {
    for device in [0, 1, 0] {
        sync(alloc, watch, play, device, now)?;
    }
    Ok(())
}

/// Tells what each device is in the end.
fn tell_all(alloc: Global, watch: &mut Watch, play: &Play) -> anyhow::Result<()> {
    for n in 0..DEVICES {
        watch.lines.push(tell(alloc, play, n)?)?;
    }
    Ok(())
}

/// What came of a list.
#[derive(Drop)]
struct Played {
    watch: Watch,
    /// Whether the devices agree in the end.
    agree: bool,
}

/// Whether a list is played over bytes too, so that it is told what comes of its events.
fn is_over_bytes(number: u64) -> bool {
    number < OVER_BYTES
}

/// Plays a list, and tells the devices where it is told what comes of its events; whether they agree in the end.
fn agree_in(
    alloc: Global,
    watch: &mut Watch,
    play: &mut Play,
    number: u64,
) -> anyhow::Result<bool> {
    let agree = play_list(alloc, watch, play, number)?;
    if is_over_bytes(number) {
        tell_all(alloc, watch, play)?;
    }
    Ok(agree)
}

/// What comes of a list in a play that begins.
fn watched(alloc: Global, play: &mut Play, number: u64) -> anyhow::Result<Played> {
    let mut watch = Watch::new(alloc, DEVICES as usize, is_over_bytes(number))?;
    let agree = agree_in(alloc, &mut watch, play, number)?;
    Ok(Played { watch, agree })
}

fn outcome_of(alloc: Global, way: Way, number: u64) -> anyhow::Result<Played> {
    let mut play = Play::fresh(alloc, way, new_devices(alloc, DEVICES)?)?;
    let played = watched(alloc, &mut play, number);
    drop(play);
    played
}

/// What all lists come to.
#[derive(Drop)]
struct Total {
    agree: u64,
    commits: u64,
    unheard: u64,
    refused: u64,
    violations: u64,
    /// Of how many each line is the same over bytes, by the letter and as browsers ask.
    by_letter: u64,
    as_browsers: u64,
}

impl Total {
    fn new() -> Total {
        Total {
            agree: 0,
            commits: 0,
            unheard: 0,
            refused: 0,
            violations: 0,
            by_letter: 0,
            as_browsers: 0,
        }
    }

    fn add(&mut self, played: &Played) {
        let watch = &played.watch;
        self.agree = self.agree.saturating_add(u64::from(played.agree));
        self.commits = self.commits.saturating_add(watch.commits);
        self.unheard = self.unheard.saturating_add(watch.unheard);
        self.refused = self.refused.saturating_add(watch.refused);
        self.violations = self.violations.saturating_add(watch.violations);
    }

    /// Plays a list over bytes; 1 where each of its lines is the same as in the world, else 0.
    fn play_over(
        &mut self,
        alloc: Global,
        manner: Manner,
        number: u64,
        lines: &[String],
    ) -> anyhow::Result<u64> {
        let played = outcome_of(alloc, Way::Bytes(manner), number)?;
        self.violations = self.violations.saturating_add(played.watch.violations);
        Ok(u64::from(are_same(lines, played.watch.lines.as_slice())))
    }

    /// Plays a list over bytes in both manners.
    fn play_over_bytes(
        &mut self,
        alloc: Global,
        number: u64,
        lines: &[String],
    ) -> anyhow::Result<()> {
        let by_letter = self.play_over(alloc, Manner::Profile, number, lines)?;
        self.by_letter = self.by_letter.saturating_add(by_letter);
        let as_browsers = self.play_over(alloc, Manner::Browser, number, lines)?;
        self.as_browsers = self.as_browsers.saturating_add(as_browsers);
        Ok(())
    }

    /// Plays a list.
    fn play(&mut self, alloc: Global, number: u64) -> anyhow::Result<()> {
        let played = outcome_of(alloc, Way::World, number)?;
        self.add(&played);
        if is_over_bytes(number) {
            self.play_over_bytes(alloc, number, played.watch.lines.as_slice())?;
        }
        Ok(())
    }
}

/// Whether something happened often.
fn often(count: u64) -> &'static str {
    if count >= 100 { "often" } else { "not often" }
}

pub fn drawn_lines(alloc: Global) -> anyhow::Result<Vec<String>> {
    let mut total = Total::new();
    for number in 0..LISTS {
        total.play(alloc, number)?;
    }
    Ok(vec![in alloc;
        format!(in alloc;
            "{LISTS} lists of {EVENTS} events: {} violations; in {} both devices agree in the end",
            total.violations, total.agree
        )?,
        format!(in alloc;
            "rows changed {}, unheard of {}; events were refused {}",
            often(total.commits),
            often(total.unheard),
            often(total.refused)
        )?,
        format!(in alloc;
            "{OVER_BYTES} of the lists over bytes: each line is the same in {} by the letter, in {} as browsers ask",
            total.by_letter, total.as_browsers
        )?,
    ]?)
}
