//! A long upload over a server that is started anew after each request.

use crate::worlds::items::{id, item};
use crate::worlds::playing::{bookmarks, deliver, happen, is_idle, posts, start};
use crate::worlds::plays::Play;
use crate::worlds::worked::tell;
use anyhow::bail;
use ss_device::Device;
use ss_world::Event;
use std::alloc::Global;

const ITEMS: u64 = 5996;

/// A device with so many bookmarks in `unfiled`.
fn device(alloc: Global) -> anyhow::Result<Device> {
    let mut device = Device::new(alloc)?;
    let parent = id(alloc, "unfiled")?;
    for number in 0..ITEMS {
        let text = format!(in alloc; "b{number:011}")?;
        if device
            .add(alloc, 900, &parent, item(alloc, text.as_str())?)
            .is_err()
        {
            bail!("a bookmark that is not added");
        }
    }
    Ok(device)
}

/// What was counted of an upload.
#[derive(Clone, Copy)]
struct Counts {
    requests: u64,
    posts: u64,
    /// How often the number of rows changed.
    commits: u64,
    rows: usize,
}

impl Counts {
    /// Counts the request under way, if it is a POST.
    fn count_post(&mut self, alloc: Global, play: &Play) -> anyhow::Result<()> {
        if posts(alloc, play, 0)?.is_some() {
            self.posts = self.posts.saturating_add(1);
        }
        Ok(())
    }

    /// Looks at the rows, and counts where their number changed.
    fn count_rows(&mut self, alloc: Global, play: &Play) -> anyhow::Result<()> {
        let seen = bookmarks(alloc, play)?.len();
        if seen != self.rows {
            self.commits = self.commits.saturating_add(1);
            self.rows = seen;
        }
        Ok(())
    }

    /// A request comes to the account, and the server is started anew.
    fn round(&mut self, alloc: Global, play: &mut Play, now: u64) -> anyhow::Result<()> {
        self.count_post(alloc, play)?;
        deliver(alloc, play, 0, now)?;
        self.requests = self.requests.saturating_add(1);
        happen(alloc, play, &Event::Reopen)?;
        self.count_rows(alloc, play)
    }
}

/// The rounds of an upload, at most 100.
fn rounds(alloc: Global, play: &mut Play) -> anyhow::Result<Counts> {
    let mut upload = Counts {
        requests: 0,
        posts: 0,
        commits: 0,
        rows: 0,
    };
    for now in 0..100 {
        if !is_idle(play, 0) {
            upload.round(alloc, play, now)?;
        }
    }
    Ok(upload)
}

/// The upload of the device's bookmarks: how many requests it has, and how often the rows change.
pub fn upload(alloc: Global, play: &mut Play) -> anyhow::Result<String> {
    start(alloc, play, 0)?;
    let upload = rounds(alloc, play)?;
    let told = tell(alloc, play, 0)?;
    Ok(format!(in alloc;
        "{ITEMS} bookmarks, the server is started anew after each request: {} requests, {} POSTs, {} commit: {told}",
        upload.requests, upload.posts, upload.commits
    )?)
}

/// The one device, with its bookmarks.
pub fn devices(alloc: Global) -> anyhow::Result<Vec<Device>> {
    Ok(vec![in alloc; device(alloc)?]?)
}
