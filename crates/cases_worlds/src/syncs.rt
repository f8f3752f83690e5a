//! Syncs of devices with an account in memory, and how they went. Each is a run of the command `sync` over a dial,
//! links and files in memory, and a real account makes the replies.

mod devices;
mod each;
mod net;
mod play;
mod runs;
mod script;
mod server;
mod twists;
mod wire;

use play::Play;

/// Tells how each sync went.
pub fn tell_cases(rt: &HostRuntime, lines: &[String]) -> anyhow::Result<()> {
    let mut play = Play::new(rt.alloc())?;
    let told = script::tell(rt, &mut play, lines);
    drop(play);
    told
}
