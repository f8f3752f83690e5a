//! Exchanges over accounts that are kept. Each is played over a keeper in memory and over one in a database, whole and
//! opened anew before each message; after each message all four must have answered alike and hold the same.

mod bodies;
mod exchange;
mod kept;
mod play;
mod reading;
mod wire;

use exchange::Exchange;
use play::{Sides, once};

/// Tells the answer to a message, and where the accounts didn't answer alike or hold the same.
fn tell_played(rt: &HostRuntime, answer: &str, is_same: bool) -> anyhow::Result<()> {
    println!(rt; "{answer}")?;
    if !is_same {
        println!(rt; "not alike after this message")?;
    }
    Ok(())
}

/// Plays an exchange over four accounts that are open.
fn tell_alike(rt: &HostRuntime, sides: &mut Sides, exchange: &Exchange) -> anyhow::Result<()> {
    for timed in exchange.messages.iter() {
        let (answer, is_same) = sides.play(rt.alloc(), timed)?;
        tell_played(rt, answer.as_str(), is_same)?;
    }
    println!(rt; "alike after each of {}", exchange.messages.len())?;
    Ok(())
}

/// Plays an exchange over four accounts.
fn show_alike(rt: &HostRuntime, exchange: &Exchange) -> anyhow::Result<()> {
    let mut sides = Sides::open(rt.alloc(), exchange)?;
    tell_alike(rt, &mut sides, exchange)
}

/// Plays one exchange and tells what was answered.
fn show(rt: &HostRuntime, exchange: &Exchange) -> anyhow::Result<()> {
    println!(rt; "exchange {}", exchange.title)?;
    if !exchange.is_once {
        return show_alike(rt, exchange);
    }
    for answer in once(rt.alloc(), exchange)?.iter() {
        println!(rt; "{answer}")?;
    }
    Ok(())
}

/// Tells what is answered in each exchange.
pub fn tell_cases(rt: &HostRuntime, lines: &[String]) -> anyhow::Result<()> {
    for exchange in reading::read(rt.alloc(), lines)?.iter() {
        show(rt, exchange)?;
    }
    wire::tell(rt)
}
