//! A text that ends after each of its bytes but the last, over a link and a town of its own each time.

use crate::terms::case::{Case, Planned};
use crate::terms::connections::{Outcome, open, serve};
use crate::terms::ending::Ending;
use anyhow::bail;
use ss_connection::End;
use ss_route::Manner;
use std::alloc::Global;
use std::sync::Wait;

/// What a connection of a fresh town does.
fn served<R: Wait>(rt: &R, alloc: Global, planned: Planned) -> anyhow::Result<Outcome> {
    let (town, mut passes) = open(alloc, 9, 0)?;
    let gate = Ending { from: 0 };
    let outcome = serve(
        rt,
        alloc,
        Manner::Profile,
        gate,
        &town,
        &mut passes,
        planned,
    );
    drop(passes);
    drop(town);
    Ok(outcome?)
}

/// Whether the input ended inside a message, and nothing was answered.
fn is_cut(outcome: &Outcome) -> bool {
    outcome.end == End::Cut
        && outcome.turns.is_empty()
        && outcome.link.written() == Some([].as_slice())
}

/// How many fronts of a text are cut.
fn count_cut<R: Wait>(rt: &R, alloc: Global, text: &[u8]) -> anyhow::Result<u32> {
    let mut count: u32 = 0;
    for end in 1..text.len() {
        let pieces = vec![in alloc; Vec::from_slice(alloc, &text[..end])?]?;
        let outcome = served(rt, alloc, Planned { pieces, failing: 0 })?;
        if is_cut(&outcome) {
            count = count.saturating_add(1);
        }
    }
    Ok(count)
}

/// The last text that comes from the last of these links.
fn last_text(links: &[Planned]) -> anyhow::Result<&[u8]> {
    let Some(planned) = links.last() else {
        bail!("no link");
    };
    match planned.pieces.last() {
        Some(text) => Ok(text.as_slice()),
        None => bail!("no text"),
    }
}

/// How many fronts of the text of these links are cut, and how many bytes it has.
fn told<R: Wait>(rt: &R, alloc: Global, links: &[Planned]) -> anyhow::Result<String> {
    let text = last_text(links)?;
    let count = count_cut(rt, alloc, text)?;
    Ok(format!(in alloc;
        "{} bytes; after {count} of them: Cut, turns none, wrote nothing",
        text.len()
    )?)
}

/// What is told of the fronts of a text.
pub fn fronts_line<R: Wait>(rt: &R, alloc: Global, case: Case) -> anyhow::Result<String> {
    let told = told(rt, alloc, case.links.as_slice());
    drop(case);
    told
}
