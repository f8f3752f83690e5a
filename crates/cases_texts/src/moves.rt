//! Dumps and logs. A line `case TITLE` begins a case of dumps, `logs TITLE` one of logs; behind it stand the lines of a
//! text, each behind `|`, a last one without a newline behind `-`. Behind the text of a dump may stand `>COLLECTION BATCH
//! TIME`: the account that it moves is opened anew and asked to commit this batch at this time, in hundredths of a
//! second, and then for the ids of the collection. `docs/draw-dumps` and `docs/draw-logs` make the cases and what must
//! come of them, from the grammars and the rules alone.

mod dumps;
mod exchanges;
mod logs;

/// Whether a line belongs to the case before it.
fn is_inside(line: &String) -> bool {
    let line = line.as_str();
    !line.starts_with("case ") && !line.starts_with("logs ")
}

/// Tells what comes of the cases of these lines.
pub fn tell_cases(rt: &HostRuntime, lines: &[String]) -> anyhow::Result<()> {
    for case in lines.chunk_by(|_, line| is_inside(line)) {
        if let Some((title, lines)) = case.split_first() {
            let told = if title.as_str().starts_with("logs ") {
                logs::log_line(rt.alloc(), lines)?
            } else {
                dumps::dump_line(rt.alloc(), lines)?
            };
            println!(rt; "{title}: {told}")?;
        }
    }
    Ok(())
}
