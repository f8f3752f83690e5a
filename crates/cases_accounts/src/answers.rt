//! Runs of the command `answer` over memory, a case a line. A line is a JSON list: the words; the pieces in which the
//! input comes; and the numbers of the read and of the write that fail, where 0 is none. After `cut` the input comes
//! byte by byte. What came is the status, and what was written, as a JSON text.

mod cases;
mod runs;

/// Tells what came of each line.
pub fn tell_cases(rt: &HostRuntime, lines: &[String]) -> anyhow::Result<()> {
    for line in lines {
        let case = cases::read(rt.alloc(), line.as_str())?;
        let told = runs::run_line(rt.alloc(), case)?;
        println!(rt; "{told}")?;
    }
    Ok(())
}
