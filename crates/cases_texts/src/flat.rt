//! Sets of rows of history and forms: the rows of each set as the command `flat` reads them, behind a line with their
//! kind, and what each set comes to. Each is told in order, turned round and doubled, and cut in two at every place and
//! joined either way, and all of these have to tell the same. A line `draws SEED COUNT` draws sets, of which a sum is
//! told. One that is empty or begins with `#` stays as it is.

mod chances;
mod draws;
mod rows;
mod ways;

use rows::RowSet;

/// Tells a line, which belongs to this set.
fn tell(rt: &HostRuntime, set: &mut RowSet, line: &str) -> anyhow::Result<()> {
    if line.is_empty() || line.starts_with("#") {
        return Ok(rt.println(line)?);
    }
    let told = set.take(rt.alloc(), line)?;
    print!(rt; "{told}")?;
    Ok(())
}

/// Tells what the sets of these lines come to.
pub fn tell_cases(rt: &HostRuntime, lines: &[String]) -> anyhow::Result<()> {
    let mut set = RowSet::new(rt.alloc());
    for line in lines {
        tell(rt, &mut set, line.as_str())?;
    }
    Ok(())
}
