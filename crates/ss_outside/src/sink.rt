//! Where bytes go to.

ghost use Rattle.std.specs.Prelude.{◌≡◌, ◌≤◌, ◌++◌, ℕ, List, IfOk, OnOk, OnErr, length};
ghost use Rattle.ss_outside.specs.Told.{HasWritten, bytes_accepted};
ghost use Rattle.ss_outside.specs.Causes.{RisesOnErr, RisesOnRefusal};

use crate::told::Told;

/// A write failed, or took nothing of a piece that isn't empty.
#[derive(Clone, Copy, Debug, PartialEq, Eq)]
pub struct WriteFault;

/// Where bytes go to.
pub trait Sink: Told {
    /// Writes bytes from the front of `from`. Ok(0) for a piece that isn't empty counts as a fault.
    fn write(&mut self, from: &[u8]) -> Result<usize, WriteFault>
        ensures bound { IfOk result (λ count. count ≤ length from.now) }
        ensures bytes { HasWritten (bytes_accepted result from.now) (Self.Told.told self.old) (Self.Told.told self.new) }
        ensures cause { RisesOnRefusal (length from.now) (Self.Told.told self.old).write_faults (Self.Told.told self.new).write_faults result };
}

/// Writes the whole piece, unless a write fails; then a front of it was written.
pub fn write_all<T: Sink>(sink: &mut T, from: &[u8]) -> Result<(), WriteFault>
    ensures whole { OnOk result (HasWritten from.now (T.Told.told sink.old) (T.Told.told sink.new)) }
    ensures partly { OnErr result ((sent : List ℕ) × (rest : List ℕ) × (from.now ≡ sent ++ rest)
        × HasWritten sent (T.Told.told sink.old) (T.Told.told sink.new)) }
    ensures cause { RisesOnErr (T.Told.told sink.old).write_faults (T.Told.told sink.new).write_faults result }
{
    let mut at = 0;
    while at < from.len() {
        let count = sink.write(&from[at..])?;
        if count == 0 {
            return Err(WriteFault);
        }
        at += count;
    }
    Ok(())
}
