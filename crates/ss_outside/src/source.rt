//! Where bytes come from.

ghost use Rattle.std.specs.Prelude.{◌≡◌, ◌≤◌, IfOk, length};
ghost use Rattle.ss_outside.specs.Told.{EndsAt, HasRead, bytes_received};
ghost use Rattle.ss_outside.specs.Causes.{RisesOnErr};

use crate::told::Told;

/// A read failed.
#[derive(Clone, Copy, Debug, PartialEq, Eq)]
pub struct ReadFault;

/// Where bytes come from.
pub trait Source: Told {
    /// Reads bytes to the front of `into`, at most as many as it has room for. Ok(0) with room is the input's end.
    fn read(&mut self, into: &mut [u8]) -> Result<usize, ReadFault>
        ensures room { length into.new ≡ length into.old }
        ensures bound { IfOk result (λ count. count ≤ length into.new) }
        ensures bytes { HasRead (bytes_received result into.new) (Self.Told.told self.old) (Self.Told.told self.new) }
        ensures ended { EndsAt result (length into.old) (Self.Told.told self.old) }
        ensures cause { RisesOnErr (Self.Told.told self.old).read_faults (Self.Told.told self.new).read_faults result };
}
