//! Writing an output.

ghost use Rattle.ss_run_edit.specs.Endings.{Wrote};

use crate::endings::Ending;
use ss_outside::{Sink, write_all};

/// Writes a text.
pub(crate) fn write_out<T: Sink>(text: &[u8], output: &mut T) -> Ending
    ensures { Wrote text.now result (T.Told.told output.old) (T.Told.told output.new) }
{
    match write_all(output, text) {
        Ok(()) => Ending::Done,
        Err(_) => Ending::Output,
    }
}
