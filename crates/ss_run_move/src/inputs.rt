//! Reading the text of a dump whole.

ghost use Rattle.std.specs.Prelude.{◌≡◌, ◌<◌, length, IfOk, IfErr};
ghost use Rattle.ss_input.specs.Inputs.{Gets};
ghost use Rattle.ss_run_move.specs.Inputs.{IsUnread, IsWhole};

use crate::endings::Ending;
use ss_outside::Source;
use std::alloc::Global;

/// The most bytes of a dump that is read.
const MOST: usize = 1_073_741_824;

/// How many bytes are read at once.
const PIECE: usize = 65_536;

/// Reads to `piece`, puts what came behind the text, and answers how many bytes that was; none at the input's end.
fn read_piece<S: Source>(
    input: &mut S,
    piece: &mut [u8],
    text: &mut Vec<u8>,
) -> Result<usize, Ending>
    requires { 0 < length piece.old }
    ensures room { length piece.new ≡ length piece.old }
    ensures got { IfOk result (λ count. Gets text.old.items text.new.items count (S.Told.told input.old)
        (S.Told.told input.new)) }
    ensures unread { IfErr result (λ ending. IsUnread ending (S.Told.told input.old) (S.Told.told input.new)) }
{
    let count = match input.read(piece) {
        Ok(count) => count,
        Err(_) => return Err(Ending::Input),
    };
    match text.extend_from_slice(&piece[..count]) {
        Ok(()) => Ok(count),
        Err(_) => Err(Ending::Memory),
    }
}

/// Reads an input to its end, where it has at most 1,073,741,824 bytes.
pub(crate) fn read_whole<S: Source>(alloc: Global, input: &mut S) -> Result<Vec<u8>, Ending>
    ensures whole { IfOk result (λ text. IsWhole text.items (S.Told.told input.old) (S.Told.told input.new)) }
    ensures unread { IfErr result (λ ending. IsUnread ending (S.Told.told input.old) (S.Told.told input.new)) }
{
    let mut text = Vec::new(alloc);
    let mut piece = vec![in alloc; 0u8; PIECE]?;
    'pieces: while text.len() <= MOST {
        match read_piece(input, piece.as_mut_slice(), &mut text) {
            Ok(0) => return Ok(text),
            Ok(_) => {}
            Err(ending) => return Err(ending),
        }
    }
    Err(Ending::TooLong)
}
