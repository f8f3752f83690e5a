//! Reading an input whole.

ghost use Rattle.std.specs.Prelude.{◌≡◌, ◌<◌, length, IfOk, IfErr};
ghost use Rattle.ss_input.specs.Inputs.{Gets, IsUnread, IsWhole};

use crate::faults::InputFault;
use ss_outside::Source;
use std::alloc::Global;

/// The most bytes of an input.
const MOST: usize = 268_435_456;

/// How many bytes are read at once.
const PIECE: usize = 65_536;

/// Reads to `piece`, puts what came behind the text, and answers how many bytes that was; none at the input's end.
fn read_piece<S: Source>(
    input: &mut S,
    piece: &mut [u8],
    text: &mut Vec<u8>,
) -> Result<usize, InputFault>
    requires { 0 < length piece.old }
    ensures room { length piece.new ≡ length piece.old }
    ensures got { IfOk result (λ count. Gets text.old.items text.new.items count (S.Told.told input.old)
        (S.Told.told input.new)) }
    ensures unread { IfErr result (λ fault. IsUnread fault (S.Told.told input.old) (S.Told.told input.new)) }
{
    let count = match input.read(piece) {
        Ok(count) => count,
        Err(_) => return Err(InputFault::Failed),
    };
    match text.extend_from_slice(&piece[..count]) {
        Ok(()) => Ok(count),
        Err(_) => Err(InputFault::Memory),
    }
}

/// Reads an input to its end, where it has at most 268,435,456 bytes.
pub fn read_whole<S: Source>(alloc: Global, input: &mut S) -> Result<Vec<u8>, InputFault>
    ensures whole { IfOk result (λ text. IsWhole text.items (S.Told.told input.old) (S.Told.told input.new)) }
    ensures unread { IfErr result (λ fault. IsUnread fault (S.Told.told input.old) (S.Told.told input.new)) }
{
    let mut text = Vec::new(alloc);
    let mut piece = vec![in alloc; 0u8; PIECE]?;
    'pieces: while text.len() <= MOST {
        match read_piece(input, piece.as_mut_slice(), &mut text) {
            Ok(0) => return Ok(text),
            Ok(_) => {}
            Err(fault) => return Err(fault),
        }
    }
    Err(InputFault::TooLong)
}
