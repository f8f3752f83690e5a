//! The response of a source.

ghost use Rattle.std.specs.Prelude.{◌≡◌, ◌≤◌, ◌<◌, ◌+◌, List, ℕ, [], length, IfOk, IfErr, OnOk, MatchResult};
ghost use Rattle.httparse.specs.Grammar.{HasNoResponse};
ghost use Rattle.ss_outside.specs.Causes.{RisesOnErr};
ghost use Rattle.ss_outside.specs.Told.{HasRead};
ghost use Rattle.ss_http.specs.Buffers.{Brings};
ghost use Rattle.ss_http.specs.Hearing.{EndsHearing, Hearing, IsHeardFault, RisesHearing};
ghost use Rattle.ss_http.specs.Listening.{EndsWithout, IsAnswerAt, IsNoLonger, IsShortBody, byte_of};

use crate::answer::{Answer, Looked, look};
use crate::heard::{Heard, HeardFault};
use crate::limits::{HEAD_ROOM, HEARD_ROOM};
use ss_outside::{ReadFault, Source};
use ss_text::Bytes;
use std::alloc::Global;

/// How many bytes of a body are asked of the source at once.
const PIECE: usize = 65_536;

fn read_byte<S: Source>(source: &mut S) -> Result<Option<u8>, ReadFault>
    ensures bytes { HasRead (byte_of result) (S.Told.told source.old) (S.Told.told source.new) }
    ensures ended { EndsWithout result (S.Told.told source.new) }
    ensures cause { RisesOnErr (S.Told.told source.old).read_faults (S.Told.told source.new).read_faults result }
{
    let mut room = [0u8; 1];
    let count = source.read(&mut room)?;
    if count == 0 {
        Ok(None)
    } else {
        Ok(Some(room[0]))
    }
}

/// Reads to the next line end, or until as many bytes came as a head may have: before that no head becomes whole. A
/// byte at a time, so that none behind the head is taken.
fn read_line<S: Source>(head: &mut Vec<u8>, source: &mut S) -> Result<(), HeardFault>
    requires headless { HasNoResponse head.old.items }
    requires short { length head.old.items < HEAD_ROOM }
    ensures bytes { Brings head.old.items head.new.items (S.Told.told source.old) (S.Told.told source.new) }
    ensures more { OnOk result (length head.old.items < length head.new.items) }
    ensures room { length head.new.items ≤ HEAD_ROOM }
    ensures whole { OnOk result (IsNoLonger head.new.items) }
    ensures fault { IfErr result (λ e. IsHeardFault e head.new.items) }
    ensures ended { IfErr result (λ e. EndsHearing e (S.Told.told source.new)) }
    ensures cause { MatchResult result
        (λ _. (S.Told.told source.new).read_faults ≡ (S.Told.told source.old).read_faults)
        (λ e. RisesHearing e (S.Told.told source.old).read_faults (S.Told.told source.new).read_faults) }
{
    'bytes: loop {
        let Ok(()) = head.reserve(1) else {
            return Err(HeardFault::Memory);
        };
        match read_byte(source) {
            Err(_) => return Err(HeardFault::ReadFault),
            Ok(None) => return Err(HeardFault::Cut),
            Ok(Some(byte)) => {
                head.push_reserved(byte);
                if byte == b'\n' || head.len() == HEAD_ROOM {
                    return Ok(());
                }
            }
        }
    }
}

/// Reads a head, and no byte behind it.
fn read_answer<S: Source>(
    alloc: Global,
    head: &mut Vec<u8>,
    source: &mut S,
) -> Result<Answer, HeardFault>
    requires { head.old.items ≡ [] }
    ensures bytes { HasRead head.new.items (S.Told.told source.old) (S.Told.told source.new) }
    ensures answer { IfOk result (λ answer. IsAnswerAt head.new.items answer) }
    ensures whole { OnOk result (IsNoLonger head.new.items) }
    ensures fault { IfErr result (λ e. IsHeardFault e head.new.items) }
    ensures ended { IfErr result (λ e. EndsHearing e (S.Told.told source.new)) }
    ensures cause { MatchResult result
        (λ _. (S.Told.told source.new).read_faults ≡ (S.Told.told source.old).read_faults)
        (λ e. RisesHearing e (S.Told.told source.old).read_faults (S.Told.told source.new).read_faults) }
{
    'heads: loop {
        match look(alloc, head.as_slice()) {
            Err(_) => return Err(HeardFault::Memory),
            Ok(Looked::Whole(answer)) => return Ok(answer),
            Ok(Looked::Refused(fault)) => return Err(fault),
            Ok(Looked::Unfinished) => {}
        }
        match read_line(head, source) {
            Ok(()) => {}
            Err(fault) => return Err(fault),
        }
    }
}

/// Reads a piece of a body, at most as long as `piece`, in which it is received.
fn read_piece<S: Source>(
    body: &mut Vec<u8>,
    piece: &mut [u8],
    source: &mut S,
) -> Result<(), HeardFault>
    requires { 0 < length piece.old }
    ensures bytes { Brings body.old.items body.new.items (S.Told.told source.old) (S.Told.told source.new) }
    ensures more { OnOk result (length body.old.items < length body.new.items) }
    ensures most { length body.new.items ≤ length body.old.items + length piece.old }
    ensures fault { IfErr result (λ e. IsShortBody e (length body.old.items + 1) body.new.items) }
    ensures ended { IfErr result (λ e. EndsHearing e (S.Told.told source.new)) }
    ensures cause { MatchResult result
        (λ _. (S.Told.told source.new).read_faults ≡ (S.Told.told source.old).read_faults)
        (λ e. RisesHearing e (S.Told.told source.old).read_faults (S.Told.told source.new).read_faults) }
{
    let Ok(()) = body.reserve(piece.len()) else {
        return Err(HeardFault::Memory);
    };
    match source.read(piece) {
        Err(_) => Err(HeardFault::ReadFault),
        Ok(0) => Err(HeardFault::Cut),
        Ok(count) => match body.extend_from_slice(&piece[..count]) {
            Ok(()) => Ok(()),
            Err(_) => Err(HeardFault::Memory),
        },
    }
}

/// Reads a body of so many bytes. Room is taken as the bytes come.
fn read_body<S: Source>(
    alloc: Global,
    body: &mut Vec<u8>,
    source: &mut S,
    size: usize,
) -> Result<(), HeardFault>
    requires empty { body.old.items ≡ [] }
    requires limit { size ≤ HEARD_ROOM }
    ensures bytes { HasRead body.new.items (S.Told.told source.old) (S.Told.told source.new) }
    ensures whole { OnOk result (length body.new.items ≡ size) }
    ensures fault { IfErr result (λ e. IsShortBody e size body.new.items) }
    ensures ended { IfErr result (λ e. EndsHearing e (S.Told.told source.new)) }
    ensures cause { MatchResult result
        (λ _. (S.Told.told source.new).read_faults ≡ (S.Told.told source.old).read_faults)
        (λ e. RisesHearing e (S.Told.told source.old).read_faults (S.Told.told source.new).read_faults) }
{
    let Ok(mut room) = vec![in alloc; 0u8; size.min(PIECE)] else {
        return Err(HeardFault::Memory);
    };
    'pieces: while body.len() < size {
        let most = (size - body.len()).min(room.len());
        match read_piece(body, &mut room.as_mut_slice()[..most], source) {
            Ok(()) => {}
            Err(fault) => return Err(fault),
        }
    }
    Ok(())
}

/// Reads a response, and no byte behind it. After a fault the bytes that were read are dropped.
pub fn read_response<S: Source>(alloc: Global, source: &mut S) -> Result<Heard, HeardFault>
    ensures takes { (got : List ℕ) × HasRead got (S.Told.told source.old) (S.Told.told source.new)
        × Hearing result got }
    ensures ended { IfErr result (λ e. EndsHearing e (S.Told.told source.new)) }
    ensures cause { MatchResult result
        (λ _. (S.Told.told source.new).read_faults ≡ (S.Told.told source.old).read_faults)
        (λ e. RisesHearing e (S.Told.told source.old).read_faults (S.Told.told source.new).read_faults) }
{
    let mut head = Vec::new(alloc);
    let answer = read_answer(alloc, &mut head, source)?;
    let mut body = Vec::new(alloc);
    read_body(alloc, &mut body, source, answer.size)?;
    let Answer {
        status,
        modified,
        next,
        last,
        ..
    } = answer;
    Ok(Heard {
        status,
        modified,
        next,
        body: Bytes::new(body),
        last,
    })
}
