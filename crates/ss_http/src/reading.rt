//! The next message of a source.

ghost use Rattle.std.specs.Prelude.{◌≡◌, ◌≤◌, ◌<◌, ◌+◌, ℕ, List, ◌++◌, Some, length, IfOk, OnOk, drop, Err, IfErr};
ghost use Rattle.std.specs.Prelude.{IfSome, IfNone, MatchResult};
ghost use Rattle.httparse.specs.Grammar.{HasNoRequest};
ghost use Rattle.ss_outside.specs.Told.{HasRead};
ghost use Rattle.ss_http.specs.Buffers.{Brings};
ghost use Rattle.ss_http.specs.Faults.{IsMessageFault, IsRefusal};
ghost use Rattle.ss_http.specs.Heads.{IsHeadAt};
ghost use Rattle.ss_http.specs.Reading.{DecidesHead, IsShort, EndsWith, RisesWith, ReadsNext, ended_by};
ghost use Rattle.ss_http.specs.Messages.{ReadsMessage};
ghost use Rattle.ss_http.specs.declared.message.Message.{Message};

use crate::buffer::Buffer;
use crate::fault::MsgFault;
use crate::head::{Found, Head, find_head};
use crate::limits::{HEAD_ROOM, ROOM};
use crate::message::Message;
use ss_outside::Source;
use ss_text::Bytes;
use std::alloc::Global;

/// Reads until a line end came, or as many bytes are kept as a head may have: before that no head becomes whole.
fn read_line<S: Source>(buffer: &mut Buffer, source: &mut S) -> Result<(), MsgFault>
    requires headless { HasNoRequest buffer.old.bytes }
    requires short { length buffer.old.bytes < HEAD_ROOM }
    ensures stop { buffer.new.stop ≡ buffer.old.stop }
    ensures bytes { Brings buffer.old.bytes buffer.new.bytes (S.Told.told source.old) (S.Told.told source.new) }
    ensures more { OnOk result (length buffer.old.bytes < length buffer.new.bytes) }
    ensures fault { IfErr result (λ e. IsMessageFault e buffer.new.bytes) }
    ensures ended { IfErr result (λ e. EndsWith e (S.Told.told source.new)) }
    ensures cause { MatchResult result
        (λ _. (S.Told.told source.new).read_faults ≡ (S.Told.told source.old).read_faults)
        (λ e. RisesWith e (S.Told.told source.old).read_faults (S.Told.told source.new).read_faults) }
{
    'lines: loop {
        let before = buffer.kept().len();
        match buffer.fill(source) {
            Err(_) => return Err(MsgFault::ReadFault),
            Ok(0) => return Err(ended(buffer)),
            Ok(_) => {}
        }
        let kept = buffer.kept();
        if kept.len() >= HEAD_ROOM || kept[before..].contains(&b'\n') {
            return Ok(());
        }
    }
}

/// Reads until a head stands at the front of what is kept.
fn read_head<S: Source>(
    alloc: Global,
    buffer: &mut Buffer,
    source: &mut S,
) -> Result<Head, MsgFault>
    ensures stop { buffer.new.stop ≡ buffer.old.stop }
    ensures bytes { Brings buffer.old.bytes buffer.new.bytes (S.Told.told source.old) (S.Told.told source.new) }
    ensures head { IfOk result (λ head. IsHeadAt buffer.new.bytes head) }
    ensures ready { DecidesHead buffer.old.bytes → (buffer.new ≡ buffer.old)
        × (S.Told.told source.new ≡ S.Told.told source.old) }
    ensures fault { IfErr result (λ e. IsMessageFault e buffer.new.bytes) }
    ensures ended { IfErr result (λ e. EndsWith e (S.Told.told source.new)) }
    ensures cause { MatchResult result
        (λ _. (S.Told.told source.new).read_faults ≡ (S.Told.told source.old).read_faults)
        (λ e. RisesWith e (S.Told.told source.old).read_faults (S.Told.told source.new).read_faults) }
{
    'heads: loop {
        match find_head(alloc, buffer.kept()) {
            Err(_) => return Err(MsgFault::Memory),
            Ok(Found::Whole(head)) => return Ok(head),
            Ok(Found::Refused(fault)) => return Err(fault),
            Ok(Found::Unfinished) => {}
        }
        match read_line(buffer, source) {
            Ok(()) => {}
            Err(fault) => return Err(fault),
        }
    }
}

/// Reads until so many bytes are kept.
fn fill_to<S: Source>(buffer: &mut Buffer, source: &mut S, size: usize) -> Result<(), MsgFault>
    requires { size ≤ ROOM }
    ensures stop { buffer.new.stop ≡ buffer.old.stop }
    ensures bytes { Brings buffer.old.bytes buffer.new.bytes (S.Told.told source.old) (S.Told.told source.new) }
    ensures enough { OnOk result (size ≤ length buffer.new.bytes) }
    ensures ready { size ≤ length buffer.old.bytes → (buffer.new ≡ buffer.old)
        × (S.Told.told source.new ≡ S.Told.told source.old) }
    ensures fault { IfErr result (λ e. IsShort e size buffer.new.bytes) }
    ensures ended { IfErr result (λ e. EndsWith e (S.Told.told source.new)) }
    ensures cause { MatchResult result
        (λ _. (S.Told.told source.new).read_faults ≡ (S.Told.told source.old).read_faults)
        (λ e. RisesWith e (S.Told.told source.old).read_faults (S.Told.told source.new).read_faults) }
{
    'bodies: while buffer.kept().len() < size {
        match buffer.fill(source) {
            Err(_) => return Err(MsgFault::ReadFault),
            Ok(count) => {
                if count == 0 {
                    return Err(MsgFault::Cut);
                }
            }
        }
    }
    Ok(())
}

/// Reads until a message stands at the front of what is kept, and copies it.
fn read_whole<S: Source>(
    alloc: Global,
    buffer: &mut Buffer,
    source: &mut S,
) -> Result<(Message, usize), MsgFault>
    ensures stop { buffer.new.stop ≡ buffer.old.stop }
    ensures bytes { Brings buffer.old.bytes buffer.new.bytes (S.Told.told source.old) (S.Told.told source.new) }
    ensures whole { IfOk result (λ r. (r.1 ≤ length buffer.new.bytes) × ReadsMessage buffer.new.bytes r.0
        (drop r.1 buffer.new.bytes)) }
    ensures ready { (m : Message) (rest : List ℕ) → ReadsMessage buffer.old.bytes m rest
        → S.Told.told source.new ≡ S.Told.told source.old }
    ensures refused { IfErr result (λ e. IsRefusal e → DecidesHead buffer.old.bytes
        → S.Told.told source.new ≡ S.Told.told source.old) }
    ensures fault { IfErr result (λ e. IsMessageFault e buffer.new.bytes) }
    ensures ended { IfErr result (λ e. EndsWith e (S.Told.told source.new)) }
    ensures cause { MatchResult result
        (λ _. (S.Told.told source.new).read_faults ≡ (S.Told.told source.old).read_faults)
        (λ e. RisesWith e (S.Told.told source.old).read_faults (S.Told.told source.new).read_faults) }
{
    let head = read_head(alloc, buffer, source)?;
    let size = head.size + head.body;
    fill_to(buffer, source, size)?;
    let Ok(body) = Bytes::from_slice(alloc, &buffer.kept()[head.size..size]) else {
        return Err(MsgFault::Memory);
    };
    let Head {
        method,
        target,
        fields,
        last,
        ..
    } = head;
    Ok((
        Message {
            method,
            target,
            fields,
            body,
            last,
        },
        size,
    ))
}

/// Takes the next message of the kept and the coming bytes, and leaves what comes behind it. After `ReadFault` and
/// `Memory` the bytes that were read are kept, and the call can be made again; after another fault it answers the same.
pub fn read_message<S: Source>(
    alloc: Global,
    buffer: &mut Buffer,
    source: &mut S,
) -> Result<Message, MsgFault>
    ensures again { IfSome buffer.old.stop (λ fault. (result ≡ Err fault) × (buffer.new ≡ buffer.old)
        × (S.Told.told source.new ≡ S.Told.told source.old)) }
    ensures takes { IfNone buffer.old.stop ((got : List ℕ) × HasRead got (S.Told.told source.old)
        (S.Told.told source.new)
        × ReadsNext result (buffer.old.bytes ++ got) buffer.new) }
    // A message that is kept whole is given without a read.
    ensures ready { IfNone buffer.old.stop ((m : Message) (rest : List ℕ) → ReadsMessage buffer.old.bytes m rest
        → S.Told.told source.new ≡ S.Told.told source.old) }
    // A message whose head is refused is refused without a read where the head is kept whole, or as many bytes are kept
    // as it may have.
    ensures refused { IfNone buffer.old.stop (IfErr result (λ e. IsRefusal e → DecidesHead buffer.old.bytes
        → S.Told.told source.new ≡ S.Told.told source.old)) }
    ensures ended { IfNone buffer.old.stop (IfErr result (λ e. EndsWith e (S.Told.told source.new))) }
    ensures cause { IfNone buffer.old.stop (MatchResult result
        (λ _. (S.Told.told source.new).read_faults ≡ (S.Told.told source.old).read_faults)
        (λ e. RisesWith e (S.Told.told source.old).read_faults (S.Told.told source.new).read_faults)) }
{
    if let Some(fault) = buffer.stop() {
        return Err(fault);
    }
    match read_whole(alloc, buffer, source) {
        Ok((message, size)) => {
            buffer.take(size);
            Ok(message)
        }
        Err(fault) => {
            if let Some(lasting) = fault.lasting() {
                buffer.stop_at(lasting);
            }
            Err(fault)
        }
    }
}

/// The fault of an input that ended before a head was whole.
fn ended(buffer: &Buffer) -> MsgFault
    ensures { result ≡ ended_by buffer.now.bytes }
{
    if buffer.kept().is_empty() {
        MsgFault::End
    } else {
        MsgFault::Cut
    }
}
