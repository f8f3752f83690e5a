//! The response that is there without memory.

ghost use Rattle.std.specs.Prelude.{◌≡◌, ◌≤◌, ◌+◌, ◌++◌, length, take};
ghost use Rattle.ss_text.specs.Time.{stamp_text};
ghost use Rattle.ss_http.specs.Responses.{close_text, memory_response};

use itoa::Buffer;
use ss_text::Stamp;

/// What stands before the time.
const BEFORE: &str = "HTTP/1.1 507 Insufficient Storage\r\nX-Weave-Timestamp: ";

/// What stands behind the time.
const BEHIND: &str = "\r\nContent-Type: application/json\r\nContent-Length: 8\r\n";

/// The field that ends the connection.
const CLOSE: &str = "Connection: close\r\n";

/// The empty line and the body.
const BODY: &str = "\r\n\"memory\"";

/// Writes a text at that place, and answers where it ends.
fn put(room: &mut [u8], at: usize, text: &[u8]) -> usize
    requires { at + length text.now ≤ length room.old }
    ensures end { result ≡ at + length text.now }
    ensures text { take result room.new ≡ take at room.old ++ text.now }
{
    room[at..at + text.len()].copy_from_slice(text);
    at + text.len()
}

/// Writes a time at that place, and answers where it ends.
#[tactic(auto, unfolding(ss_text::specs::Time::stamp_text))]
fn put_stamp(room: &mut [u8], at: usize, stamp: Stamp) -> usize
    requires { at + 23 ≤ length room.old }
    ensures end { result ≡ at + length (stamp_text stamp) }
    ensures within { result ≤ at + 23 }
    ensures text { take result room.new ≡ take at room.old ++ stamp_text stamp }
{
    let mut number = Buffer::new();
    let seconds = number.format(stamp.get() / 100).as_bytes();
    let hundredths = (stamp.get() % 100) as u8;
    let point = put(room, at, seconds);
    put(
        room,
        point,
        &[b'.', b'0' + hundredths / 10, b'0' + hundredths % 10],
    )
}

/// Writes the field that ends the connection at that place, if it is to end, and answers where it ends.
fn put_close(room: &mut [u8], at: usize, last: bool) -> usize
    requires { at + 19 ≤ length room.old }
    ensures end { result ≡ at + length (close_text last) }
    ensures within { result ≤ at + 19 }
    ensures text { take result room.new ≡ take at room.old ++ close_text last }
{
    if last {
        put(room, at, CLOSE.as_bytes())
    } else {
        at
    }
}

/// How many of the bytes of `memory_response` are the response.
pub fn memory_response_len(moment: Stamp, last: bool) -> usize
    ensures value { result ≡ length (memory_response moment last) }
    ensures within { result ≤ 256 }
{
    let mut number = Buffer::new();
    let stamp = number.format(moment.get() / 100).len() + 3;
    let close = if last { CLOSE.len() } else { 0 };
    BEFORE.len() + stamp + BEHIND.len() + close + BODY.len()
}

/// The response that says that no memory was found: 507 with the body `"memory"`, in the first `memory_response_len`
/// bytes.
pub fn memory_response(moment: Stamp, last: bool) -> [u8; 256]
    ensures { take (length (memory_response moment last)) result ≡ memory_response moment last }
{
    let mut room = [0u8; 256];
    let stamp = put(&mut room, 0, BEFORE.as_bytes());
    let behind = put_stamp(&mut room, stamp, moment);
    let close = put(&mut room, behind, BEHIND.as_bytes());
    let body = put_close(&mut room, close, last);
    put(&mut room, body, BODY.as_bytes());
    room
}
