//! Times in hundredths of a second, and conditions on them.

ghost use Rattle.std.specs.Prelude.{◌≡◌, ◌≤◌, ◌<◌, ◌^◌, ◌++◌, true, length, min, option_map, IfOk, OnOk, OnErr};
ghost use Rattle.std.specs.Prelude.{SomeIff};
ghost use Rattle.std.specs.Char.{is_ascii_digit};
ghost use Rattle.std.specs.List.{list_all};
ghost use Rattle.std.specs.Str.Parse.{digits_value};
ghost use Rattle.ss_text.specs.Time.{last_stamp, stamp_text, split_point, is_seconds, hundredths, with_fraction};
ghost use Rattle.ss_text.specs.Time.{stamp_of, stops};

use crate::numbers::{are_digits, value_of};
use itoa::Buffer;
use std::alloc::AllocError;
use std::marker::Model;

/// The last time that there is, in hundredths of a second.
pub const LAST: u64 = 999_999_999_999;

/// A time in hundredths of a second, from 0 to 999,999,999,999.
#[derive(Clone, Copy, Debug, PartialEq, Eq, Hash, PartialOrd, Ord)]
pub struct Stamp {
    hundredths: u64,
}

impl Model for Stamp {
    ghost use Rattle.std.specs.Prelude.{ℕ, ◌≤◌};

    ghost Value = { ℕ };

    ghost view = { λ s. s.hundredths };

    ghost invariant = { λ s. s.hundredths ≤ 999999999999 };

    ghost inverse = { λ n. record { hundredths = n } };
}

impl Stamp {
    /// The stamp of that many hundredths; None exactly above the last one.
    pub fn new(hundredths: u64) -> Option<Stamp>
        ensures { SomeIff result (hundredths ≤ last_stamp) hundredths }
    {
        if hundredths <= LAST {
            Some(Stamp { hundredths })
        } else {
            None
        }
    }

    /// The stamp of that many hundredths, or the last one.
    pub fn clamp(hundredths: u64) -> Stamp
        ensures { result ≡ min hundredths last_stamp }
    {
        Stamp {
            hundredths: hundredths.min(LAST),
        }
    }

    /// The hundredths of a second.
    pub fn get(self) -> u64
        ensures value { result ≡ self }
        ensures range { self ≤ last_stamp }
    {
        self.hundredths
    }
}

/// Appends the stamp as text: seconds, a point and two digits. Without memory for it `out` stays as it was.
#[tactic(auto, unfolding(crate::specs::Time::stamp_text))]
pub fn push_stamp(out: &mut Vec<u8>, stamp: Stamp) -> Result<(), AllocError>
    ensures ok { OnOk result (out.new.items ≡ out.old.items ++ stamp_text stamp) }
    ensures err { OnErr result (out.new.items ≡ out.old.items) }
{
    let mut buffer = Buffer::new();
    let seconds = buffer.format(stamp.get() / 100).as_bytes();
    let hundredths = (stamp.get() % 100) as u8;
    out.reserve(seconds.len() + 3)?;
    out.extend_from_slice(seconds)?;
    out.push_reserved(b'.');
    out.push_reserved(b'0' + hundredths / 10);
    out.push_reserved(b'0' + hundredths % 10);
    Ok(())
}

/// The place of the first point, or the length where there is none.
fn point_at(text: &[u8]) -> usize
    ensures { result ≡ length (split_point text.now).0 }
{
    let mut at = 0;
    while at < text.len() && text[at] != b'.' {
        at += 1;
    }
    at
}

/// The bytes before the first point, and those after it.
fn cut_at_point(text: &[u8]) -> (&[u8], Option<&[u8]>)
    ensures front { result.0.now ≡ (split_point text.now).0 }
    ensures rest { option_map (λ rest. rest.now) result.1 ≡ (split_point text.now).1 }
{
    let at = point_at(text);
    if at < text.len() {
        (&text[..at], Some(&text[at + 1..]))
    } else {
        (text, None)
    }
}

fn are_seconds(text: &[u8]) -> bool
    ensures { result ≡ is_seconds text.now }
{
    1 <= text.len() && text.len() <= 10 && are_digits(text)
}

/// The hundredths that the digits behind a point say.
fn hundredths_in(digits: &[u8]) -> u64
    requires { list_all is_ascii_digit digits.now ≡ true }
    ensures value { result ≡ hundredths digits.now }
    ensures small { result < 100 }
{
    if digits.is_empty() {
        return 0;
    }
    let tenths = u64::from(digits[0] - b'0');
    if digits.len() == 1 {
        10 * tenths
    } else {
        10 * tenths + u64::from(digits[1] - b'0')
    }
}

fn with_hundredths(seconds: u64, fraction: Option<&[u8]>) -> Option<Stamp>
    requires { seconds < 10 ^ 10 }
    ensures { result ≡ with_fraction seconds (option_map (λ digits. digits.now) fraction.entry) }
{
    match fraction {
        None => Some(Stamp {
            hundredths: 100 * seconds,
        }),
        Some(digits) => if 1 <= digits.len() && are_digits(digits) {
            Some(Stamp {
                hundredths: 100 * seconds + hundredths_in(digits),
            })
        } else {
            None
        },
    }
}

/// The stamp of a text: 1 to 10 digits of seconds, and perhaps a point and at least one digit, of which those after
/// the second are dropped (SyncStorage API 1.5). None exactly where the text is no stamp.
#[tactic(auto, unfolding(crate::specs::Time::stamp_of))]
pub fn read_stamp(text: &[u8]) -> Option<Stamp>
    ensures { result ≡ stamp_of text.now }
{
    let (seconds, fraction) = cut_at_point(text);
    if are_seconds(seconds) {
        with_hundredths(value_of(seconds), fraction)
    } else {
        None
    }
}

/// A condition on the time of a request's target (SyncStorage API 1.5).
#[derive(Clone, Copy, Debug)]
pub enum Cond {
    /// None.
    Free,

    /// `X-If-Modified-Since`: the target has changed since.
    IfModified(Stamp),

    /// `X-If-Unmodified-Since`: the target hasn't changed since.
    IfUnmodified(Stamp),

    /// The target isn't there. No field says so by itself: it is what browsers mean by `X-If-Unmodified-Since: 0`.
    IfAbsent,
}

impl Cond {
    /// The status with which the condition stops a request whose target is there or isn't, and has this time: 304 where
    /// the target hasn't changed since, 412 where it has, or is there though it mustn't be.
    pub fn stops(self, is_there: bool, time: Stamp) -> Option<u16>
        ensures { result ≡ stops self is_there time }
    {
        match self {
            Cond::Free => None,
            Cond::IfModified(since) => if time.get() <= since.get() {
                Some(304)
            } else {
                None
            },
            Cond::IfUnmodified(since) => if since.get() < time.get() {
                Some(412)
            } else {
                None
            },
            Cond::IfAbsent => if is_there { Some(412) } else { None },
        }
    }
}
