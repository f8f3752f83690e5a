//! Conditions.

ghost use Rattle.std.specs.Char.{is_ascii_digit};
ghost use Rattle.std.specs.List.{list_all};
ghost use Rattle.std.specs.Prelude.{◌≡◌, option_map};
ghost use Rattle.ss_text.specs.declared.stamps.Cond.TheVariants.{IfUnmodified};
ghost use Rattle.ss_route.specs.Conditions.{is_beyond_stamps, stamp_said, cond_meant, time_in, condition_of};
ghost use Rattle.ss_route.specs.Conditions.{condition_in};
ghost use Rattle.ss_route.specs.Refusals.{Settles};

use crate::manner::Manner;
use crate::routed::{Stop, said};
use ss_http::FieldLines;
use ss_query::Said;
use ss_text::{Cond, LAST, Stamp, read_stamp};

fn are_digits(value: &[u8]) -> bool
    ensures { result ≡ list_all is_ascii_digit value.now }
{
    value.iter().all(|digit| digit.is_ascii_digit())
}

/// Whether a value has 11 to 18 digits.
fn is_beyond_stamps(value: &[u8]) -> bool
    ensures { result ≡ is_beyond_stamps value.now }
{
    11 <= value.len() && value.len() <= 18 && are_digits(value)
}

fn stamp_said(manner: Manner, value: &[u8]) -> Option<Stamp>
    ensures { result ≡ stamp_said manner value.now }
{
    match manner {
        Manner::Profile => read_stamp(value),
        Manner::Browser => if is_beyond_stamps(value) {
            Some(Stamp::clamp(LAST))
        } else {
            read_stamp(value)
        },
    }
}

fn time_in(manner: Manner, value: &[u8]) -> Result<Stamp, Stop>
    ensures { Settles result (time_in manner value.now) }
{
    match stamp_said(manner, value) {
        Some(time) => Ok(time),
        None => Err(Stop::Refused(said(400, Said::Condition))),
    }
}

/// The condition that nothing has changed since a time, as it is meant.
fn unmodified_since(manner: Manner, time: Stamp) -> Cond
    ensures { result ≡ cond_meant manner (IfUnmodified time) }
{
    match manner {
        Manner::Profile => Cond::IfUnmodified(time),
        Manner::Browser => if time.get() == 0 {
            Cond::IfAbsent
        } else {
            Cond::IfUnmodified(time)
        },
    }
}

/// The condition of these two values.
fn condition_of(
    manner: Manner,
    gets: bool,
    modified: Option<&[u8]>,
    unmodified: Option<&[u8]>,
) -> Result<Cond, Stop>
    ensures { Settles result (condition_of manner gets (option_map (λ value. value.now) modified.entry)
        (option_map (λ value. value.now) unmodified.entry)) }
{
    match (modified, unmodified) {
        (None, None) => Ok(Cond::Free),
        (None, Some(value)) => Ok(unmodified_since(manner, time_in(manner, value)?)),
        (Some(value), None) => {
            let time = time_in(manner, value)?;
            if gets {
                Ok(Cond::IfModified(time))
            } else {
                Ok(Cond::Free)
            }
        }
        (Some(_), Some(_)) => Err(Stop::Refused(said(400, Said::Condition))),
    }
}

/// The condition of a message.
#[tactic(auto, unfolding(crate::specs::Conditions::condition_in))]
pub fn condition_in(manner: Manner, gets: bool, fields: &FieldLines) -> Result<Cond, Stop>
    ensures { Settles result (condition_in manner gets fields.now) }
{
    let modified = fields.first("X-If-Modified-Since");
    let unmodified = fields.first("X-If-Unmodified-Since");
    condition_of(manner, gets, modified, unmodified)
}
