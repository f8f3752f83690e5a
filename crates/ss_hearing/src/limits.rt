//! The limits of a server.

ghost use Rattle.std.specs.Prelude.{◌≡◌};
ghost use Rattle.json.specs.Value.{value_view};
ghost use Rattle.ss_hearing.specs.Limits.{limit_in, limits_of};

use crate::bodies::number_in;
use json::Value;
use ss_bso::limits::{
    MOST_BATCH_BYTES, MOST_BATCH_RECORDS, MOST_POST_BYTES, MOST_POST_RECORDS,
    MOST_RECORD_PAYLOAD_BYTES,
};
use ss_http::limits::BODY_ROOM;
use ss_plan::Limits;
use ss_text::read_number;

/// The lesser of our limit and the one that a member says.
#[tactic(auto, unfolding(crate::specs::Limits::limit_in))]
fn limit_in(value: &Value, name: &str, ours: u64) -> Option<u64>
    ensures { result ≡ limit_in name.now ours (value_view value.now) }
{
    let limit = read_number(number_in(value, name)?.as_bytes(), 18)?;
    Some(limit.min(ours))
}

/// The limits of a configuration; None where a member isn't a whole number of at most 18 digits.
#[tactic(auto, unfolding(crate::specs::Limits::limits_of))]
pub(crate) fn limits_of(value: &Value) -> Option<Limits>
    ensures { result ≡ limits_of (value_view value.now) }
{
    Some(Limits {
        max_request_bytes: limit_in(value, "max_request_bytes", BODY_ROOM)?,
        max_post_records: limit_in(value, "max_post_records", MOST_POST_RECORDS)?,
        max_post_bytes: limit_in(value, "max_post_bytes", MOST_POST_BYTES)?,
        max_total_records: limit_in(value, "max_total_records", MOST_BATCH_RECORDS)?,
        max_total_bytes: limit_in(value, "max_total_bytes", MOST_BATCH_BYTES)?,
        max_record_payload_bytes: limit_in(
            value,
            "max_record_payload_bytes",
            MOST_RECORD_PAYLOAD_BYTES as u64,
        )?,
    })
}
