//! Why a record fails, as a client is told it.

ghost use Rattle.std.specs.Prelude.{◌≡◌};
ghost use Rattle.ss_query.specs.Reasons.{reason_name};

use ss_bso::Reason;

/// The text of a reason for which a record failed (this project; SyncStorage API 1.5 leaves it open).
pub fn reason_name(reason: Reason) -> &'static str
    ensures { result.now ≡ reason_name reason }
{
    match reason {
        Reason::Payload => "payload",
        Reason::TooLarge => "payload size",
        Reason::Sortindex => "sortindex",
        Reason::Ttl => "ttl",
    }
}
