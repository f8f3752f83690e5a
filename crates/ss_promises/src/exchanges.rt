//! One exchange of a device with a server of its account, in bytes, is one step of a world.

ghost use Rattle.std.specs.Prelude.{◌≡◌, ◌++◌, ℕ, Bool, List, false, slice_get, Some};
ghost use Rattle.ss_text.specs.declared.stamps.Cond.TheVariants.{IfAbsent, IfUnmodified};
ghost use Rattle.ss_bso.specs.declared.account.Plain.{Plain};
ghost use Rattle.ss_http.specs.declared.heard.Heard.{Heard};
ghost use Rattle.ss_http.specs.declared.message.Message.{Message};
ghost use Rattle.ss_http.specs.Hearing.{Hears};
ghost use Rattle.ss_http.specs.Messages.{ReadsMessage};
ghost use Rattle.ss_bso.specs.Validity.{IsValid};
ghost use Rattle.ss_query.specs.declared.replies.Mark.{Mark};
ghost use Rattle.ss_query.specs.declared.requests.Request.{Request};
ghost use Rattle.ss_query.specs.Api.{api};
ghost use Rattle.ss_query.specs.Refused.{condition_of, with_condition};
ghost use Rattle.ss_route.specs.declared.manner.Manner.{Manner};
ghost use Rattle.ss_route.specs.declared.manner.Manner.TheVariants.{Profile, Browser};
ghost use Rattle.ss_route.specs.declared.routed.Routed.TheVariants.{Ask};
ghost use Rattle.ss_route.specs.Routing.{routing_of_message};
ghost use Rattle.ss_route.specs.Sending.{message_of, request_meant};
ghost use Rattle.ss_route.specs.Wire.{wire};
ghost use Rattle.ss_hearing.specs.Hearing.{answer_of};
ghost use Rattle.ss_client.specs.Asking.{ask, awaits};
ghost use Rattle.ss_client.specs.Machine.{Next};
ghost use Rattle.ss_client.specs.Runs.{MachineView};
ghost use Rattle.ss_serving.specs.Asking.{told_by};
ghost use Rattle.ss_serving.specs.Bookmarks.{Server};
ghost use Rattle.ss_world.specs.declared.events.Event.TheVariants.{Deliver, LoseReply, LoseRequest, Tick};
ghost use Rattle.ss_world.specs.declared.seats.Seat.TheVariants.{Idle, Syncs};
ghost use Rattle.ss_world.specs.Happening.{Happens};
ghost use Rattle.ss_world.specs.Seats.{after};
ghost use Rattle.ss_world.specs.Worlds.{WorldView, world_with_seat};
ghost use Rattle.ss_promises.specs.Exchanges.{Address, IsAddress, IsMeantAlike, IsReady, IsTellable, Fails, Proceeds};
ghost use Rattle.ss_promises.specs.Exchanges.{Responds, bytes_sent};

use crate::runs::requests_stay_readable;
use crate::values::replies_are_typed;
use ss_client::requests_can_be_sent;
use ss_http::responses_are_heard;
use ss_laws::absence_law;
use ss_route::{replies_are_heard, requests_are_routed};
use ss_serving::replies_say_what_is_told;

/// The bytes of a machine's request are read as one message, whatever follows, and in no other way; and this message is
/// routed to just that request of that account. In the browser's manner it is the request as browsers mean it: another
/// one only where the condition is that nothing has changed since 0, and then with the condition that the target isn't
/// there.
pub fn requests_come_in()
    ensures read { (address : Address) (machine : MachineView) (rest : List ℕ) → IsAddress address → IsReady machine
        → ReadsMessage (bytes_sent address machine ++ rest) (message_of address.uid address.host (ask machine)) rest }
    ensures routed { (manner : Manner) (address : Address) (machine : MachineView) (rest : List ℕ) (message : Message)
        (left : List ℕ) → IsAddress address → IsReady machine
        → ReadsMessage (bytes_sent address machine ++ rest) message left
        → (routing_of_message manner message ≡ Ask address.uid (request_meant manner (ask machine)) false) × (left ≡ rest) }
    ensures by_the_letter { (request : Request) → request_meant Profile request ≡ request }
    ensures as_browsers { (request : Request) → (condition_of request ≡ IfUnmodified 0 → ⊥)
        → request_meant Browser request ≡ request }
    ensures since_nothing { (request : Request) → condition_of request ≡ IfUnmodified 0
        → request_meant Browser request ≡ with_condition IfAbsent request }
{
    requests_can_be_sent();
    requests_stay_readable();
    requests_are_routed();
}

/// The response to the reply of the API to what a machine asks, at some account and reading of the clock: a client that
/// reads it, whatever follows, hears in it just what the reply says, and reads no byte behind it.
pub fn replies_come_back()
    ensures heard { (machine : MachineView) (account : Plain) (now : ℕ) (last : Bool) (rest : List ℕ) → IsReady machine
        → IsTellable account now machine
        → (heard : Heard) × Hears (wire (api account now (ask machine)).reply false last ++ rest) heard rest }
    ensures told { (machine : MachineView) (account : Plain) (now : ℕ) (last : Bool) (rest : List ℕ) (heard : Heard)
        (left : List ℕ) → IsReady machine → IsTellable account now machine
        → Hears (wire (api account now (ask machine)).reply false last ++ rest) heard left
        → (answer_of (awaits machine.stage) heard
        ≡ told_by (awaits machine.stage) (api account now (ask machine)).reply) × (left ≡ rest) }
{
    requests_can_be_sent();
    requests_stay_readable();
    replies_are_typed();
    replies_are_heard();
    responses_are_heard();
    replies_say_what_is_told();
}

/// An exchange is a delivery: where a device's machine sends its request to its server, the server answers what it
/// reads, and the machine goes on with the response, the world of this account and its devices has taken one step, the
/// delivery of the request. Where the device doesn't hear the response it is a lost reply; and where the request isn't
/// done, for want of memory or since the keeper failed, it is a reading of the clock and a lost request. What follows
/// the request and the response is left, so the next exchange begins there.
pub fn exchanges_are_deliveries()
    ensures delivers { (manner : Manner) (address : Address) (world : WorldView) (n now : ℕ) (machine : MachineView)
        (server : Server) (output behind more : List ℕ) (next : Next) → IsAddress address → IsReady machine
        → slice_get world.seats n ≡ Some (Syncs machine)
        → IsMeantAlike manner world.server.account now (ask machine)
        → IsTellable world.server.account now machine
        → (r : Responds manner (bytes_sent address machine ++ behind) world.server now server output)
        → (p : Proceeds machine (output ++ more) next)
        → Happens world (Deliver n now) (world_with_seat world server n (after machine next)) × (r.uid ≡ address.uid)
        × (r.left ≡ behind) × (p.left ≡ more) }
    ensures loses { (manner : Manner) (address : Address) (world : WorldView) (n now : ℕ) (machine : MachineView)
        (server : Server) (output behind : List ℕ) → IsAddress address → IsReady machine
        → slice_get world.seats n ≡ Some (Syncs machine)
        → IsMeantAlike manner world.server.account now (ask machine)
        → (r : Responds manner (bytes_sent address machine ++ behind) world.server now server output)
        → Happens world (LoseReply n now) (world_with_seat world server n (Idle machine.device)) × (r.uid ≡ address.uid)
        × (r.left ≡ behind) }
    ensures fails { (manner : Manner) (address : Address) (world : WorldView) (n now : ℕ) (machine : MachineView)
        (mark : Mark) (server : Server) (output behind more : List ℕ) (next : Next) → IsAddress address
        → IsReady machine → slice_get world.seats n ≡ Some (Syncs machine) → IsValid world.server.account
        → (f : Fails manner (bytes_sent address machine ++ behind) world.server now mark server output)
        → (p : Proceeds machine (output ++ more) next) → Happens world (Tick now) (record world { server = server })
        × Happens (record world { server = server }) (LoseRequest n) (world_with_seat world server n (after machine next))
        × (f.uid ≡ address.uid) × (f.left ≡ behind) × (p.left ≡ more) }
{
    requests_come_in();
    replies_come_back();
    replies_are_heard();
    responses_are_heard();
    replies_say_what_is_told();
    absence_law();
}
