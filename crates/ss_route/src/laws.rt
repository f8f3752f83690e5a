//! Laws of the definitions, each on a call that does nothing.

ghost use Rattle.std.specs.Prelude.{◌≡◌, ◌≤◌, ◌++◌, List, ℕ, Bool, false, Some};
ghost use Rattle.base64.specs.GeneralPurpose.{IsBytes};
ghost use Rattle.ss_http.specs.Hearing.{Hears};
ghost use Rattle.ss_http.specs.Messages.{ReadsMessage};
ghost use Rattle.ss_query.specs.Fit.{IsFitRequest};
ghost use Rattle.ss_query.specs.declared.replies.Reply.{Reply};
ghost use Rattle.ss_query.specs.declared.requests.Request.{Request};
ghost use Rattle.ss_route.specs.Posts.{batch_of, token};
ghost use Rattle.ss_route.specs.Routing.{routing_of_message};
ghost use Rattle.ss_route.specs.Sending.{IsHost, IsSentRequest, HasTypes, IsReadable, message_of, request_meant};
ghost use Rattle.ss_route.specs.Sending.{request_sent};
ghost use Rattle.ss_route.specs.declared.manner.Manner.{Manner};
ghost use Rattle.ss_route.specs.declared.manner.Manner.TheVariants.{Profile};
ghost use Rattle.ss_route.specs.declared.routed.Routed.TheVariants.{Ask};
ghost use Rattle.ss_route.specs.Wire.{IsReply, HasReason, IsHeardWhole, wire, heard_of};

/// Where the status of a reply has a reason, and its body has at most 536,870,912 bytes, a client that reads its
/// response hears it, whatever follows.
pub fn replies_are_heard()
    ensures { (reply : Reply) (newlines last : Bool) (rest : List ℕ) → IsReply reply → HasReason reply.status
        → IsHeardWhole reply newlines
        → Hears (wire reply newlines last ++ rest) (heard_of reply newlines last) rest }
{}

/// A request that is sent, to a host of 1 to 1,030 visible bytes: its bytes are read as its message, whatever follows,
/// and its message is routed to this account and this request, or in the browser's manner to this request with its
/// condition as browsers mean it: where nothing is to have changed since 0, that the target isn't there. It is one that
/// is sent where the account's number is at
/// least 1, an offset is at most 999,999,999, a batch's number is from 1 to 999,999,999,999 and a body has at most
/// 2,101,248 bytes.
pub fn requests_are_routed()
    ensures read { (uid : ℕ) (host : List ℕ) (request : Request) (rest : List ℕ) → uid ≤ 4294967295 → IsHost host
        → HasTypes request → IsSentRequest request
        → IsReadable request → ReadsMessage (request_sent uid host request ++ rest) (message_of uid host request) rest }
    ensures routed { (uid : ℕ) (host : List ℕ) (request : Request) → 1 ≤ uid → uid ≤ 4294967295 → HasTypes request
        → IsSentRequest request → IsFitRequest request
        → IsReadable request → routing_of_message Profile (message_of uid host request) ≡ Ask uid request false }
    ensures meant { (manner : Manner) (uid : ℕ) (host : List ℕ) (request : Request) → 1 ≤ uid → uid ≤ 4294967295
        → HasTypes request → IsSentRequest request → IsFitRequest request
        → IsReadable request → routing_of_message manner (message_of uid host request) ≡ Ask uid (request_meant manner request) false }
{}

/// The text that is given out as the id of a batch is read as its number, and no other text is.
pub fn batch_ids_are_given_out()
    ensures back { (n : ℕ) → 1 ≤ n → n ≤ 999999999999 → batch_of (token n) ≡ Some n }
    ensures alone { (text : List ℕ) (n : ℕ) → IsBytes text → batch_of text ≡ Some n → text ≡ token n }
{}
