//! What an account is to a sync client.

ghost use Rattle.std.specs.Prelude.{◌≡◌, ℕ, ◌≤◌, map, Bool, false};
ghost use Rattle.ss_record.specs.Ids.{Apart};
ghost use Rattle.ss_bso.specs.declared.account.Plain.{Plain};
ghost use Rattle.ss_bso.specs.Changes.{account_at_opening};
ghost use Rattle.ss_bso.specs.Lists.{Each};
ghost use Rattle.ss_bso.specs.Validity.{IsValid, SameAccount};
ghost use Rattle.ss_query.specs.declared.requests.Request.{Request};
ghost use Rattle.ss_query.specs.Api.{api};
ghost use Rattle.ss_query.specs.Refused.{collection_time};
ghost use Rattle.ss_query.specs.declared.replies.Reply.{Reply};
ghost use Rattle.ss_route.specs.Wire.{heard_of};
ghost use Rattle.ss_hearing.specs.declared.answer.Awaited.{Awaited};
ghost use Rattle.ss_hearing.specs.Hearing.{answer_of, status_of};
ghost use Rattle.ss_account.specs.Opening.{IsGood as MayOpen};
ghost use Rattle.ss_serving.specs.Bookmarks.{Server, bookmarks, shown_by};
ghost use Rattle.ss_serving.specs.Asking.{Ask, IsAskable, awaited_of, request_of, told_by, touches};
ghost use Rattle.ss_serving.specs.Serving.{Ages, IsQuiet, Serves};
ghost use Rattle.ss_serving.specs.Good.{IsSteady, Lasts};
ghost use Rattle.ss_serving.specs.Steps.{Answers, Reopens, Ticks};
ghost use Rattle.ss_serving.specs.Typed.{IsOfKind, IsTypedReply};

use ss_route::batch_ids_are_given_out;

/// An account with its keeper that is opened from what the keeper tells is steady for all batches that begin from then
/// on, where no bookmark has an expiry and the collection's time isn't above the store's. It stays so, and to what a
/// sync client asks it gives the answers that are stated, and no other; what others ask, readings of the clock and a
/// new opening leave the bookmarks. Whatever is asked, a bookmark that wasn't there before is later than the store's
/// time was.
pub fn account_serves_bookmarks()
    ensures opens { (server : Server) → IsValid server.account → SameAccount (account_at_opening server.kept) server.account
        → MayOpen server.kept
        → Each Lasts server.account.rows → collection_time server.account bookmarks ≤ server.account.store
        → IsSteady server.account.counter server }
    ensures serves { (first : ℕ) (before after : Server) (now : ℕ) (ask : Ask) → IsSteady first before
        → IsAskable first ask
        → Answers before now (request_of ask) after
        → IsSteady first after × Serves (shown_by before) ask (shown_by after)
        (told_by (awaited_of ask) (api before.account now (request_of ask)).reply)
        × Ages (shown_by before) (shown_by after) }
    ensures others { (first : ℕ) (before after : Server) (now : ℕ) (request : Request) → IsSteady first before
        → touches request ≡ false
        → Answers before now request after → IsSteady first after × IsQuiet (shown_by before) (shown_by after)
        × Ages (shown_by before) (shown_by after) }
    ensures ticks { (first : ℕ) (before after : Server) (now : ℕ) → IsSteady first before → Ticks before now after
        → IsSteady first after × IsQuiet (shown_by before) (shown_by after) × Ages (shown_by before) (shown_by after) }
    ensures reopens { (first : ℕ) (before after : Server) → IsSteady first before → Reopens before after
        → IsSteady first after × IsQuiet (shown_by before) (shown_by after) × Ages (shown_by before) (shown_by after) }
    ensures apart { (first : ℕ) (server : Server) → IsSteady first server
        → Apart (map (λ s. s.id) (shown_by server).rows) }
{}

/// What a client hears in the response to a reply is what the reply says. The reply has the numbers and texts of its
/// types, and where it has the awaited status its body is of the kind that is awaited, as each reply of the account to
/// what a sync client asks is; a list is told as one JSON text, as it is asked for.
pub fn replies_say_what_is_told()
    ensures heard { (awaited : Awaited) (reply : Reply) (last : Bool) → IsTypedReply reply
        → (reply.status ≡ status_of awaited → IsOfKind awaited reply.body)
        → answer_of awaited (heard_of reply false last) ≡ told_by awaited reply }
    ensures kinds { (account : Plain) (now : ℕ) (ask : Ask) → (api account now (request_of ask)).reply.status
        ≡ status_of (awaited_of ask)
        → IsOfKind (awaited_of ask) (api account now (request_of ask)).reply.body }
{
    batch_ids_are_given_out();
}
