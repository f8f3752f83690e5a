//! Laws of the one-account API.
ghost use Rattle.std.specs.Prelude.{◌≡◌, ◌≢◌, false, ◌+◌, ◌++◌, ℕ, List, take};
ghost use Rattle.ss_bso.specs.declared.account.Plain.{Plain};
ghost use Rattle.ss_bso.specs.Validity.{IsValid, SameAccount};
ghost use Rattle.ss_query.specs.Flat.{Ask};
ghost use Rattle.ss_text.specs.declared.stamps.Cond.{Cond};
ghost use Rattle.ss_bso.specs.declared.rows.Row.{Row};
ghost use Rattle.ss_bso.specs.declared.parts.Part.{Part};
ghost use Rattle.ss_bso.specs.declared.parts.Records.{Records};
ghost use Rattle.ss_text.specs.Texts.{IsReordering};
ghost use Rattle.ss_query.specs.declared.requests.Sort.{Sort};
ghost use Rattle.ss_bso.specs.Write.{rows_written};
ghost use Rattle.ss_query.specs.Fit.{IsFitRequest};
ghost use Rattle.ss_laws.specs.Laws.{AbsenceLaw, HaveCountedBatches, BatchLaw, CommitLaw, QuietLaw, StampLaw};
ghost use Rattle.ss_laws.specs.Laws.{SameOutcome, SortLaw, WriteLaw};
ghost use Rattle.ss_query.specs.declared.requests.Request.{Request};
ghost use Rattle.ss_query.specs.Api.{api};
ghost use Rattle.ss_query.specs.Effect.{is_write};
ghost use Rattle.ss_bso.specs.Account.{tick};
ghost use Rattle.ss_laws.specs.Journal.{Journal};
ghost use Rattle.ss_laws.specs.Journals.{IsLegal, reply_at, account_after};

/// What batches do is what plain POSTs of the same parts do: an account after a list of requests is, but for its
/// batches and their counter, the account after the flat list, and every other request has the same reply in both.
/// The opening's batches have numbers of their own that were given out, as in every valid account.
pub fn batch_law()
    ensures flat { (opening : Plain) (asks : List Ask) → HaveCountedBatches opening → BatchLaw opening asks }
    ensures valid { (account : Plain) → IsValid account → HaveCountedBatches account }
{}

/// The stamps of writes rise strictly, and the moment never falls.
pub fn stamp_law()
    ensures { (account : Plain) (now : ℕ) (request : Request) → StampLaw account now request }
{}

/// A request that is no write changes nothing but what the clock does, and perhaps the batches.
pub fn quiet_law()
    ensures { (account : Plain) (now : ℕ) (request : Request) → is_write (tick account now) request ≡ false
        → QuietLaw account now request }
{}

/// A request whose status is neither 200 nor 202 leaves what the clock leaves.
pub fn refusal_law()
    ensures { (account : Plain) (now : ℕ) (request : Request) → (api account now request).reply.status ≢ 200
        → (api account now request).reply.status ≢ 202 → (api account now request).account ≡ tick account now }
{}

/// Being the same account but for the order of its lists is an equivalence.
pub fn same_law()
    ensures same { (account : Plain) → SameAccount account account }
    ensures back { (account other : Plain) → SameAccount account other → SameAccount other account }
    ensures through { (one two three : Plain) → SameAccount one two → SameAccount two three → SameAccount one three }
{}

/// A commit is answered 200 exactly where its condition holds, its batch is live, the parts fit, and neither the
/// clock's end nor the account's limits refuse its write.
pub fn commit_law()
    ensures { (account : Plain) (now : ℕ) (collection : List ℕ) (records : Records) (number : ℕ) (cond : Cond)
        → CommitLaw account now collection records number cond }
{}

/// A request whose condition is that its target isn't there is answered 412 exactly where the target is there. It is
/// answered as one whose condition is that nothing has changed since 0, but for a collection that isn't listed after
/// something was deleted.
pub fn absence_law()
    ensures { (account : Plain) (now : ℕ) (request : Request) → AbsenceLaw account now request }
{}

/// A valid account stays valid, whatever the clock says and whatever is asked.
pub fn validity_law()
    ensures tick { (account : Plain) (now : ℕ) → IsValid account → IsValid (tick account now) }
    ensures api { (account : Plain) (now : ℕ) (request : Request) → IsValid account → IsFitRequest request
        → IsValid (api account now request).account }
{}

/// The reply at a place of a journal depends on the opening and on the entries up to that place alone, and each
/// account that a legal journal passes through is valid.
pub fn journal_law()
    ensures alone { (one other : Journal) (place : ℕ) → one.opening ≡ other.opening
        → take (place + 1) one.entries ≡ take (place + 1) other.entries → reply_at one place ≡ reply_at other place }
    ensures valid { (journal : Journal) (place : ℕ) → IsLegal journal → IsValid
        (account_after journal.opening (take place journal.entries)) }
{}

/// The order of an account's rows, collections and batches shows in no reply, and accounts that are the same but for
/// that order stay so. Validity doesn't depend on it.
pub fn order_law()
    ensures api { (account other : Plain) (now : ℕ) (request : Request) → IsValid account → SameAccount account other
        → SameOutcome (api account now request) (api other now request) }
    ensures valid { (account other : Plain) → IsValid account → SameAccount account other → IsValid other }
{}

/// A write of a list makes each row of that row's parts alone, in list order, and leaves every other row. Two lists
/// that are written one after the other make what both make as one list, but for the order of the rows.
pub fn write_law()
    ensures rows { (collection : List ℕ) (parts : List Part) (time : ℕ) (rows : List Row)
        → WriteLaw collection parts time rows }
    ensures joined { (account : Plain) (collection : List ℕ) (parts more : List Part) (time : ℕ) → IsValid account
        → IsReordering (rows_written collection (parts ++ more) time account.rows)
        (rows_written collection more time (rows_written collection parts time account.rows)) }
{}

/// The replies of a journal don't depend on the order of its opening's lists.
pub fn journal_order_law()
    ensures { (journal : Journal) (other : Plain) (place : ℕ) → IsLegal journal → SameAccount journal.opening other
        → reply_at journal place ≡ reply_at (record journal { opening = other }) place }
{}

/// The rows of an answer, before the page is cut from them, are those that were asked for, in the order that was asked
/// for.
pub fn sort_law()
    ensures { (sort : Sort) (rows : List Row) → SortLaw sort rows }
{}
