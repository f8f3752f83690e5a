//! An account that is moved by its dump: its replies don't tell that it was.

ghost use Rattle.std.specs.Prelude.{◌≡◌, Option, IfSome};
ghost use Rattle.std.specs.List.{AllByRecursion};
ghost use Rattle.ss_bso.specs.declared.account.Plain.{Plain};
ghost use Rattle.ss_bso.specs.declared.changes.Kept.{Kept as KeptView};
ghost use Rattle.ss_bso.specs.Changes.{account_at_opening};
ghost use Rattle.ss_bso.specs.Validity.{IsValid, SameAccount};
ghost use Rattle.ss_lines.specs.Lines.{IsLine};
ghost use Rattle.ss_account.specs.Keeping.{IsKeptAccount};
ghost use Rattle.ss_account.specs.Opening.{IsGood};
ghost use Rattle.ss_dump.specs.Dumps.{account_lines, dump_text};
ghost use Rattle.ss_dump.specs.Undumped.{IsDumpOf};
ghost use Rattle.ss_promises.specs.Moves.{AnswerAlike, AnswerAlikeFrom};
ghost use Rattle.ss_promises.specs.Restarts.{GoesOn};

/// Accounts that are the same, whatever the order of their lists, have equal replies to every list of readings and
/// requests, step after step, and stay the same so. An account that goes on as another one has, from the other's moment
/// on, its replies.
pub fn replies_stay_equal()
    ensures same { (account other : Plain) → IsValid account → SameAccount account other → AnswerAlike account other }
    ensures go_on { (account again : Plain) → IsValid account → GoesOn account again
        → AnswerAlikeFrom account.moment account again }
{}

/// An account moves by its dump: where what is kept is a valid account's, as it is after each step, what is read of its
/// dump, and opened elsewhere, goes on as the account, and has its replies to whatever is asked from its moment on.
pub fn accounts_move()
    ensures { (kept read : KeptView) (account again : Plain) → IsValid account → IsKeptAccount kept account → IsGood kept
        → AllByRecursion IsLine (account_lines kept) → IsDumpOf (dump_text kept) read → SameAccount (account_at_opening read) again
        → GoesOn account again × AnswerAlikeFrom account.moment account again }
{}

/// A keeper that was filled with what is kept, and opened, gives the account that opening what is kept gives: where a
/// keeper tells that it holds what is kept, as it does after `refill`, what is opened from what it tells is the same as
/// each account that is opened from what is kept, and has its replies.
pub fn refilled_accounts_answer_alike()
    ensures { (told : Option KeptView) (kept : KeptView) (account other : Plain) → IsValid account
        → IfSome told (λ held. held ≡ kept) → IfSome told (λ held. SameAccount (account_at_opening held) account)
        → SameAccount (account_at_opening kept) other
        → IfSome told (λ held. SameAccount account other × AnswerAlike account other) }
{}
