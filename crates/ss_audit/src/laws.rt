//! Laws of sound logs and of verdicts on them.

ghost use Rattle.std.specs.Prelude.{◌≡◌, List, All};
ghost use Rattle.ss_query.specs.Fit.{IsFitRequest};
ghost use Rattle.ss_laws.specs.Journal.{Journal};
ghost use Rattle.ss_laws.specs.Journals.{IsLegal};
ghost use Rattle.ss_audit.specs.declared.verdict.Verdict.{Verdict};
ghost use Rattle.ss_audit.specs.Sound.{AreSound, IsSoundLog};
ghost use Rattle.ss_audit.specs.Terms.{AreOfTerms};
ghost use Rattle.ss_audit.specs.Verdicts.{IsVerdict};

/// The logs of a server's terms are sound, so a yes is no accident: the journals of an account's terms, each as a term hands
/// it back, and each after the first with the account for its opening that the one before it leaves.
pub fn terms_are_sound()
    ensures { (journals : List Journal) → AreOfTerms journals → AreSound journals }
{}

/// Each of some sound logs is a legal journal, where its requests are such as routing gives.
pub fn sound_logs_are_legal()
    ensures { (log : Journal) → IsSoundLog log → All (λ entry. IsFitRequest entry.request) log.entries → IsLegal log }
{}

/// There is one verdict on logs: they are sound, or one place is the first where they aren't.
pub fn one_verdict()
    ensures { (logs : List Journal) (verdict other : Verdict) → IsVerdict logs verdict → IsVerdict logs other
        → verdict ≡ other }
{}
