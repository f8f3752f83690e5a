//! What holds of all words.

ghost use Rattle.std.specs.Prelude.{◌≡◌, ℕ, List};
ghost use Rattle.ss_run_move.specs.Asked.{Asks};
ghost use Rattle.ss_run_move.specs.declared.words.Verb.{Verb as VerbView};

/// Words ask for one thing at most: of one account, and either for its dump or for its restore.
pub fn one_request()
    ensures { (words : List (List ℕ)) (verb other : VerbView) (folder another : List ℕ) (uid number : ℕ)
        → Asks words verb folder uid → Asks words other another number
        → (verb ≡ other) × (folder ≡ another) × (uid ≡ number) }
{}
