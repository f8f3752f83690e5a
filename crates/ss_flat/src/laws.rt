//! What holds whichever way rows came.

ghost use Rattle.std.specs.Prelude.{◌≡◌, List, ℕ};
ghost use Rattle.ss_bso.specs.declared.rows.Row.{Row};
ghost use Rattle.ss_flat.specs.declared.kinds.FlatKind.{FlatKind};
ghost use Rattle.ss_flat.specs.declared.lists.Shown.{Shown};
ghost use Rattle.ss_flat.specs.Laws.{Associates, Commutes, IsIdempotent, SameSet};
ghost use Rattle.ss_flat.specs.Lists.{AreGoneIds, AreShownRecords, AreSkippedIds};
ghost use Rattle.ss_flat.specs.States.{IsFlatState, State, TellsSame};

/// The order and repeats of rows don't matter: rows that are the same as a set come to the same lists.
pub fn order_and_repeats_are_nothing()
    ensures shown { (kind : FlatKind) (rows others : List Row) → SameSet rows others → (xs ys : List Shown)
        → AreShownRecords kind rows xs → AreShownRecords kind others ys → xs ≡ ys }
    ensures gone { (kind : FlatKind) (rows others : List Row) → SameSet rows others → (xs ys : List (List ℕ × ℕ))
        → AreGoneIds kind rows xs → AreGoneIds kind others ys → xs ≡ ys }
    ensures skipped { (kind : FlatKind) (rows others : List Row) → SameSet rows others → (xs ys : List (List ℕ))
        → AreSkippedIds kind rows xs → AreSkippedIds kind others ys → xs ≡ ys }
{}

/// A set of rows has one state, by what is kept of each id, and a state is that of every list of the same rows.
pub fn a_set_has_one_state()
    ensures one { (rows : List Row) (one other : State) → one.kind ≡ other.kind → IsFlatState rows one
        → IsFlatState rows other → TellsSame one other }
    ensures moved { (rows others : List Row) (state : State) → SameSet rows others → IsFlatState rows state
        → IsFlatState others state }
{}

/// Joining states is a join: it is commutative, associative and idempotent, by what is kept of each id.
pub fn joining_is_a_join()
    ensures commutes { Commutes }
    ensures associates { Associates }
    ensures idempotent { IsIdempotent }
{}
