//! What holds of every run.

ghost use Rattle.std.specs.Prelude.{◌≡◌, ◌≢◌, List, ℕ};
ghost use Rattle.ss_flat.specs.declared.kinds.FlatKind.{FlatKind};
ghost use Rattle.ss_record.specs.declared.readings.Sheet.{Sheet};
ghost use Rattle.ss_run_flat.specs.declared.endings.Ending.{Ending};
ghost use Rattle.ss_run_flat.specs.declared.endings.Ending.TheVariants.{Memory};
ghost use Rattle.ss_run_flat.specs.Files.{IsFile, IsNoFile, SameRows};
ghost use Rattle.ss_run_flat.specs.Runs.{IsFlatOf};

/// Texts of the same rows, in whatever order and however often, have the same output.
pub fn same_rows_same_output()
    ensures { (kind : FlatKind) (text other : List ℕ) (rows others : List Sheet) → IsFile text rows
        → IsFile other others → SameRows rows others → (out other_out : List ℕ) → IsFlatOf kind text out
        → IsFlatOf kind other other_out → out ≡ other_out }
{}

/// A text has one output.
pub fn one_output()
    ensures { (kind : FlatKind) (text out other : List ℕ) → IsFlatOf kind text out → IsFlatOf kind text other
        → out ≡ other }
{}

/// Want of memory aside, a text has an output or is refused, and each refusal names the one line that it has to.
pub fn one_ending()
    ensures unrefused { (kind : FlatKind) (text out : List ℕ) (ending : Ending) → IsFlatOf kind text out
        → IsNoFile text ending → ending ≡ Memory }
    ensures refused { (text : List ℕ) (one other : Ending) → IsNoFile text one → IsNoFile text other → one ≢ Memory
        → other ≢ Memory → one ≡ other }
{}
