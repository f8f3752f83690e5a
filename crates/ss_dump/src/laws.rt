//! What holds of dumps.

ghost use Rattle.std.specs.Prelude.{◌≡◌, ℕ, List, map, IfOk, IfErr};
ghost use Rattle.std.specs.List.{AllByRecursion, flat_map};
ghost use Rattle.ss_bso.specs.declared.account.Plain.{Plain as PlainView};
ghost use Rattle.ss_bso.specs.declared.changes.Kept.{Kept as KeptView};
ghost use Rattle.ss_bso.specs.Changes.{kept_of, account_at_opening};
ghost use Rattle.ss_bso.specs.Validity.{IsValid, SameAccount};
ghost use Rattle.ss_lines.specs.Lines.{IsLine};
ghost use Rattle.ss_lines.specs.declared.lines.Line.TheVariants.{Row as RowLine};
ghost use Rattle.ss_account.specs.Opening.{IsGood};
ghost use Rattle.ss_dump.specs.Dumps.{account_lines, batch_lines, collection_line, dump_text, in_order};
ghost use Rattle.ss_dump.specs.Same.{SameKept};
ghost use Rattle.ss_dump.specs.Undumped.{IsDumpOf, IsWhyNoDump};
ghost use Rattle.ss_dump.specs.declared.faults.DumpFault.{DumpFault as FaultView};
ghost use Rattle.ss_dump.specs.declared.faults.DumpFault.TheVariants.{Memory};

use crate::dumping::dump;
use crate::faults::DumpFault;
use crate::undumping::undump;
use ss_bso::{Batches, Kept, Plain, Rows, Staged, Times};
use ss_lines::{part_form, row_form};
use ss_text::{Name, Stamp};
use std::alloc::Global;

/// A text is the dump of one account at most: of one list of rows, one of collections and one of batches, each in order.
pub fn one_account()
    ensures { (text : List ℕ) (kept other : KeptView) → IsDumpOf text kept → IsDumpOf text other → kept ≡ other }
{}

/// A dump is refused for no cause but want of memory: so exactly the dumps are read.
pub fn a_dump_is_not_refused()
    ensures { (text : List ℕ) (kept : KeptView) (fault : FaultView) → IsDumpOf text kept → IsWhyNoDump text fault → fault ≡ Memory }
{}

/// Accounts that are the same, whatever the order of their rows, collections and batches, have one dump.
pub fn no_order_is_dumped()
    ensures kept { (kept other : KeptView) → IsGood kept → SameKept kept other → dump_text kept ≡ dump_text other }
    ensures accounts { (account other : PlainView) → IsValid account → SameAccount account other
        → dump_text (kept_of account) ≡ dump_text (kept_of other) }
{}

/// The dump of what is kept is a dump, where an account can be opened from it and its values have their forms: that of
/// this in order, and of nothing else. The account that is opened from it in order is the same, whatever the order of
/// its lists.
pub fn a_dump_tells_its_account()
    ensures dump { (kept : KeptView) → AllByRecursion IsLine (account_lines kept) → IsGood kept
        → IsDumpOf (dump_text kept) (in_order kept) }
    ensures no_other { (kept other : KeptView) → AllByRecursion IsLine (account_lines kept) → IsGood kept
        → IsDumpOf (dump_text kept) other → other ≡ in_order kept }
    ensures same { (kept : KeptView) → SameKept kept (in_order kept) }
    ensures opened { (kept other : KeptView) → SameKept kept other → SameAccount (account_at_opening kept) (account_at_opening other) }
{}

fn collection_form(entry: &(Name, Stamp))
    ensures { IsLine (collection_line entry.now) }
{
    let _name = entry.0.as_str();
    let _time = entry.1.get();
}

fn collections_form(collections: &Times)
    ensures { AllByRecursion IsLine (map collection_line collections.now) }
{
    for entry in collections.as_slice() {
        collection_form(entry);
    }
}

fn rows_form(rows: &Rows)
    ensures { AllByRecursion IsLine (map (λ r. RowLine r) rows.now) }
{
    for row in rows.as_slice() {
        row_form(row);
    }
}

/// The values of a batch and of its parts have their forms.
fn staged_form(staged: &Staged)
    ensures { AllByRecursion IsLine (batch_lines staged.now) }
{
    let _number = staged.number;
    let _collection = staged.collection.as_str();
    let _begun = staged.begun.get();
    for part in staged.parts.as_slice() {
        part_form(part);
    }
}

fn batches_form(batches: &Batches)
    ensures { AllByRecursion IsLine (flat_map batch_lines batches.now) }
{
    for staged in batches.as_slice() {
        staged_form(staged);
    }
}

/// What is kept has the form of lines, as its types say.
#[tactic(auto, using(crate::proofs::Forms::kept_formed))]
pub fn kept_form(kept: &Kept)
    ensures { AllByRecursion IsLine (account_lines kept.now) }
{
    let _store = kept.store.get();
    let _last_delete = kept.last_delete.get();
    let _counter = kept.counter;
    collections_form(&kept.collections);
    rows_form(&kept.rows);
    batches_form(&kept.batches);
}

/// An account has the form of lines, as its types say.
#[tactic(auto, using(crate::proofs::Forms::kept_formed))]
pub fn account_form(account: &Plain)
    ensures { AllByRecursion IsLine (account_lines (kept_of account.now)) }
{
    let _store = account.store.get();
    let _last_delete = account.last_delete.get();
    let _counter = account.counter;
    collections_form(&account.collections);
    rows_form(&account.rows);
    batches_form(&account.batches);
}

/// Dumps what is kept, from which an account can be opened, and reads this dump: that gives what is kept, in order,
/// unless memory is wanting.
pub fn read_again(alloc: Global, kept: &Kept) -> Result<Kept, DumpFault>
    requires { IsGood kept.now }
    ensures read { IfOk result (λ read. read ≡ in_order kept.now) }
    ensures memory { IfErr result (λ fault. fault ≡ Memory) }
{
    kept_form(kept);
    let text = dump(alloc, kept)?;
    undump(alloc, text.as_slice())
}
