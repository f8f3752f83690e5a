//! How the database of an account is taken.

ghost use Rattle.std.specs.Prelude.{IfErr};
ghost use Rattle.ss_keep_sql.specs.Opening.{HasVersion};

use crate::faults::{Refusal, SqlFault, fault_of, fault_of_refusal, taken};
use crate::folding::read_folding;
use crate::row_numbers::number_rows;
use crate::tables::{IN_TRANSACTION, VERSION, ready};
use sqlite::{Alter, Connection, Transaction};
use ss_bso::Kept;
use std::alloc::Global;

/// Makes tables of an older version those of version 4, reads what they have, and makes the commits to it and to them.
fn read_taken<S: Alter>(
    alloc: Global,
    transaction: &mut Transaction<'_, S>,
    found: i64,
) -> Result<Kept, Refusal> {
    if found != VERSION {
        number_rows(alloc, transaction)?;
    }
    read_folding(alloc, transaction)
}

/// Takes a database, and gives all that it holds: gives it the tables of version 4 where it hasn't them, reads it, and
/// makes the commits that stand beside the tables to them. All of that is one transaction, so one that is refused is as
/// it was.
pub(crate) fn take<S: Alter>(
    alloc: Global,
    connection: &mut Connection<S>,
) -> Result<Kept, SqlFault>
    ensures { IfErr result HasVersion }
{
    if !connection.is_autocommit() {
        return Err(fault_of(IN_TRANSACTION));
    }
    let mut transaction = connection.transaction();
    let found = taken(ready(&mut transaction))?;
    let kept = match read_taken(alloc, &mut transaction, found) {
        Ok(kept) => kept,
        Err(refusal) => return Err(fault_of_refusal(refusal)),
    };
    match transaction.commit() {
        Ok(()) => Ok(kept),
        Err(error) => Err(fault_of(error)),
    }
}
