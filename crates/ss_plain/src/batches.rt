//! What a POST that writes no row makes of the batches.

ghost use Rattle.std.specs.Prelude.{◌≡◌, ◌+◌, ◌<◌, ◌++◌, ◌∷◌, [], map, IfOk};
ghost use Rattle.ss_bso.specs.Batches.{batches_without, grown};
ghost use Rattle.ss_query.specs.Effect.{batches_after, counter_after};
ghost use Rattle.ss_query.specs.declared.requests.Mode.TheVariants.{Begin};

use ss_bso::{Batches, Part, Parts, Plain, Staged};
use ss_query::Mode;
use ss_text::Name;
use ss_writes::copy_parts;
use std::alloc::{AllocError, Global};

/// One more batch, whose number is the next.
fn begin(
    alloc: Global,
    account: Plain,
    collection: &Name,
    parts: &Parts,
) -> Result<Plain, AllocError>
    requires { account.counter < 999999999999 }
    ensures { IfOk result (λ after. after ≡ record account {
      batches = account.batches ++ record {
        number = account.counter + 1;
        collection = collection.now;
        begun = account.moment;
        parts = parts.now;
      } ∷ [];
      counter = account.counter + 1;
    }) }
{
    let number = account.counter + 1;
    let staged = Staged {
        number,
        collection: collection.copy(alloc)?,
        begun: account.moment,
        parts: parts.copy(alloc)?,
    };
    let mut batches = account.batches.into_vec();
    batches.push(staged)?;
    Ok(Plain {
        rows: account.rows,
        collections: account.collections,
        store: account.store,
        last_delete: account.last_delete,
        moment: account.moment,
        counter: number,
        batches: Batches::new(batches),
    })
}

/// A batch with more parts at its end, where it has this number.
fn grow(
    alloc: Global,
    mut staged: Staged,
    number: u64,
    parts: &[Part],
) -> Result<Staged, AllocError>
    ensures { IfOk result (λ left. left ≡ grown number parts.now staged) }
{
    if staged.number == number {
        staged.parts.append(copy_parts(alloc, parts)?)?;
    }
    Ok(staged)
}

fn grow_all(
    alloc: Global,
    batches: Vec<Staged>,
    number: u64,
    parts: &[Part],
) -> Result<Vec<Staged>, AllocError>
    ensures { IfOk result (λ left. left.items ≡ map (grown number parts.now) batches.items) }
{
    let mut left = Vec::with_capacity(alloc, batches.len())?;
    for staged in batches {
        left.push(grow(alloc, staged, number, parts)?)?;
    }
    Ok(left)
}

/// More parts at the end of the batch of a number.
fn append(alloc: Global, account: Plain, number: u64, parts: &[Part]) -> Result<Plain, AllocError>
    ensures { IfOk result (λ after. after ≡ record account {
      batches = map (grown number parts.now)
          account.batches;
    }) }
{
    let batches = grow_all(alloc, account.batches.into_vec(), number, parts)?;
    Ok(Plain {
        rows: account.rows,
        collections: account.collections,
        store: account.store,
        last_delete: account.last_delete,
        moment: account.moment,
        counter: account.counter,
        batches: Batches::new(batches),
    })
}

fn others(mut batches: Vec<Staged>, number: u64) -> Vec<Staged>
    ensures { result.items ≡ batches_without number batches.items }
{
    batches.retain(|staged| !(staged.number == number));
    batches
}

/// The account without the batch of a number.
pub(crate) fn end(account: Plain, number: u64) -> Plain
    ensures { result ≡ record account { batches = batches_without number account.batches } }
{
    Plain {
        rows: account.rows,
        collections: account.collections,
        store: account.store,
        last_delete: account.last_delete,
        moment: account.moment,
        counter: account.counter,
        batches: Batches::new(others(account.batches.into_vec(), number)),
    }
}

/// The account after a POST that puts no part.
pub(crate) fn stage(
    alloc: Global,
    account: Plain,
    collection: &Name,
    parts: &Parts,
    mode: Mode,
) -> Result<Plain, AllocError>
    requires room { mode ≡ Begin → account.counter < 999999999999 }
    ensures { IfOk result (λ after. after ≡ record account {
      batches = batches_after account collection.now parts.now mode;
      counter = counter_after account mode;
    }) }
{
    match mode {
        Mode::Plain => Ok(account),
        Mode::Begin => begin(alloc, account, collection, parts),
        Mode::Append { batch } => append(alloc, account, batch, parts.as_slice()),
        Mode::Commit { batch } => Ok(end(account, batch)),
    }
}
