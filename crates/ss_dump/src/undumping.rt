//! What a dump tells.

ghost use Rattle.std.specs.Prelude.{◌≡◌, Some, IfOk, IfErr, OnOk, bytes_eq};
ghost use Rattle.ss_account.specs.Opening.{IsGood};
ghost use Rattle.ss_dump.specs.Undumped.{IsDumpOf, IsOtherDigest, IsWhyNoDump, IsUnfit};

use crate::faults::DumpFault;
use crate::hashing::{digest_of, is_same};
use crate::reading::read_told;
use ss_account::{Account, OpenFault};
use ss_bso::{Changes, Kept};
use ss_keeper::{KeepFault, Keeper, KeeperCalls};
use ss_lines::Digest;
use ss_text::Word;
use std::alloc::{AllocError, Global};

/// A keeper that holds what is lent, so that it can be tested whether an account can be opened from it. It makes no
/// changes.
#[derive(Drop)]
struct Lent<'a> {
    kept: &'a Kept,
    calls: KeeperCalls,
}

impl Keeper for Lent<'_> {
    ghost told = { λ k. Some k.kept.now };

    ghost keep_faults = { λ _. 0 };

    ghost calls = { λ k. k.calls };

    fn load(&mut self, alloc: Global) -> Result<Kept, KeepFault> {
        self.calls.note_load();
        Ok(self.kept.copy(alloc)?)
    }

    fn commit(&mut self, _alloc: Global, _changes: &Changes) -> Result<(), KeepFault> {
        self.calls.note_commit();
        Err(KeepFault::Memory)
    }
}

/// Tests that an account can be opened from what is kept, as it is opened.
fn check(alloc: Global, kept: &Kept) -> Result<(), DumpFault>
    ensures good { OnOk result (IsGood kept.now) }
    ensures unfit { IfErr result (λ fault. IsUnfit kept.now fault) }
{
    let lent = Lent {
        kept,
        calls: KeeperCalls::new(),
    };
    match Account::open(alloc, lent) {
        Ok(_) => Ok(()),
        Err((_, OpenFault::BadCollection { n })) => Err(DumpFault::BadCollection { n }),
        Err((_, OpenFault::BadRow { n })) => Err(DumpFault::BadRow { n }),
        Err((_, OpenFault::BadBatch { n })) => Err(DumpFault::BadBatch { n }),
        Err((_, OpenFault::Memory)) => Err(DumpFault::Memory),
        Err((_, OpenFault::Keeper)) => unreachable!(),
    }
}

/// A digest as a text.
fn word_of(alloc: Global, digest: &Digest) -> Result<Word, AllocError>
    ensures { IfOk result (λ word. word ≡ digest.now) }
{
    Ok(Word::new(String::from_str(alloc, digest.as_str())?))
}

/// Tests that the digest that is stated is the one that was found.
fn same_digests(alloc: Global, stated: &Digest, found: &Digest) -> Result<(), DumpFault>
    ensures same { OnOk result (stated.now ≡ found.now) }
    ensures other { IfErr result (λ fault. IsOtherDigest stated.now found.now fault) }
{
    if is_same(stated, found) {
        return Ok(());
    }
    Err(DumpFault::BadDigest {
        stated: word_of(alloc, stated)?,
        found: word_of(alloc, found)?,
    })
}

/// What is kept of the account whose dump a text is, its lists in order. Exactly the dumps are read, each as its account;
/// any other text is refused for the first cause that there is: its first line that isn't the next one of a dump, then its
/// digest, then the first collection, row or batch for which no account can be opened from it.
pub fn undump(alloc: Global, bytes: &[u8]) -> Result<Kept, DumpFault>
    ensures account { IfOk result (λ kept. IsDumpOf bytes.now kept) }
    ensures refused { IfErr result (λ fault. IsWhyNoDump bytes.now fault) }
{
    let told = read_told(alloc, bytes)?;
    let found = digest_of(alloc, &bytes[..told.body])?;
    same_digests(alloc, &told.digest, &found)?;
    let kept = told.draft.into_kept();
    check(alloc, &kept)?;
    Ok(kept)
}
