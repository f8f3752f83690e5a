//! The digest of a text.

ghost use Rattle.std.specs.Prelude.{◌≡◌, IfOk, bytes_eq};
ghost use Rattle.ss_dump.specs.Dumps.{digest_of};

use sha2::{Digest as _, Sha256};
use ss_lines::Digest;
use std::alloc::{AllocError, Global};

/// The digest of a text: its SHA-256.
#[tactic(auto, unfolding(crate::specs::Dumps::digest_of))]
pub(crate) fn digest_of(alloc: Global, text: &[u8]) -> Result<Digest, AllocError>
    ensures { IfOk result (λ digest. digest ≡ digest_of text.now) }
{
    let hash = Sha256::digest(text);
    let digits = hex::encode(alloc, hash.as_slice())?;
    match Digest::new(alloc, digits.as_str())? {
        Some(digest) => Ok(digest),
        None => unreachable!(),
    }
}

/// Whether two digests are one.
pub(crate) fn is_same(digest: &Digest, other: &Digest) -> bool
    ensures { result ≡ bytes_eq digest.now other.now }
{
    digest.as_str().as_bytes() == other.as_str().as_bytes()
}
