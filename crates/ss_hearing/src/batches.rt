//! The ids of batches.

ghost use Rattle.std.specs.Prelude.{◌≡◌, IfOk, option_map};
ghost use Rattle.base64.specs.GeneralPurpose.{decoded_of};
ghost use Rattle.base64.specs.Engines.{url_safe_no_pad};
ghost use Rattle.ss_route.specs.Posts.{batch_of};
ghost use Rattle.ss_route.specs.Targets.{positive_of};

use base64::DecodeAllocError;
use base64::engine::general_purpose::URL_SAFE_NO_PAD;
use ss_text::read_number;
use std::alloc::{AllocError, Global};

/// The bytes of a base64 text for URLs, without padding (RFC 4648).
#[tactic(auto, unfolding(base64::specs::GeneralPurpose::decoded_of))]
fn decoded(alloc: Global, text: &[u8]) -> Result<Option<Vec<u8>>, AllocError>
    ensures { IfOk result (λ bytes. option_map (λ list. list.items) bytes ≡ decoded_of url_safe_no_pad text.now) }
{
    match URL_SAFE_NO_PAD.decode(alloc, text) {
        Ok(bytes) => Ok(Some(bytes)),
        Err(DecodeAllocError::DecodeError(_)) => Ok(None),
        Err(DecodeAllocError::OutOfMemory) => Err(AllocError),
    }
}

/// A number from 1 of at most 12 digits, without a leading zero.
#[tactic(auto, unfolding(ss_route::specs::Targets::positive_of))]
fn positive_of(digits: &[u8]) -> Option<u64>
    ensures { result ≡ positive_of 12 digits.now }
{
    if digits.first() == Some(&b'0') {
        return None;
    }
    read_number(digits, 12)
}

/// The number of which a text is the id of a batch.
#[tactic(auto, unfolding(ss_route::specs::Posts::batch_of))]
pub(crate) fn batch_of(alloc: Global, text: &[u8]) -> Result<Option<u64>, AllocError>
    ensures { IfOk result (λ number. number ≡ batch_of text.now) }
{
    match decoded(alloc, text)? {
        Some(digits) => Ok(positive_of(digits.as_slice())),
        None => Ok(None),
    }
}
