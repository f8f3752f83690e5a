//! A digest in text.

ghost use Rattle.std.specs.Prelude.{◌≡◌, true, IfOk, Some, None, if◌then◌else◌};
ghost use Rattle.std.specs.List.{list_all};
ghost use Rattle.ss_lines.specs.Digests.{is_digest, is_lower_hex};

use std::alloc::{AllocError, Global};
use std::marker::Model;

/// A SHA-256 in text: 64 hexadecimal digits, the letters in lower case.
#[derive(Drop, Debug)]
pub struct Digest {
    text: String,
}

impl Model for Digest {
    ghost use Rattle.std.specs.Prelude.{◌≡◌, true, List, ℕ, string_bytes};
    ghost use Rattle.ss_lines.specs.Digests.{is_digest};

    ghost Value = { List ℕ };

    ghost view = { λ d. string_bytes d.text };

    ghost invariant = { λ d. is_digest (string_bytes d.text) ≡ true };
}

fn are_lower_hex(bytes: &[u8]) -> bool
    ensures { result ≡ list_all is_lower_hex bytes.now }
{
    bytes
        .iter()
        .all(|b| b.is_ascii_digit() || (b'a' <= *b && *b <= b'f'))
}

fn has_form_of_digest(bytes: &[u8]) -> bool
    ensures { result ≡ is_digest bytes.now }
{
    bytes.len() == 64 && are_lower_hex(bytes)
}

impl Digest {
    /// The digest with these characters; None exactly where they don't have the form of one.
    pub fn new(alloc: Global, text: &str) -> Result<Option<Digest>, AllocError>
        ensures { IfOk result (λ digest. digest ≡ (if is_digest text.now then Some text.now else None)) }
    {
        if !has_form_of_digest(text.as_bytes()) {
            return Ok(None);
        }
        Ok(Some(Digest {
            text: String::from_str(alloc, text)?,
        }))
    }

    pub fn as_str(&self) -> &str
        ensures text { result.now ≡ self.now }
        ensures form { is_digest self.now ≡ true }
    {
        self.text.as_str()
    }
}
