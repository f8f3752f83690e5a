//! What is shown of a record.

ghost use Rattle.std.specs.Prelude.{◌≡◌, IfOk};
ghost use Rattle.ss_flat.specs.Joining.{greater};
ghost use Rattle.ss_flat.specs.States.{face_cmp};

use ss_text::{Stamp, Word};
use std::alloc::{AllocError, Global};
use std::cmp::Ordering;

/// The time of a record and its two texts: an address and a title, or a name and a value.
#[derive(Drop, Debug)]
pub struct Face {
    pub time: Stamp,
    pub first: Word,
    pub second: Word,
}

impl Face {
    pub fn copy(&self, alloc: Global) -> Result<Face, AllocError>
        ensures { IfOk result (λ copied. copied ≡ self.now) }
    {
        Ok(Face {
            time: self.time,
            first: self.first.copy(alloc)?,
            second: self.second.copy(alloc)?,
        })
    }

    /// By time, then by the texts, by bytes.
    fn order(&self, other: &Face) -> Ordering
        ensures { result ≡ face_cmp self.now other.now }
    {
        let texts = self
            .first
            .as_str()
            .cmp(other.first.as_str())
            .then(self.second.as_str().cmp(other.second.as_str()));
        self.time.get().cmp(&other.time.get()).then(texts)
    }
}

/// The greater of two faces, where there are two.
pub(crate) fn greater(one: Option<Face>, other: Option<Face>) -> Option<Face>
    ensures { result ≡ greater face_cmp one other }
{
    match (one, other) {
        (None, other) => other,
        (Some(face), None) => Some(face),
        (Some(face), Some(other)) => if face.order(&other).is_lt() {
            Some(other)
        } else {
            Some(face)
        },
    }
}
