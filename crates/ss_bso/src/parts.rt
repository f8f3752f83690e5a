//! What a request says of records.

ghost use Rattle.std.specs.Prelude.{◌≡◌, ◌++◌, IfOk, if◌then◌else◌, is_ok, take};

use ss_text::{Id, Word};
use std::alloc::{AllocError, Global};
use std::marker::Model;

/// What a request says of one field of a record (SyncStorage API 1.5).
#[derive(Drop, Debug)]
pub enum Field<T> {
    /// Nothing: the old value stays.
    Keep,

    /// `null`: the field has its default again.
    Clear,
    Set(T),
}

/// What a request says of a record.
#[derive(Drop, Debug)]
pub struct Fields {
    pub payload: Field<Word>,
    pub sortindex: Field<i32>,

    /// How long the record lives, in seconds from the write on.
    pub ttl: Field<u32>,
}

/// A record of a request.
#[derive(Drop, Debug)]
pub struct Part {
    pub id: Id,
    pub fields: Fields,
}

fn copy_payload(alloc: Global, payload: &Field<Word>) -> Result<Field<Word>, AllocError>
    ensures { IfOk result (λ copied. copied ≡ payload.now) }
{
    Ok(match payload {
        Field::Keep => Field::Keep,
        Field::Clear => Field::Clear,
        Field::Set(text) => Field::Set(text.copy(alloc)?),
    })
}

fn copy_number<T: Copy>(number: &Field<T>) -> Field<T>
    ensures { result ≡ number.now }
{
    match number {
        Field::Keep => Field::Keep,
        Field::Clear => Field::Clear,
        Field::Set(value) => Field::Set(*value),
    }
}

impl Fields {
    pub fn copy(&self, alloc: Global) -> Result<Fields, AllocError>
        ensures { IfOk result (λ copied. copied ≡ self.now) }
    {
        Ok(Fields {
            payload: copy_payload(alloc, &self.payload)?,
            sortindex: copy_number(&self.sortindex),
            ttl: copy_number(&self.ttl),
        })
    }
}

impl Part {
    pub fn copy(&self, alloc: Global) -> Result<Part, AllocError>
        ensures { IfOk result (λ copied. copied ≡ self.now) }
    {
        Ok(Part {
            id: self.id.copy(alloc)?,
            fields: self.fields.copy(alloc)?,
        })
    }
}

/// A list of parts.
#[derive(Drop, Debug)]
pub struct Parts {
    parts: Vec<Part>,
}

impl Model for Parts {
    ghost use Rattle.std.specs.Prelude.{List};
    ghost use Rattle.ss_bso.specs.declared.parts.Part.{Part};

    ghost Value = { List Part };

    ghost view = { λ p. p.parts.items };
}

impl Parts {
    /// The parts of a vector, which are moved.
    pub fn new(parts: Vec<Part>) -> Parts
        ensures { result ≡ parts.items }
    {
        Parts { parts }
    }

    pub fn as_slice(&self) -> &[Part]
        ensures { result.now ≡ self.now }
    {
        self.parts.as_slice()
    }

    pub fn copy(&self, alloc: Global) -> Result<Parts, AllocError>
        ensures { IfOk result (λ copied. copied ≡ self.now) }
    {
        let mut parts = Vec::with_capacity(alloc, self.parts.len())?;
        for part in &self.parts {
            parts.push(part.copy(alloc)?)?;
        }
        Ok(Parts { parts })
    }

    /// The parts as a vector, which are moved.
    pub fn into_vec(self) -> Vec<Part>
        ensures { result.items ≡ self }
    {
        self.parts
    }

    /// Moves parts to the end. Without memory the list is as it was, and they are dropped.
    pub fn append(&mut self, more: Vec<Part>) -> Result<(), AllocError>
        ensures { self.new ≡ (if is_ok result then self.old ++ more.items else self.old) }
    {
        self.parts.reserve(more.len())?;
        for part in more {
            self.parts.push_reserved(part);
        }
        Ok(())
    }

    /// Keeps the first so many parts, or all where there are fewer. It takes no memory.
    pub fn truncate(&mut self, count: usize)
        ensures { self.new ≡ take count self.old }
    {
        self.parts.truncate(count);
    }
}

/// Why a record of a POST failed.
#[derive(Clone, Copy, Debug, PartialEq, Eq)]
pub enum Reason {
    /// Its payload is no string.
    Payload,

    /// Its payload is over 2,097,152 bytes.
    TooLarge,

    /// Its sortindex is no whole number from -999,999,999 to 999,999,999.
    Sortindex,

    /// Its ttl is no whole number from 0 to 999,999,999.
    Ttl,
}

/// The ids of records that failed, each with the reason.
#[derive(Drop, Debug)]
pub struct Failures {
    failures: Vec<(Id, Reason)>,
}

impl Model for Failures {
    ghost use Rattle.std.specs.Prelude.{List, ℕ};
    ghost use Rattle.ss_bso.specs.declared.parts.Reason.{Reason};

    ghost Value = { List (List ℕ × Reason) };

    ghost view = { λ f. f.failures.items };
}

impl Failures {
    /// The failures of a vector, which are moved.
    pub fn new(failures: Vec<(Id, Reason)>) -> Failures
        ensures { result ≡ failures.items }
    {
        Failures { failures }
    }

    pub fn as_slice(&self) -> &[(Id, Reason)]
        ensures { result.now ≡ self.now }
    {
        self.failures.as_slice()
    }

    pub fn copy(&self, alloc: Global) -> Result<Failures, AllocError>
        ensures { IfOk result (λ copied. copied ≡ self.now) }
    {
        let mut failures = Vec::with_capacity(alloc, self.failures.len())?;
        for failure in &self.failures {
            failures.push((failure.0.copy(alloc)?, failure.1))?;
        }
        Ok(Failures { failures })
    }
}

/// The records of a POST: those that can be put, in the order of the body, and those that failed.
#[derive(Drop, Debug)]
pub struct Records {
    pub parts: Parts,
    pub failed: Failures,
}

impl Records {
    pub fn copy(&self, alloc: Global) -> Result<Records, AllocError>
        ensures { IfOk result (λ copied. copied ≡ self.now) }
    {
        Ok(Records {
            parts: self.parts.copy(alloc)?,
            failed: self.failed.copy(alloc)?,
        })
    }
}
