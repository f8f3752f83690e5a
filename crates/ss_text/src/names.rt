//! Ids of records and names of collections, which contracts see as lists of bytes.

ghost use Rattle.std.specs.Prelude.{◌≡◌, ◌∷◌, [], true, refl, IfOk, Some, None, if◌then◌else◌, bytes_eq};
ghost use Rattle.std.specs.List.{list_all};
ghost use Rattle.std.specs.Cmp as order;
ghost use Rattle.std.specs.Cmp.Lexicographic.{nat_list_cmp_total, nat_list_eq_equiv, texts_po, texts_ties, pointwise};
ghost use Rattle.std.specs.Cmp.Lexicographic.{lists_equiv};
ghost use Rattle.std.specs.Cmp.Rules.{hashing};
ghost use Rattle.std.proofs.Common.{rules};
ghost use Rattle.ss_text.specs.Names.{is_id, is_name, is_visible, is_name_byte};
ghost use Rattle.ss_text.specs.Texts.{text_cmp};

use std::alloc::{AllocError, Global};
use std::cmp::Ordering;
use std::hash::{Hash, Hasher};
use std::marker::Model;

/// A record's id: 1 to 64 bytes from 0x20 to 0x7E (SyncStorage API 1.5).
#[derive(Drop, Debug)]
pub struct Id {
    text: String,
}

impl Model for Id {
    ghost use Rattle.std.specs.Prelude.{◌≡◌, true, List, ℕ, string_bytes};
    ghost use Rattle.ss_text.specs.Names.{is_id};

    ghost Value = { List ℕ };

    ghost view = { λ i. string_bytes i.text };

    ghost invariant = { λ i. is_id (string_bytes i.text) ≡ true };
}

fn are_visible(bytes: &[u8]) -> bool
    ensures { result ≡ list_all is_visible bytes.now }
{
    bytes.iter().all(|b| 0x20 <= *b && *b <= 0x7e)
}

fn has_form_of_id(bytes: &[u8]) -> bool
    ensures { result ≡ is_id bytes.now }
{
    1 <= bytes.len() && bytes.len() <= 64 && are_visible(bytes)
}

fn are_name_bytes(bytes: &[u8]) -> bool
    ensures { result ≡ list_all is_name_byte bytes.now }
{
    bytes.iter().all(|b| b.is_ascii_alphanumeric() || *b == b'_' || *b == b'-' || *b == b'.')
}

fn has_form_of_name(bytes: &[u8]) -> bool
    ensures { result ≡ is_name bytes.now }
{
    1 <= bytes.len() && bytes.len() <= 32 && are_name_bytes(bytes)
}

impl Id {
    /// The id with these bytes; None exactly where they don't have the form of an id.
    pub fn new(alloc: Global, bytes: &[u8]) -> Result<Option<Id>, AllocError>
        ensures { IfOk result (λ id. id ≡ (if is_id bytes.now then Some bytes.now else None)) }
    {
        if !has_form_of_id(bytes) {
            return Ok(None);
        }
        match str::from_utf8(bytes) {
            Ok(text) => Ok(Some(Id {
                text: String::from_str(alloc, text)?,
            })),
            Err(_) => unreachable!(),
        }
    }

    pub fn as_str(&self) -> &str
        ensures text { result.now ≡ self.now }
        ensures form { is_id self.now ≡ true }
    {
        self.text.as_str()
    }

    pub fn copy(&self, alloc: Global) -> Result<Id, AllocError>
        ensures { IfOk result (λ copied. copied ≡ self.now) }
    {
        Ok(Id {
            text: String::from_str(alloc, self.text.as_str())?,
        })
    }
}

impl PartialEq for Id {
    ghost eq = { bytes_eq };

    ghost laws = { order.partial_equiv_from_equiv nat_list_eq_equiv };

    fn eq(&self, other: &Id) -> bool {
        self.text.as_bytes() == other.text.as_bytes()
    }
}

impl Eq for Id {
    ghost laws = { nat_list_eq_equiv };
}

impl PartialOrd for Id {
    ghost partial_cmp = { λ x y. Some (text_cmp x y) };

    ghost laws = { texts_po };

    fn partial_cmp(&self, other: &Id) -> Option<Ordering> {
        Some(self.cmp(other))
    }
}

impl Ord for Id {
    ghost cmp = { text_cmp };

    ghost total = { nat_list_cmp_total };

    ghost matches_partial_cmp = { λ x y. refl };

    ghost matches_eq = { texts_ties };

    fn cmp(&self, other: &Id) -> Ordering {
        self.text.as_str().cmp(other.text.as_str())
    }
}

impl Hash for Id {
    ghost hash_input = { λ bytes. bytes ∷ [] };

    ghost respects_eq = { Prim.search (hashing, rules) };

    fn hash<H: Hasher>(&self, state: &mut H) {
        state.write(self.text.as_bytes());
    }
}

/// A collection's name: 1 to 32 characters of `A-Z a-z 0-9 _ - .` (SyncStorage API 1.5).
#[derive(Drop, Debug)]
pub struct Name {
    text: String,
}

impl Model for Name {
    ghost use Rattle.std.specs.Prelude.{◌≡◌, true, List, ℕ, string_bytes};
    ghost use Rattle.ss_text.specs.Names.{is_name};

    ghost Value = { List ℕ };

    ghost view = { λ n. string_bytes n.text };

    ghost invariant = { λ n. is_name (string_bytes n.text) ≡ true };
}

impl Name {
    /// The name with these bytes; None exactly where they don't have the form of a name.
    pub fn new(alloc: Global, bytes: &[u8]) -> Result<Option<Name>, AllocError>
        ensures { IfOk result (λ name. name ≡ (if is_name bytes.now then Some bytes.now else None)) }
    {
        if !has_form_of_name(bytes) {
            return Ok(None);
        }
        match str::from_utf8(bytes) {
            Ok(text) => Ok(Some(Name {
                text: String::from_str(alloc, text)?,
            })),
            Err(_) => unreachable!(),
        }
    }

    pub fn as_str(&self) -> &str
        ensures text { result.now ≡ self.now }
        ensures form { is_name self.now ≡ true }
    {
        self.text.as_str()
    }

    pub fn copy(&self, alloc: Global) -> Result<Name, AllocError>
        ensures { IfOk result (λ copied. copied ≡ self.now) }
    {
        Ok(Name {
            text: String::from_str(alloc, self.text.as_str())?,
        })
    }
}

impl PartialEq for Name {
    ghost eq = { bytes_eq };

    ghost laws = { order.partial_equiv_from_equiv nat_list_eq_equiv };

    fn eq(&self, other: &Name) -> bool {
        self.text.as_bytes() == other.text.as_bytes()
    }
}

impl Eq for Name {
    ghost laws = { nat_list_eq_equiv };
}

impl PartialOrd for Name {
    ghost partial_cmp = { λ x y. Some (text_cmp x y) };

    ghost laws = { texts_po };

    fn partial_cmp(&self, other: &Name) -> Option<Ordering> {
        Some(self.cmp(other))
    }
}

impl Ord for Name {
    ghost cmp = { text_cmp };

    ghost total = { nat_list_cmp_total };

    ghost matches_partial_cmp = { λ x y. refl };

    ghost matches_eq = { texts_ties };

    fn cmp(&self, other: &Name) -> Ordering {
        self.text.as_str().cmp(other.text.as_str())
    }
}

impl Hash for Name {
    ghost hash_input = { λ bytes. bytes ∷ [] };

    ghost respects_eq = { Prim.search (hashing, rules) };

    fn hash<H: Hasher>(&self, state: &mut H) {
        state.write(self.text.as_bytes());
    }
}

/// A list of ids, in order; an id may stand in it more than once.
#[derive(Drop, Debug)]
pub struct Ids {
    ids: Vec<Id>,
}

impl Model for Ids {
    ghost use Rattle.std.specs.Prelude.{List, ℕ};

    ghost Value = { List (List ℕ) };

    ghost view = { λ i. i.ids.items };
}

impl Ids {
    /// The ids of a vector, which are moved.
    pub fn new(ids: Vec<Id>) -> Ids
        ensures { result ≡ ids.items }
    {
        Ids { ids }
    }

    pub fn as_slice(&self) -> &[Id]
        ensures { result.now ≡ self.now }
    {
        self.ids.as_slice()
    }

    pub fn copy(&self, alloc: Global) -> Result<Ids, AllocError>
        ensures { IfOk result (λ copied. copied ≡ self.now) }
    {
        let mut ids = Vec::with_capacity(alloc, self.ids.len())?;
        for id in &self.ids {
            ids.push(id.copy(alloc)?)?;
        }
        Ok(Ids { ids })
    }
}

impl PartialEq for Ids {
    ghost eq = { pointwise bytes_eq };

    ghost laws = { order.partial_equiv_from_equiv (lists_equiv nat_list_eq_equiv) };

    fn eq(&self, other: &Ids) -> bool {
        self.ids == other.ids
    }
}

impl Eq for Ids {
    ghost laws = { lists_equiv nat_list_eq_equiv };
}
