//! Whether values of an account are equal.

ghost use Rattle.std.specs.Prelude.{◌≡◌, ◌↔◌, IsTrue, map};

use ss_bso::{Field, Fields, Part, Row, Staged};
use ss_text::{Name, Stamp, Word};

/// A value that can be compared with others.
pub(crate) trait Equal {
    /// Whether it is the other.
    fn is_equal(&self, other: &Self) -> bool
        ensures { IsTrue result ↔ (self.now ≡ other.now) };
}

/// Whether values are the others, in order.
pub(crate) fn are_equal<T: Equal>(items: &[T], others: &[T]) -> bool
    ensures { IsTrue result ↔ (items.now ≡ others.now) }
{
    if items.len() != others.len() {
        return false;
    }
    for (i, item) in items.iter().enumerate() {
        if !item.is_equal(&others[i]) {
            return false;
        }
    }
    true
}

/// Whether values that are lent are the others, in order.
pub(crate) fn are_lent_equal<T: Equal>(items: &[&T], others: &[&T]) -> bool
    ensures { IsTrue result ↔ (map (λ item. item.now) items.now ≡ map (λ item. item.now) others.now) }
{
    if items.len() != others.len() {
        return false;
    }
    for (i, item) in items.iter().enumerate() {
        if !item.is_equal(others[i]) {
            return false;
        }
    }
    true
}

impl Equal for (Name, Stamp) {
    fn is_equal(&self, other: &(Name, Stamp)) -> bool {
        self.0 == other.0 && self.1 == other.1
    }
}

impl Equal for Row {
    fn is_equal(&self, other: &Row) -> bool {
        self.collection == other.collection
            && self.id == other.id
            && self.modified == other.modified
            && self.sortindex == other.sortindex
            && self.payload == other.payload
            && self.expires == other.expires
    }
}

fn is_payload(payload: &Field<Word>, other: &Field<Word>) -> bool
    ensures { IsTrue result ↔ (payload.now ≡ other.now) }
{
    match (payload, other) {
        (Field::Keep, Field::Keep) | (Field::Clear, Field::Clear) => true,
        (Field::Set(text), Field::Set(other)) => *text == *other,
        _ => false,
    }
}

fn is_sortindex(sortindex: &Field<i32>, other: &Field<i32>) -> bool
    ensures { IsTrue result ↔ (sortindex.now ≡ other.now) }
{
    match (sortindex, other) {
        (Field::Keep, Field::Keep) | (Field::Clear, Field::Clear) => true,
        (Field::Set(number), Field::Set(other)) => *number == *other,
        _ => false,
    }
}

fn is_ttl(ttl: &Field<u32>, other: &Field<u32>) -> bool
    ensures { IsTrue result ↔ (ttl.now ≡ other.now) }
{
    match (ttl, other) {
        (Field::Keep, Field::Keep) | (Field::Clear, Field::Clear) => true,
        (Field::Set(seconds), Field::Set(other)) => *seconds == *other,
        _ => false,
    }
}

impl Equal for Fields {
    fn is_equal(&self, other: &Fields) -> bool {
        is_payload(&self.payload, &other.payload)
            && is_sortindex(&self.sortindex, &other.sortindex)
            && is_ttl(&self.ttl, &other.ttl)
    }
}

impl Equal for Part {
    fn is_equal(&self, other: &Part) -> bool {
        self.id == other.id && self.fields.is_equal(&other.fields)
    }
}

impl Equal for Staged {
    fn is_equal(&self, other: &Staged) -> bool {
        self.number == other.number
            && self.collection == other.collection
            && self.begun == other.begun
            && are_equal(self.parts.as_slice(), other.parts.as_slice())
    }
}
