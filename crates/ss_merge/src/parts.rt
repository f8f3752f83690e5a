//! What of an item is compared with the mirror.

ghost use Rattle.std.specs.Prelude.{◌≡◌};
ghost use Rattle.ss_record.specs.Kinds.{same_kind};
ghost use Rattle.ss_dupe.specs.Plains.{placed_at};
ghost use Rattle.ss_merge.specs.Survivors.{same_children, same_content, same_parent};
ghost use Rattle.ss_merge.specs.Parts.{alike};

use ss_dupe::Seat;
use ss_record::Kind;

/// A part of an item in its place: kind and content, parent, or children.
#[derive(Clone, Copy, PartialEq, Eq, Debug)]
pub(crate) enum Part {
    Content,
    Parent,
    Children,
}

fn same_kind(a: Kind, b: Kind) -> bool
    ensures { result ≡ same_kind a b }
{
    match a {
        Kind::Bookmark => matches!(b, Kind::Bookmark),
        Kind::Query => matches!(b, Kind::Query),
        Kind::Folder => matches!(b, Kind::Folder),
        Kind::Livemark => matches!(b, Kind::Livemark),
        Kind::Separator => matches!(b, Kind::Separator),
    }
}

fn same_content(a: &Seat, b: &Seat) -> bool
    ensures { result ≡ same_content (placed_at a.now) (placed_at b.now) }
{
    same_kind(a.item.kind(), b.item.kind())
        && a.item.content().as_str() == b.item.content().as_str()
}

fn same_parent(a: &Seat, b: &Seat) -> bool
    ensures { result ≡ same_parent (placed_at a.now) (placed_at b.now) }
{
    match (&a.parent, &b.parent) {
        (Some(parent), Some(other)) => parent == other,
        _ => false,
    }
}

#[tactic(auto, unfolding(ss_record::specs::Ids::same_list))]
fn same_children(a: &Seat, b: &Seat) -> bool
    ensures { result ≡ same_children (placed_at a.now) (placed_at b.now) }
{
    a.children.as_slice() == b.children.as_slice()
}

/// Whether a part of two items is the same.
pub(crate) fn alike(part: Part, a: &Seat, b: &Seat) -> bool
    ensures { result ≡ alike part (placed_at a.now) (placed_at b.now) }
{
    match part {
        Part::Content => same_content(a, b),
        Part::Parent => same_parent(a, b),
        Part::Children => same_children(a, b),
    }
}
