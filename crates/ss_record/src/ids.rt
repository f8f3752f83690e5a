//! The ids that are always there.

ghost use Rattle.std.specs.Prelude.{◌≡◌, bytes_eq};
ghost use Rattle.ss_record.specs.Ids.{has, places, roots};

use ss_text::Id;

/// Whether this is the id of the tree's top.
#[tactic(auto, unfolding(crate::specs::Ids::places))]
pub fn is_places(id: &Id) -> bool
    ensures { result ≡ bytes_eq id.now places }
{
    id.as_str() == "places"
}

/// Whether this is the id of one of the four roots, which stand under `places`.
#[tactic(auto, unfolding(crate::specs::Ids::has, crate::specs::Ids::roots))]
pub fn is_root(id: &Id) -> bool
    ensures { result ≡ has id.now roots }
{
    let text = id.as_str();
    text == "menu" || text == "toolbar" || text == "unfiled" || text == "mobile"
}
