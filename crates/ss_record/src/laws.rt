//! What fitness means.

ghost use Rattle.std.specs.Prelude.{◌≡◌, ◌↔◌, true};
ghost use Rattle.ss_record.specs.Items.{ItemView, is_fit};
ghost use Rattle.ss_record.specs.Records.{IsFit};

/// An item passes the test of `Item::new` exactly where its record reads back as it, under every parent and with all
/// children, or it is `places` as a folder with no content.
pub fn fitness_is_reading_back()
    ensures { (i : ItemView) → (is_fit i ≡ true) ↔ IsFit i }
{}
