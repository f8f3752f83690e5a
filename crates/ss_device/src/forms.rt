//! What the types of a device's parts say of their values.

ghost use Rattle.std.specs.Prelude.{◌≡◌, ◌≤◌, true};
ghost use Rattle.std.specs.Str.{IsUtf8};
ghost use Rattle.ss_text.specs.Names.{is_id};
ghost use Rattle.ss_text.specs.Time.{last_stamp};
ghost use Rattle.ss_record.specs.Items.{is_fit};
ghost use Rattle.ss_device.specs.Forms.{IsDeath, IsRow};

use ss_record::{Item, Sheet};
use ss_text::{Id, Stamp, Word};

/// A time is one.
pub(crate) fn time_form(time: Stamp)
    ensures { time ≤ last_stamp }
{
    let _time = time.get();
}

/// A text is one.
fn text_form(text: &Word)
    ensures { IsUtf8 text.now }
{
    let _bytes = text.as_str().as_bytes();
}

/// The values of a row have their forms.
pub(crate) fn row_form(row: &Sheet)
    ensures { IsRow row.now }
{
    let _id = row.id.as_str();
    time_form(row.modified);
    text_form(&row.payload);
}

/// An item is fit, its id and its time have their forms, and its record is a text.
pub(crate) fn item_form(item: &Item, time: Stamp, record_text: &Word)
    ensures id { is_id item.now.id ≡ true }
    ensures fit { is_fit item.now ≡ true }
    ensures time { time ≤ last_stamp }
    ensures utf8 { IsUtf8 record_text.now }
{
    let _id = item.id().as_str();
    time_form(time);
    text_form(record_text);
}

/// A deleted id and its time have their forms.
pub(crate) fn death_form(id: &Id, time: Stamp)
    ensures { IsDeath (id.now, time) }
{
    let _id = id.as_str();
    time_form(time);
}
