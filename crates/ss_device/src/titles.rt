//! Titles in the content of items.

ghost use Rattle.std.specs.Prelude.{◌≡◌, false, true, bytes_eq, IfOk};
ghost use Rattle.serde_json.specs.Data.{string};
ghost use Rattle.serde_json.specs.View.{view};
ghost use Rattle.ss_record.specs.Ids.{places};
ghost use Rattle.ss_record.specs.Items.{is_fit};
ghost use Rattle.ss_record.specs.Marks.{marked_string};
ghost use Rattle.ss_device.specs.Edits.{titled};

use serde_json::Value;
use ss_record::{Item, marked_string, plain_text, with_member};
use ss_text::Word;
use std::alloc::{AllocError, Global};

fn text(alloc: Global, text: &str) -> Result<Value, AllocError>
    ensures { IfOk result (λ v. view v ≡ string (marked_string text.now)) }
{
    Ok(Value::String(marked_string(alloc, text)?))
}

/// The content of an item other than `places` with another title, with which it is fit.
pub(crate) fn titled(alloc: Global, item: &Item, title: &str) -> Result<Word, AllocError>
    requires { bytes_eq item.now.id places ≡ false }
    ensures text { IfOk result (λ content. content ≡ titled title.now item.now.content) }
    ensures fit { is_fit (record {
      id = item.now.id;
      kind = item.now.kind;
      content = titled title.now
          item.now.content;
    }) ≡ true }
{
    let _fit = item.id();
    let members = item.members(alloc)?;
    let value = text(alloc, title)?;
    let members = with_member(alloc, members, "title", value)?;
    plain_text(alloc, members)
}
