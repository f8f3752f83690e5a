//! Rows in order.

ghost use Rattle.std.specs.Prelude.{◌≡◌};

use ss_record::Sheet;
use std::marker::Model;

/// A list of rows, in order.
#[derive(Drop, Debug)]
pub struct Sheets {
    sheets: Vec<Sheet>,
}

impl Model for Sheets {
    ghost use Rattle.std.specs.Prelude.{List};
    ghost use Rattle.ss_record.specs.declared.readings.Sheet.{Sheet};

    ghost Value = { List Sheet };

    ghost view = { λ s. s.sheets.items };
}

impl Sheets {
    /// The rows of a vector, which are moved.
    pub fn new(sheets: Vec<Sheet>) -> Sheets
        ensures { result ≡ sheets.items }
    {
        Sheets { sheets }
    }

    pub fn as_slice(&self) -> &[Sheet]
        ensures { result.now ≡ self.now }
    {
        self.sheets.as_slice()
    }

    /// The rows as a vector, which are moved.
    pub fn into_vec(self) -> Vec<Sheet>
        ensures { result.items ≡ self }
    {
        self.sheets
    }
}
