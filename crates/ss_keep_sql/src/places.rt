//! Where in an account's database a value is out of form.

use std::fmt;

/// A table of an account's database.
#[derive(Clone, Copy, Debug, PartialEq, Eq)]
pub enum Table {
    About,
    Collections,
    Rows,
    Batches,
    Parts,
    Commits,
}

impl Table {
    /// Its name in the database.
    pub fn name(self) -> &'static str {
        match self {
            Table::About => "about",
            Table::Collections => "collections",
            Table::Rows => "rows",
            Table::Batches => "batches",
            Table::Parts => "parts",
            Table::Commits => "commits",
        }
    }
}

impl fmt::Display for Table {
    fn fmt<W: fmt::Write>(&self, f: &mut fmt::Formatter<W>) -> fmt::Result {
        f.write_str(self.name())
    }
}

/// A row of a table: `SELECT * FROM table WHERE rowid = row` shows it. In `rows`, `batches` and `commits` it is the row's
/// number.
#[derive(Clone, Copy, Debug, PartialEq, Eq)]
pub struct Place {
    pub table: Table,

    /// SQLite's number of the row.
    pub row: i64,
}

impl fmt::Display for Place {
    fn fmt<W: fmt::Write>(&self, f: &mut fmt::Formatter<W>) -> fmt::Result {
        write!(f, "row {} of the table {}", self.row, self.table)
    }
}
