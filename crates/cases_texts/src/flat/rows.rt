//! The rows of a set, a line each.

use crate::flat::draws::draws;
use crate::flat::ways::set_line;
use anyhow::bail;
use ss_flat::FlatKind;
use std::alloc::Global;

/// The kind of a set, and the lines of its rows.
#[derive(Drop)]
pub struct RowSet {
    kind: FlatKind,
    lines: Vec<String>,
}

impl RowSet {
    pub fn new(alloc: Global) -> RowSet {
        RowSet {
            kind: FlatKind::History,
            lines: Vec::new(alloc),
        }
    }

    fn begin(&mut self, kind: FlatKind) {
        self.kind = kind;
        self.lines.clear();
    }

    /// Takes a line, and answers what is told of it: of the end, what the set comes to.
    pub fn take(&mut self, alloc: Global, line: &str) -> anyhow::Result<String> {
        let (word, rest) = line.split_once(' ').unwrap_or((line, ""));
        match word {
            "history" => self.begin(FlatKind::History),
            "forms" => self.begin(FlatKind::Forms),
            "[\"end\"]" => return set_line(alloc, self.kind, self.lines.as_slice()),
            "draws" => return draws(alloc, self.kind, rest),
            _ => if line.starts_with("[\"row\",") {
                self.lines.push(String::from_str(alloc, line)?)?;
            } else {
                bail!("no row: {line}");
            },
        }
        Ok(String::new(alloc))
    }
}
