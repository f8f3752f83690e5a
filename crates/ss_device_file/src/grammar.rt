//! Which line may come next.

ghost use Rattle.std.specs.Prelude.{◌≡◌, option_map};
ghost use Rattle.ss_device_file.specs.Lines.{follows, is_ended, last_of, may_come, suits, version_in};

use crate::lines::{Line, Version};
use ss_text::count_decimals;

/// Whether a line may stand right behind another one, or in front of all.
#[tactic(auto, unfolding(ss_record::specs::Ids::before))]
fn follows(last: Option<&Line>, line: &Line) -> bool
    ensures { result ≡ follows (option_map (λ l. l.now) last.entry) line.now }
{
    match (last, line) {
        (None, Line::Head(_)) => true,
        (Some(Line::Head(_)), Line::Synced(_)) => true,
        (Some(Line::Synced(_)), Line::Row(_) | Line::Item(_) | Line::Dead(_, _) | Line::End) =>
            true,
        (Some(Line::Row(before)), Line::Row(row)) => before.id < row.id,
        (Some(Line::Row(_)), Line::Item(_) | Line::Dead(_, _) | Line::End) => true,
        (Some(Line::Item(_)), Line::Item(_) | Line::Dead(_, _) | Line::End) => true,
        (Some(Line::Dead(before, _)), Line::Dead(id, _)) => before < id,
        (Some(Line::Dead(_, _)), Line::End) => true,
        _ => false,
    }
}

/// The version that the first line says.
pub(crate) fn version_in(lines: &[Line]) -> Version
    ensures { result ≡ version_in lines.now }
{
    match lines.first() {
        Some(Line::Head(version)) => *version,
        _ => Version::Second,
    }
}

/// Whether a line may stand in a file of this version.
fn suits(version: Version, line: &Line) -> bool
    ensures { result ≡ suits version line.now }
{
    match (version, line) {
        (Version::First, Line::Item(line)) => {
            count_decimals(line.item.content().as_str().as_bytes()) == 0
        }
        _ => true,
    }
}

/// Whether a line may come next behind these.
#[tactic(auto, unfolding(crate::specs::Lines::may_come))]
pub(crate) fn may_come(lines: &[Line], line: &Line) -> bool
    ensures { result ≡ may_come lines.now line.now }
{
    follows(lines.last(), line) && suits(version_in(lines), line)
}

/// Whether the last line is the end.
pub(crate) fn is_ended(lines: &[Line]) -> bool
    ensures { result ≡ is_ended lines.now }
{
    matches!(lines.last(), Some(Line::End))
}
