//! Whether what a line says was asked is within the limits of one request.

ghost use Rattle.std.specs.Prelude.{◌≡◌, true, false};
ghost use Rattle.ss_log_lines.specs.LogLines.{IsFitLine};

use crate::lines::LogLine;
use ss_query::is_fit;

/// Whether what a line says was asked is within the limits of one request.
pub(crate) fn is_fit_line(line: &LogLine) -> bool
    ensures fit { result ≡ true → IsFitLine line.now }
    ensures unfit { result ≡ false → IsFitLine line.now → ⊥ }
{
    match line {
        LogLine::Log { .. } | LogLine::Account(_) => true,
        LogLine::Call(entry) => is_fit(&entry.request),
    }
}
