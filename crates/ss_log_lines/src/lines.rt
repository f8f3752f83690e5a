//! What lines of a log say.

use ss_laws::Entry;
use ss_lines::Line;
use ss_text::Stamp;

/// What a line of a log says.
#[derive(Drop, Debug)]
pub enum LogLine {
    /// `["log",1,"<moment>",<most>]`: a log begins. Its opening account has this moment, and it has room for so many
    /// entries; the 1 says the form of the lines.
    Log { moment: Stamp, most: u32 },

    /// A line that tells of the opening account, or the end.
    Account(Line),

    /// `["call",<ticket>,<pass>,<now>,"<mark>",<request>]`: what was asked, by which pass and at which reading of the
    /// clock, and how it ended.
    Call(Entry),
}
