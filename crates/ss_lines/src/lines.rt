//! What lines say.

use crate::digests::Digest;
use ss_bso::{Part, Row};
use ss_text::{Name, Stamp};

/// What a line says. Times are in hundredths of a second, and stand in a line as seconds with two decimals.
#[derive(Drop, Debug)]
pub enum Line {
    /// An account follows: `["account",1]`, which says the form of the lines.
    Account,

    /// `["times","<store>","<last delete>",<counter>]`: when the store was last written to, when something of it was last
    /// deleted as a whole, and how many batches were begun.
    Times {
        store: Stamp,
        last_delete: Stamp,
        counter: u64,
    },

    /// `["collection","<name>","<time>"]`: a collection and when it was last written to.
    Collection {
        name: Name,
        modified: Stamp,
    },

    /// `["row","<collection>","<id>","<time>",<sortindex>,<expires>,"<payload>"]`, with `null` for none.
    Row(Row),

    /// `["batch",<number>,"<collection>","<begun>"]`: a batch that isn't committed yet; its parts follow.
    Batch {
        number: u64,
        collection: Name,
        begun: Stamp,
    },

    /// `["part","<id>",<payload>,<sortindex>,<ttl>]`, where a field is `[]` for nothing, `null` for its default, or its
    /// value.
    Part(Part),

    /// `["digest","<64 hexadecimal digits>"]`: the SHA-256 of what stands before it.
    Digest(Digest),

    /// `["end"]`.
    End,
}
