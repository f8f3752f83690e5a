//! What is reported of a term and of its links.

use ss_connection::{End, TurnNote};
use ss_town::TownFault;

/// A link that was served and closed.
#[derive(Drop)]
pub struct LinkReport<L> {
    /// The worker that served it, from 0.
    pub worker: u32,

    /// The link, closed. Where it tells, it tells what was taken from it and written to it.
    pub link: L,

    /// A turn for each message that was answered, in their order.
    pub turns: Vec<TurnNote>,

    /// How its connection ended.
    pub end: End,
}

/// Why a term ended (this project). Where several reasons hold, the first in this order is given: `Port`, `Full`,
/// `PortEnded`, `Rested`, `Connections`.
#[derive(Drop, Debug, Clone, Copy, PartialEq, Eq)]
pub enum TermStop {
    /// The port gave as many links as were wanted.
    Connections,

    /// The port ended.
    PortEnded,

    /// The port rested: it gave fewer links than were wanted, and asked for the end of the term.
    Rested,

    /// A turn was refused for want of room in this account's journal, which is full; it is the smallest such uid. The
    /// port had ended, had rested, or had given as many links as were wanted.
    Full { uid: u32 },

    /// The port failed.
    Port,

    /// No town was opened.
    Town(TownFault),

    /// Memory ran out, before a link was accepted or in the port.
    Memory,
}
