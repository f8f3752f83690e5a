//! What a connection notes of its turns, and how it ends.

/// What was done for a message.
#[derive(Debug, Clone, Copy, PartialEq, Eq)]
pub enum Turn {
    /// No account was asked: routing refused the message, or its account isn't listed.
    Local,

    /// The account was asked. Its journal has one entry with this ticket.
    Call { uid: u32, ticket: u64 },

    /// The account's journal had no room, with so many entries that it counts as so many bytes.
    Full { uid: u32, entries: u64, bytes: u64 },

    /// No memory was found to read what the message asks.
    Memory,
}

/// A message that was answered: the reading of the clock (hundredths of a second since 1970), whether the gate said that
/// the response closes its link, and the turn.
#[derive(Debug, Clone, Copy, PartialEq, Eq)]
pub struct TurnNote {
    pub now: u64,
    pub closed_by_gate: bool,
    pub turn: Turn,
}

/// How a connection ended.
#[derive(Debug, Clone, Copy, PartialEq, Eq)]
pub enum End {
    /// The input ended between messages.
    Closed,

    /// The last message asked to close, or is HTTP/1.0 (RFC 9112).
    Asked,

    /// The gate said that the last response closes, and its message didn't ask for that. It was written whole.
    Gate,

    /// As many messages were answered as may be, the last one didn't ask to close, and the gate didn't say so.
    Count,

    /// The input ended inside a message, for which nothing was written.
    Cut,

    /// What came is no message. At this reading of the clock (hundredths of a second) it was answered with 400, 411 or
    /// 413.
    BadMessage { now: u64 },

    /// A read of the link failed.
    ReadFault,

    /// A write to the link failed. The last response may have been written in part, and its turn is noted.
    WriteFault,

    /// No memory was found for the connection, or for a message, which isn't answered.
    Memory,
}
