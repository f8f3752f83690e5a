// A value that keeps a journal: what can lie on a desk.
ghost use Rattle.std.specs.Prelude.{◌≡◌, ℕ, List, [], ◌<◌, All, OnOk, OnErr, IfOk, IfErr, Option, Some, None};

/// The journal has no room for one more call. The numbers are those by which the value says so.
#[derive(Debug, Drop, Clone, Copy, PartialEq, Eq)]
pub struct Full {
    /// The journal's entries.
    pub entries: u64,
    /// The bytes that the journal counts for them.
    pub bytes: u64,
}

/// A value that changes by calls alone and enters each call into its journal: a list of entries, oldest first.
/// An entry has the call's ticket, the number of the pass that made it, and what was asked. It may have more.
pub trait Journaled: Drop {
    ghost use Rattle.ss_desk.specs.declared.journaled.Full.{Full};
    ghost use Rattle.ss_desk.specs.Journal.{AddsCall};

    /// What no call changes, as the state that the journal begins from. No value of it is made.
    type Fixed;

    /// What a call leaves in the journal.
    type Entry;

    /// What a call is asked to do.
    type Ask: Drop;

    /// What a call answers.
    type Reply;

    ghost fixed: { Self → Self.Fixed };

    ghost entries: { Self → List Self.Entry };

    ghost ticket_of: { Self.Entry → ℕ };

    ghost pass_of: { Self.Entry → ℕ };

    ghost ask_of: { Self.Entry → Self.Ask };

    // What may be asked.
    ghost fits: { Self.Ask → Type 0 };

    // The journals that calls can leave, from this fixed part.
    ghost legal: { Self.Fixed → List Self.Entry → Type 0 };

    // The reply to the last call of this journal.
    ghost replies: { Self.Fixed → List Self.Entry → Self.Reply → Type 0 };

    // Whether this journal has no room for a call, and the two numbers that say so.
    ghost full: { Self.Fixed → List Self.Entry → Option Full };

    /// Makes one call and enters it, or leaves the value where the journal is full. The desk knows that the journal is
    /// legal, so a value that keeps this by itself may leave that condition unused.
    fn step(&mut self, ticket: u64, pass: u32, ask: Self::Ask) -> Result<Self::Reply, Full>
        requires fits { fits ask }
        requires above { All (λ e. ticket_of e < ticket) (entries self.old) }
        requires legal { legal (fixed self.old) (entries self.old) }
        ensures fixed { fixed self.new ≡ fixed self.old }
        ensures legal { legal (fixed self.new) (entries self.new) }
        ensures entered { OnOk result (AddsCall ticket_of pass_of ask_of (entries self.old) (entries self.new) ticket pass ask) }
        ensures reply { IfOk result (λ r. replies (fixed self.new) (entries self.new) r) }
        ensures had_room { OnOk result (full (fixed self.new) (entries self.old) ≡ None) }
        ensures unchanged { OnErr result (entries self.new ≡ entries self.old) }
        ensures full { IfErr result (λ f. full (fixed self.new) (entries self.new) ≡ Some f) };

    // A journal without entries is legal.
    ghost starts: { (x : Self) → entries x ≡ [] → legal (fixed x) [] };
}
