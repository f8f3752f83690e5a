//! The gate before an answer.

ghost use Rattle.std.specs.Prelude.{◌≡◌, ℕ, Bool, false};

/// A worker passes it after a message was read and before it is answered. It promises nothing: a gate may hold a worker for
/// a while, as those of tests do, to show that others go on meanwhile; and it may end links, so that others are served.
pub trait Gate {
    /// What it may answer a worker of this number, before the response to the message of this number.
    ghost says: { Self → ℕ → ℕ → Bool → Type 0 };

    /// Answers whether the response closes its link, where the message doesn't ask for that itself. `worker` is the
    /// worker's own number, and `turn` the number of the message on its link, both from 0.
    fn pass(&self, worker: u32, turn: u64) -> bool
        ensures says { says self.now worker turn result };

    /// Is told that an account's journal is full, or more than half full after a call: the term had better end soon.
    fn fills(&self);

    /// Is told that no memory was found for a connection, or for a message, which isn't answered.
    fn starves(&self);
}

/// A gate that does nothing, and lets each link stay.
#[derive(Clone, Copy, Debug)]
pub struct OpenGate;

impl Gate for OpenGate {
    ghost says = { λ gate worker turn closes. closes ≡ false };

    fn pass(&self, _worker: u32, _turn: u64) -> bool {
        false
    }

    fn fills(&self) {}

    fn starves(&self) {}
}
